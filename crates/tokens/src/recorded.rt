// A token reader that answers from a recorded list: records, one after another, each of a token of the text.
ghost use Rattle.std.specs.Prelude.{◌≡◌, true};
ghost use Rattle.tokens.specs.Layout.{record_of};
ghost use Rattle.tokens.specs.Recorded.{counts_for, told_by, recorded_telling, FirstTold};
ghost use Rattle.tokens.specs.FairRecords.{fair_recorded};

use crate::layout::{RECORD_LEN, Record};
use crate::token_reader::{TokenReader, Told};
use kinds::kind::Kind;

// Whether the record keeps the laws of a token reader over the text. The kinds of tokens begin with Ident.
fn counts(text: &str, recorded: Record) -> bool
    ensures { result ≡ counts_for text.now recorded }
{
    u8::from(recorded.kind) >= u8::from(Kind::Ident)
        && recorded.start < recorded.end
        && text.is_char_boundary(recorded.start as usize)
        && text.is_char_boundary(recorded.end as usize)
}

// What the bytes of a record tell at the place, if they spell one.
fn told_by(text: &str, place: usize, bytes: &[u8]) -> Option<Told>
    ensures { result ≡ told_by text.now place (record_of bytes.now) }
{
    let it = Record::try_from(bytes).ok()?;
    let tells = it.start as usize == place && counts(text, it);
    tells.then_some(Told {
        kind: it.kind,
        end: it.end as usize,
    })
}

// What the first record tells that tells a token at the place.
fn first_told(list: &[u8], text: &str, place: usize) -> Option<Told>
    ensures { result ≡ recorded_telling list.now text.now place }
{
    list.chunks_exact(RECORD_LEN)
        .find_map(|bytes| told_by(text, place, bytes))
}

// A list of records, each a token of a text.
#[derive(Clone, Copy, Debug, PartialEq, Eq)]
pub struct RecordedList<'a> {
    list: &'a [u8],
}

impl<'a> RecordedList<'a> {
    pub fn new(list: &'a [u8]) -> Self
        ensures { result.list ≡ list.entry }
    {
        RecordedList { list }
    }
}

impl TokenReader for RecordedList<'_> {
    const HASHBANG: bool = true;

    ghost banged = { true };

    ghost telling = { λ x. recorded_telling x.list.now };

    ghost fair = { λ x text u place. fair_recorded x.list.now text place };

    fn begins_banged() -> bool
        ensures { result ≡ true }
    {
        Self::HASHBANG
    }

    // The first record of the list that counts for the text and starts at the place.
    fn tell(&self, text: &str, place: usize) -> Option<Told>
        ensures value { result ≡ recorded_telling self.now.list.now text.now place }
        ensures first { FirstTold self.now.list.now text.now place result }
    {
        first_told(self.list, text, place)
    }
}
