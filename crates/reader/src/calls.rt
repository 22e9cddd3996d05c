// The calls of a reader.
ghost use Rattle.std.specs.Prelude.{◌≡◌, ◌<◌, ◌≤◌, min, length, Err, IsUtf8, IsOkAnd, Option};
ghost use Rattle.reader.specs.declared.OpenError.TheVariants.{TooLong, NotUtf8};
ghost use Rattle.reader.specs.Reading.{unless, opening_refusal};
ghost use Rattle.reader.specs.View.{reader_text, Opened, OpenedOctets, reading, SameLenders, Taken, ReadTo};

use crate::feed::feed_gap;
use crate::tables::Tables;
use crate::token_after::token_after;
use crate::token_row::{Found, TokenRow};
use crate::{OpenError, Reader};
use builder::state::TriviaBuilder;
use kinds::kind::Kind;
use refusals::Refusal;
use scanner::gap::measure_gap;
use source::source::{MAX_LEN, Source};
use std::str::from_utf8;
use tokens::token_reader::TokenReader;

// The text that some bytes are, if they are at most `limit` and UTF-8.
fn text_of(bytes: &[u8], limit: usize) -> Result<&str, OpenError>
    ensures long { limit < length bytes.now → result ≡ Err TooLong }
    ensures wrong { length bytes.now ≤ limit → (IsUtf8 bytes.now → ⊥) → result ≡ Err NotUtf8 }
    ensures fine { length bytes.now ≤ limit → IsUtf8 bytes.now → IsOkAnd result (λ t. t.now ≡ bytes.now) }
{
    if bytes.len() > limit {
        return Err(OpenError::TooLong);
    }
    from_utf8(bytes).map_err(|_| OpenError::NotUtf8)
}

impl<'t> Reader<'t> {
    // Opens a text of at most `limit` bytes. One that is too long or not UTF-8 is refused, and each later call then says so.
    pub fn open(bytes: &'t [u8], limit: usize) -> Self
        ensures opened { Opened bytes.now (min limit 4294967039) result }
        ensures octets { OpenedOctets bytes.now (min limit 4294967039) result }
    {
        let text = text_of(bytes, limit.min(MAX_LEN));
        Reader {
            opening: text.map(|_| ()),
            source: Source::new(text.unwrap_or("")),
            builder: TriviaBuilder::new(),
            ended: false,
        }
    }

    // Why every call is refused, if the text was not opened.
    pub fn refusal(&self) -> Option<Refusal>
        ensures { result ≡ opening_refusal self.now.opening }
    {
        self.opening.err().map(Refusal::from)
    }

    // Whether the latest token is Eof.
    pub fn has_ended(&self) -> bool
        ensures { result ≡ self.now.ended }
    {
        self.ended
    }

    pub fn text_len(&self) -> usize
        ensures { result ≡ length (reader_text self.now) }
    {
        self.source.whole().len()
    }

    // What a reading comes to: the token that it finds, or why it is refused.
    fn look<R: TokenReader>(&self, r: &R, tables: &Tables<'_>) -> Result<Found, Refusal>
        ensures { result ≡ reading R.banged (R.telling r.now) self.now tables.now }
    {
        self.opening?;
        if self.ended {
            return Err(Refusal::AfterEof);
        }
        let gap = measure_gap(
            &self.source,
            tables.comments.last_start(),
            tables.spaces.last_start(),
        );
        let found = token_after(r, &self.source, &gap);
        tables.fit(&gap, found)
    }

    // Takes a token and its gap on record.
    fn take_in(&mut self, found: Found, tables: &mut Tables<'_>)
        ensures taken { Taken found self.old self.new tables.old tables.new }
        ensures lenders { SameLenders tables.old tables.new }
    {
        self.builder.clear_pure_comments();
        self.builder.clear_no_side_effects_comments();
        feed_gap(&mut self.builder, tables, &self.source);
        self.builder.handle_token(&mut tables.comments, found.token);
        let row = TokenRow::new(found, &self.builder);
        let _ = tables.tokens.append(row);
        self.source.set_position(found.token.end as usize);
        self.ended = found.token.kind == Kind::Eof;
    }

    // Reads the next token with its gap.
    pub fn read<R: TokenReader>(&mut self, r: &R, tables: &mut Tables<'_>) -> Result<(), Refusal>
        ensures answer { result ≡ unless (reading R.banged (R.telling r.now) self.old tables.old) }
        ensures left { ReadTo (reading R.banged (R.telling r.now) self.old tables.old) self.old self.new tables.old tables.new }
        ensures lenders { SameLenders tables.old tables.new }
    {
        let found = self.look(r, tables)?;
        self.take_in(found, tables);
        Ok(())
    }
}
