#![tactic(auto)]
// A settings text, JSON with comments, read to its end in tables of fixed sizes and listed.
ghost use Rattle.std.specs.Prelude.{◌≡◌, ◌<◌, ◌≤◌, length, Err, IsUtf8, OnErr};
ghost use Rattle.source.specs.Rfc3629.{Utf8Octets};
ghost use Rattle.refusals.specs.declared.Refusal.TheVariants.{TooLong, NotUtf8};
ghost use Rattle.listing.specs.Bytes.{laid};
ghost use Rattle.listing.specs.Listing.{refusal_line};

use builder::span::Span;
use comments::comment::Comment;
use listing::list::{list, list_refusal};
use reader::Reader;
use reader::tables::Tables;
use reader::token_row::TokenRow;
use refusals::Refusal;
use tokens::json::Json;

// The longest text in bytes, the sizes of the tables, and a buffer that every listing of such tables fits.
pub const LIMIT: usize = 32_768;

pub const COMMENTS: usize = 1_024;

pub const SPACES: usize = 256;

pub const TOKENS: usize = 1_024;

pub const LISTING: usize = 65_536;

// Reads tokens up to Eof; a reading that succeeds takes a row, so there are no more turns than rows and one.
fn read_to_eof(reader: &mut Reader<'_>, tables: &mut Tables<'_>) -> Result<(), Refusal> {
    for _ in 0..=TOKENS {
        if reader.has_ended() {
            return Ok(());
        }
        reader.read(&Json, tables)?;
    }
    Ok(())
}

// Reads a text to its end and lists it.
fn list_settings(text: &[u8], out: &mut [u8]) -> Result<usize, Refusal>
    ensures too_long { 32768 < length text.now → result ≡ Err TooLong }
    ensures not_utf8 { length text.now ≤ 32768 → (IsUtf8 text.now → ⊥) → result ≡ Err NotUtf8 }
    ensures not_octets { length text.now ≤ 32768 → (Utf8Octets text.now → ⊥) → result ≡ Err NotUtf8 }
    ensures refused { OnErr result (out.new ≡ out.old) }
{
    let mut token_rows = [TokenRow::default(); TOKENS];
    let mut comment_rows = [Comment::default(); COMMENTS];
    let mut space_rows = [Span::default(); SPACES];
    let mut tables = Tables::new(&mut token_rows, &mut comment_rows, &mut space_rows);
    let mut reader = Reader::open(text, LIMIT);
    if let Some(refusal) = reader.refusal() {
        return Err(refusal);
    }
    read_to_eof(&mut reader, &mut tables)?;
    list(&reader, &tables, out)
}

// What the program prints of a text: its listing, or the line of the refusal. The answer is how many bytes of the buffer that takes, as
// a read of the library answers.
pub fn answer(text: &[u8], out: &mut [u8]) -> usize
    ensures too_long { 32768 < length text.now → out.new ≡ laid out.old 0 (refusal_line TooLong) }
    ensures not_utf8 { length text.now ≤ 32768 → (IsUtf8 text.now → ⊥) → out.new ≡ laid out.old 0 (refusal_line NotUtf8) }
    ensures not_octets { length text.now ≤ 32768 → (Utf8Octets text.now → ⊥) → out.new ≡ laid out.old 0 (refusal_line NotUtf8) }
    ensures within { result ≤ length out.old }
{
    let n = match list_settings(text, out) {
        Ok(n) => n,
        Err(refusal) => list_refusal(&refusal, out),
    };
    n.min(out.len())
}
