// The listing of a reading into a caller's buffer.
ghost use Rattle.std.specs.Prelude.{◌≡◌, min, length};
ghost use Rattle.reader.specs.Reading.{opening_refusal};
ghost use Rattle.reader.specs.View.{reader_text};
ghost use Rattle.listing.specs.Bytes.{laid};
ghost use Rattle.listing.specs.Listing.{listing, listing_of, most, listed, listed_bytes, refusal_line};

use crate::lines::put_all;
use crate::out::Out;
use builder::span::Span;
use comments::comment::Comment;
use reader::Reader;
use reader::tables::Tables;
use reader::token_row::TokenRow;
use refusals::Refusal;

// Lays the listing into a buffer, as far as that goes; the answer is how many bytes the listing has.
fn lay_out(
    buffer: &mut [u8],
    tokens: &[TokenRow],
    comments: &[Comment],
    spaces: &[Span],
    text_len: u64,
) -> usize
    ensures answer { result ≡ min (length (listing tokens.now comments.now spaces.now text_len)) most }
    ensures bytes { buffer.new ≡ laid buffer.old 0 (listing tokens.now comments.now spaces.now text_len) }
{
    let mut out = Out::new(buffer);
    put_all(&mut out, tokens, comments, spaces, text_len);
    out.len()
}

// Lists rows that the caller holds apart, or has lent to share: each table's `kept`.
pub fn list_rows(
    reader: &Reader<'_>,
    tokens: &[TokenRow],
    comments: &[Comment],
    spaces: &[Span],
    buffer: &mut [u8],
) -> Result<usize, Refusal>
    ensures answer { result ≡ listed (opening_refusal reader.now.opening) (listing tokens.now comments.now spaces.now (length (reader_text reader.now))) (length buffer.old) }
    ensures bytes { buffer.new ≡ listed_bytes result (listing tokens.now comments.now spaces.now (length (reader_text reader.now))) buffer.old }
{
    if let Some(refusal) = reader.refusal() {
        return Err(refusal);
    }
    let text_len = reader.text_len() as u64;
    // First into no room at all, to count its bytes.
    let len = lay_out(&mut [], tokens, comments, spaces, text_len);
    if len > buffer.len() {
        return Err(Refusal::ListingTooLong);
    }
    Ok(lay_out(buffer, tokens, comments, spaces, text_len))
}

// Lists what the tables have on record. The answer is how many bytes the listing has, as a read of the library answers; the others of
// the buffer are left alone.
pub fn list(reader: &Reader<'_>, tables: &Tables<'_>, buffer: &mut [u8]) -> Result<usize, Refusal>
    ensures answer { result ≡ listed (opening_refusal reader.now.opening) (listing_of tables.now (length (reader_text reader.now))) (length buffer.old) }
    ensures bytes { buffer.new ≡ listed_bytes result (listing_of tables.now (length (reader_text reader.now))) buffer.old }
{
    list_rows(
        reader,
        tables.tokens.kept(),
        tables.comments.kept(),
        tables.spaces.kept(),
        buffer,
    )
}

// Writes the one line of a refusal; the answer is how many bytes it has.
pub fn list_refusal(refusal: &Refusal, buffer: &mut [u8]) -> usize
    ensures answer { result ≡ min (length (refusal_line refusal.now)) most }
    ensures bytes { buffer.new ≡ laid buffer.old 0 (refusal_line refusal.now) }
{
    let mut out = Out::new(buffer);
    out.put_line(b'R', &[u64::from(u8::from(*refusal))]);
    out.len()
}
