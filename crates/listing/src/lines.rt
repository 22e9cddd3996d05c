// The lines of a listing, in their order.
ghost use Rattle.std.specs.Prelude.{◌≡◌};
ghost use Rattle.listing.specs.Bytes.{Writes};
ghost use Rattle.listing.specs.Listing.{comment_bytes, share, end_fields, unterminated_line, last_row, listing};

use crate::out::Out;
use crate::rows::put_rows;
use builder::span::Span;
use comments::comment::Comment;
use reader::token_row::TokenRow;

// How many bytes of the text are of comments.
fn comment_bytes(comments: &[Comment]) -> u64
    ensures { result ≡ comment_bytes comments.now }
{
    comments.iter().fold(0, |bytes: u64, comment| {
        bytes.saturating_add(u64::from(comment.end.saturating_sub(comment.start)))
    })
}

// The thousandths of the text that are comment, cut off.
fn share_of(bytes: u64, text_len: u64) -> u64
    ensures { result ≡ share bytes text_len }
{
    bytes
        .saturating_mul(1000)
        .checked_div(text_len)
        .unwrap_or(0)
}

fn end_fields(comments: &[Comment], spaces: &[Span], text_len: u64) -> [u64; 4]
    ensures { result ≡ end_fields comments.now spaces.now text_len }
{
    let bytes = comment_bytes(comments);
    [
        comments.len() as u64,
        spaces.len() as u64,
        bytes,
        share_of(bytes, text_len),
    ]
}

// The line of an unterminated end, if the last token is one.
fn put_unterminated(out: &mut Out<'_>, tokens: &[TokenRow])
    ensures { Writes (unterminated_line (last_row tokens.now)) out.old out.new }
{
    let row = tokens.last().copied().unwrap_or_default();
    if row.unterminated {
        out.put_line(
            b'U',
            &[u64::from(row.token.start), u64::from(row.token.end)],
        );
    }
}

// All lines, in their order.
pub(crate) fn put_all(
    out: &mut Out<'_>,
    tokens: &[TokenRow],
    comments: &[Comment],
    spaces: &[Span],
    text_len: u64,
)
    ensures { Writes (listing tokens.now comments.now spaces.now text_len) out.old out.new }
{
    put_rows(out, comments);
    put_rows(out, spaces);
    put_unterminated(out, tokens);
    out.put_line(b'E', &end_fields(comments, spaces, text_len));
}
