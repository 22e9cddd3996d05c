// The token after a gap.
ghost use Rattle.std.specs.Prelude.{◌≡◌, ◌+◌, ◌^◌, ◌<◌, ◌≤◌, true, false, length, drop};
ghost use Rattle.std.specs.Str.{IsCharBoundary};
ghost use Rattle.source.specs.View.{text_of};
ghost use Rattle.scanner.specs.Ends.{line_end};
ghost use Rattle.reader.specs.Reading.{found, opens_hashbang, told_at, token_after, FoundLands};

use crate::token_row::Found;
use kinds::kind::Kind;
use kinds::token::Token;
use scanner::comment::read_hashbang_comment;
use scanner::gap::GapMeasure;
use source::source::Source;
use tokens::token_reader::TokenReader;

fn opens_hashbang(text: &[u8]) -> bool
    ensures value { result ≡ opens_hashbang text.now }
    ensures long { result ≡ true → 2 ≤ length text.now }
{
    text.starts_with(b"#!")
}

// A token from the end of the gap on.
fn found_after(gap: &GapMeasure, kind: Kind, end: usize, unterminated: bool) -> Found
    requires { (gap.now.end < 2 ^ 32) × (end < 2 ^ 32) }
    ensures { result ≡ found kind gap.now.end end gap.now.newline unterminated }
{
    Found {
        token: Token {
            kind,
            start: gap.end as u32,
            end: end as u32,
            is_on_new_line: gap.newline,
        },
        unterminated,
    }
}

// The hashbang line at the start of the text.
fn hashbang_line(source: &Source<'_>, gap: &GapMeasure) -> Found
    requires cut { gap.now.end ≤ length (text_of source.now) }
    requires long { 2 ≤ length (text_of source.now) }
    ensures value { result ≡ found Kind.HashbangComment gap.now.end (2 + line_end (drop 2 (text_of source.now))) gap.now.newline false }
    ensures lands { IsCharBoundary (text_of source.now) result.token.end }
{
    let end = read_hashbang_comment(source.whole().as_bytes(), 2);
    found_after(gap, Kind::HashbangComment, end, false)
}

// What the token reader tells after the gap.
fn told_after<R: TokenReader>(r: &R, source: &Source<'_>, gap: &GapMeasure) -> Option<Found>
    requires cut { gap.now.end ≤ length (text_of source.now) }
    ensures value { result ≡ told_at gap.now (R.telling r.now (text_of source.now) gap.now.end) }
    ensures lands { FoundLands (text_of source.now) result }
{
    let told = r.tell(source.whole(), gap.end)?;
    Some(found_after(gap, told.kind, told.end, false))
}

// The token after the gap, or none.
pub(crate) fn token_after<R: TokenReader>(
    r: &R,
    source: &Source<'_>,
    gap: &GapMeasure,
) -> Option<Found>
    requires cut { IsCharBoundary (text_of source.now) gap.now.end }
    ensures value { result ≡ token_after R.banged (R.telling r.now) (text_of source.now) gap.now }
    ensures lands { FoundLands (text_of source.now) result }
{
    let text = source.whole();
    if gap.unterminated || gap.end >= text.len() {
        return Some(found_after(gap, Kind::Eof, text.len(), gap.unterminated));
    }
    if R::begins_banged() && gap.end == 0 && opens_hashbang(text.as_bytes()) {
        return Some(hashbang_line(source, gap));
    }
    told_after(r, source, gap)
}
