// The content of a comment: the comment without its opening two bytes and, in a block, its closing two.
ghost use Rattle.std.specs.Prelude.{◌≡◌, Option};
ghost use Rattle.builder.specs.Content.{closing, ContentIs};

use comments::comment::CommentKind;

// How many bytes close a comment of this kind.
fn closing_of(kind: CommentKind) -> usize
    ensures { result ≡ closing kind }
{
    if kind.is_line() { 0 } else { 2 }
}

// The content, if the comment lies in the text, is long enough for its kind, and its content lies between characters.
pub fn content_of(text: &str, start: usize, end: usize, kind: CommentKind) -> Option<&str>
    ensures { ContentIs text.now start end kind result }
{
    if end > text.len() {
        return None;
    }
    let from = start.checked_add(2)?;
    let to = end.checked_sub(closing_of(kind))?;
    // `get` does not say that the ends of what it gives lie between characters, so they are asked for first.
    if from <= to && text.is_char_boundary(from) && text.is_char_boundary(to) {
        Some(&text[from..to])
    } else {
        None
    }
}
