// The pieces that stand between tokens.
ghost use Rattle.std.specs.Prelude.{◌≡◌, ◌+◌, ◌≤◌, false, length, drop, Ok, slice_index};
ghost use Rattle.source.specs.View.{text_of, place_of};
ghost use Rattle.scanner.specs.Ecma.{block, Standing, Stands};
ghost use Rattle.scanner.specs.Pieces.{piece_at, white_from, comment_from, line_from, block_piece, Lands};
ghost use Rattle.scanner.specs.Gaps.{comment_shape, irregular_shape, newline_in};
ghost use Rattle.scanner.specs.View.{shape_of, piece_of, ending_of, standing_of};
ghost use Rattle.scanner.specs.Ends.{block_from};

use crate::comment::{
    Unterminated, skip_multi_line_comment, skip_single_line_comment, terminator_at,
};
use crate::whitespace::line_break_handler;
use source::source::Source;
use source::unicode::{CR, LF, is_irregular_line_terminator, is_irregular_whitespace};

// What a piece is; a comment's part of the text goes from its opening to its end.
#[derive(Clone, Copy, PartialEq, Eq, Debug)]
pub enum Trivia<'a> {
    Whitespace,
    LineBreak,
    IrregularWhitespace,
    IrregularLineBreak,
    LineComment(&'a str),
    SingleLineBlock(&'a str),
    MultiLineBlock(&'a str),
}

// A piece, where it starts and where the text goes on after it.
#[derive(Clone, Copy, PartialEq, Eq, Debug)]
pub struct Piece<'a> {
    pub start: usize,
    pub end: usize,
    pub trivia: Trivia<'a>,
}

impl Trivia<'_> {
    pub(crate) fn is_comment(&self) -> bool
        ensures { result ≡ comment_shape (shape_of self.now) }
    {
        matches!(
            self,
            Trivia::LineComment(_) | Trivia::SingleLineBlock(_) | Trivia::MultiLineBlock(_)
        )
    }

    // Whether it is recorded as an irregular space.
    pub fn is_irregular(&self) -> bool
        ensures { result ≡ irregular_shape (shape_of self.now) }
    {
        matches!(
            self,
            Trivia::IrregularWhitespace | Trivia::IrregularLineBreak
        )
    }
}

impl Piece<'_> {
    // Whether a line terminator stands in it; a line comment swallows the one that ends it.
    pub(crate) fn has_newline(&self) -> bool
        ensures { result ≡ newline_in self.now.start self.now.end (shape_of self.now.trivia) }
    {
        match self.trivia {
            Trivia::LineBreak | Trivia::IrregularLineBreak | Trivia::MultiLineBlock(_) => true,
            Trivia::LineComment(comment) => comment.len() < self.end.saturating_sub(self.start),
            _ => false,
        }
    }
}

fn line_comment<'a>(source: &Source<'a>) -> Piece<'a>
    requires { place_of source.now + 2 ≤ length (text_of source.now) }
    ensures { piece_of result ≡ line_from (text_of source.now) (place_of source.now) }
{
    let text = source.whole();
    let start = source.offset_usize();
    let bytes = text.as_bytes();
    let end = skip_single_line_comment(bytes, start + 2);
    Piece {
        start,
        end: end + terminator_at(bytes, end),
        trivia: Trivia::LineComment(&text[start..end]),
    }
}

fn block_trivia(comment: &str, multi: bool) -> Trivia<'_>
    ensures { shape_of result ≡ block multi comment.now }
{
    if multi {
        Trivia::MultiLineBlock(comment)
    } else {
        Trivia::SingleLineBlock(comment)
    }
}

fn block_comment<'a>(source: &Source<'a>) -> Result<Piece<'a>, Unterminated>
    requires { place_of source.now + 2 ≤ length (text_of source.now) }
    ensures { ending_of result ≡ block_piece (text_of source.now) (place_of source.now) (block_from (place_of source.now + 2) false (drop (place_of source.now + 2) (text_of source.now))) }
{
    let text = source.whole();
    let start = source.offset_usize();
    let block = skip_multi_line_comment(text.as_bytes(), start + 2)?;
    Ok(Piece {
        start,
        end: block.end,
        trivia: block_trivia(&text[start..block.end], block.multi),
    })
}

// After a `/`: the next byte says which comment, if any. It is inlined, with the two below, so that a walk over pieces keeps each in registers.
#[inline(always)]
fn comment_from<'a>(source: &Source<'a>) -> Result<Option<Piece<'a>>, Unterminated>
    ensures { standing_of result ≡ comment_from (text_of source.now) (place_of source.now) (slice_index (text_of source.now) (place_of source.now + 1)) }
{
    match source.whole().as_bytes().get(source.offset_usize() + 1) {
        Some(b'/') => Ok(Some(line_comment(source))),
        Some(b'*') => Ok(Some(block_comment(source)?)),
        _ => Ok(None),
    }
}

// White space, line breaks and irregular spaces, by the character at the place.
#[inline(always)]
fn white_from<'a>(source: &Source<'a>, c: char) -> Option<Piece<'a>>
    ensures { standing_of (Ok result) ≡ white_from (text_of source.now) (place_of source.now) c }
{
    let start = source.offset_usize();
    let (end, trivia) = match c {
        ' ' | '\t' => (start + 1, Trivia::Whitespace),
        LF | CR => (
            line_break_handler(source.whole().as_bytes(), start + 1),
            Trivia::LineBreak,
        ),
        _ if is_irregular_whitespace(c) => (start + c.len_utf8(), Trivia::IrregularWhitespace),
        _ if is_irregular_line_terminator(c) => (start + c.len_utf8(), Trivia::IrregularLineBreak),
        _ => return None,
    };
    Some(Piece { start, end, trivia })
}

// What stands at the source's place: a piece, a block comment without an end, or none of these.
#[inline(always)]
pub fn piece_at<'a>(source: &Source<'a>) -> Result<Option<Piece<'a>>, Unterminated>
    ensures value { standing_of result ≡ piece_at (text_of source.now) (place_of source.now) }
    ensures stands { Stands (text_of source.now) (place_of source.now) (standing_of result) }
    ensures only { (s : Standing) → Stands (text_of source.now) (place_of source.now) s → s ≡ standing_of result }
    ensures lands { Lands (text_of source.now) (place_of source.now) (standing_of result) }
{
    match source.peek_char() {
        None => Ok(None),
        Some('/') => comment_from(source),
        Some(c) => Ok(white_from(source, c)),
    }
}
