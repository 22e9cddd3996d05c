// The gap before a token: where it ends, and what of it is new.
ghost use Rattle.std.specs.Prelude.{◌≡◌, ◌^◌, ◌<◌, length, if◌then◌else◌, Decides};
ghost use Rattle.std.specs.Str.{IsCharBoundary};
ghost use Rattle.std.specs.List.{AllByRecursion};
ghost use Rattle.source.specs.View.{text_of, place_of};
ghost use Rattle.scanner.specs.Ecma.{LineTerminatorIn, Gap, GapIs, CutOut};
ghost use Rattle.scanner.specs.Gaps.{after, gap_from, measured, counted, unended};
ghost use Rattle.scanner.specs.View.{shape_of};

use crate::comment::Unterminated;
use crate::piece::{Piece, piece_at};
use source::source::Source;

// What stands from the place of a source up to the next token.
#[derive(Clone, Copy, PartialEq, Eq, Debug, Default)]
pub struct GapMeasure {
    pub end: usize,
    // How many of its comments and irregular spaces are new.
    pub comments: usize,
    pub spaces: usize,
    // A line terminator stands in it, or in the unterminated block at its end.
    pub newline: bool,
    pub unterminated: bool,
}

// Whether a start lies after another, if there is one. A table asks the same of its own last row; the scanner knows no tables.
fn is_after(last: Option<usize>, start: usize) -> bool
    ensures { result ≡ after last start }
{
    last.is_none_or(|last| last < start)
}

impl GapMeasure {
    // The gap with one piece more. The two last starts stay apart: callers hold them in two tables, and nothing but this measure asks for both.
    fn with_piece(
        self,
        piece: &Piece<'_>,
        last_comment: Option<usize>,
        last_space: Option<usize>,
    ) -> Self
        requires { (self.comments < 2 ^ 32) × (self.spaces < 2 ^ 32) }
        ensures { result ≡ counted last_comment last_space self piece.now.start piece.now.end (shape_of piece.now.trivia) }
    {
        let new_comment = piece.trivia.is_comment() && is_after(last_comment, piece.start);
        let new_space = piece.trivia.is_irregular() && is_after(last_space, piece.start);
        GapMeasure {
            end: piece.end,
            comments: self.comments + usize::from(new_comment),
            spaces: self.spaces + usize::from(new_space),
            newline: self.newline || piece.has_newline(),
            unterminated: false,
        }
    }

    // The gap before a block without an end.
    fn before_open(self, block: Unterminated) -> Self
        ensures { result ≡ unended self block.multi }
    {
        GapMeasure {
            newline: self.newline || block.multi,
            unterminated: true,
            ..self
        }
    }
}

// The gap at the source's place. New are the comments and irregular spaces that start after the last of each, if there is one.
pub fn measure_gap(
    source: &Source<'_>,
    last_comment: Option<usize>,
    last_space: Option<usize>,
) -> GapMeasure
    ensures value { result ≡ measured last_comment last_space (gap_from (text_of source.now) (place_of source.now)) }
    ensures gap { GapIs (text_of source.now) (place_of source.now) (gap_from (text_of source.now) (place_of source.now)) }
    ensures only { (g : Gap) → GapIs (text_of source.now) (place_of source.now) g → (g ≡ gap_from (text_of source.now) (place_of source.now)) × (result ≡ measured last_comment last_space g) }
    ensures cuts { AllByRecursion (CutOut (text_of source.now)) (gap_from (text_of source.now) (place_of source.now)).pieces }
    ensures newline { Decides result.newline (LineTerminatorIn (text_of source.now) (place_of source.now) (if result.unterminated then length (text_of source.now) else result.end)) }
    ensures cut { IsCharBoundary (text_of source.now) result.end }
{
    let mut ahead = *source;
    let mut gap = GapMeasure {
        end: ahead.offset_usize(),
        ..GapMeasure::default()
    };
    loop {
        match piece_at(&ahead) {
            Ok(Some(piece)) => {
                gap = gap.with_piece(&piece, last_comment, last_space);
                ahead.set_position(piece.end);
            }
            Ok(None) => return gap,
            Err(block) => return gap.before_open(block),
        }
    }
}
