// The gap a second time: its pieces are fed to the builder.
ghost use Rattle.std.specs.Prelude.{◌≡◌};
ghost use Rattle.source.specs.View.{text_of, place_of};
ghost use Rattle.scanner.specs.View.{shape_of};
ghost use Rattle.builder.specs.Building.{block_of};
ghost use Rattle.reader.specs.Feeding.{short_of, comment_end, fed_state, Noted, FedBy, Fed};
ghost use Rattle.reader.specs.View.{SameLenders};

use crate::tables::Tables;
use builder::state::TriviaBuilder;
use scanner::piece::{Piece, Trivia, piece_at};
use source::source::Source;

// A place as a row holds it; places of a text fit.
fn short(place: usize) -> u32
    ensures { result ≡ short_of place }
{
    u32::try_from(place).unwrap_or(0)
}

// Where a comment ends that starts at a place.
fn comment_end(start: usize, comment: &str) -> u32
    ensures { result ≡ comment_end start comment.now }
{
    short(start.saturating_add(comment.len()))
}

// A block comment, with whether a line terminator stands in it.
fn feed_block(
    builder: &mut TriviaBuilder,
    tables: &mut Tables<'_>,
    text: &str,
    start: usize,
    comment: &str,
    multi: bool,
)
    ensures noted { Noted text.now (short_of start) (comment_end start comment.now) (block_of multi) (fed_state builder.old tables.old) (fed_state builder.new tables.new) }
    ensures tokens { tables.new.tokens ≡ tables.old.tokens }
    ensures lenders { SameLenders tables.old tables.new }
{
    let end = comment_end(start, comment);
    let _ = builder.add_block_comment(&mut tables.comments, text, short(start), end, multi);
}

// One piece of the gap. The builder and the tables go together here alone: one is the reader's, the others are the caller's.
fn feed_piece(builder: &mut TriviaBuilder, tables: &mut Tables<'_>, text: &str, piece: &Piece<'_>)
    ensures fed { FedBy text.now piece.now.start piece.now.end (shape_of piece.now.trivia) (fed_state builder.old tables.old) (fed_state builder.new tables.new) }
    ensures tokens { tables.new.tokens ≡ tables.old.tokens }
    ensures lenders { SameLenders tables.old tables.new }
{
    let start = short(piece.start);
    if piece.trivia.is_irregular() {
        let _ = builder.add_irregular_whitespace(&mut tables.spaces, start, short(piece.end));
    }
    match piece.trivia {
        Trivia::Whitespace | Trivia::IrregularWhitespace => {}
        Trivia::LineBreak | Trivia::IrregularLineBreak => {
            builder.handle_newline(&mut tables.comments);
        }
        Trivia::LineComment(comment) => {
            let end = comment_end(piece.start, comment);
            let _ = builder.add_line_comment(&mut tables.comments, text, start, end);
        }
        // Two arms, since in one the proof does not tell the two kinds of block apart.
        Trivia::SingleLineBlock(comment) => {
            feed_block(builder, tables, text, piece.start, comment, false);
        }
        Trivia::MultiLineBlock(comment) => {
            feed_block(builder, tables, text, piece.start, comment, true);
        }
    }
}

// All pieces of the gap at the source's place; a block without an end is none. The place moves from piece to piece, here and where the gap
// is measured: an iterator of pieces would be one more type with laws.
pub(crate) fn feed_gap(builder: &mut TriviaBuilder, tables: &mut Tables<'_>, source: &Source<'_>)
    ensures fed { Fed (text_of source.now) (place_of source.now) (fed_state builder.old tables.old) (fed_state builder.new tables.new) }
    ensures tokens { tables.new.tokens ≡ tables.old.tokens }
    ensures lenders { SameLenders tables.old tables.new }
{
    let mut ahead = *source;
    while let Some(piece) = piece_at(&ahead).unwrap_or(None) {
        feed_piece(builder, tables, source.whole(), &piece);
        ahead.set_position(piece.end);
    }
}
