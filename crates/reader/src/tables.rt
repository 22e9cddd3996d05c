// The tables that a reading fills: a row for each token, comment and irregular space.
ghost use Rattle.std.specs.Prelude.{◌≡◌};
ghost use Rattle.table.specs.View.{rows_of, count_of};
ghost use Rattle.reader.specs.Reading.{fitting};
ghost use Rattle.reader.specs.View.{room_of};

use crate::token_row::{Found, TokenRow};
use builder::span::Span;
use comments::comment::Comment;
use refusals::Refusal;
use scanner::gap::GapMeasure;
use table::Table;

#[derive(Drop)]
pub struct Tables<'a> {
    pub tokens: Table<'a, TokenRow>,
    pub comments: Table<'a, Comment>,
    pub spaces: Table<'a, Span>,
}

impl<'a> Tables<'a> {
    // Empty tables over the slices.
    pub fn new(
        tokens: &'a mut [TokenRow],
        comments: &'a mut [Comment],
        spaces: &'a mut [Span],
    ) -> Self
        ensures tokens { (rows_of result.tokens ≡ tokens.old) × (count_of result.tokens ≡ 0) }
        ensures comments { (rows_of result.comments ≡ comments.old) × (count_of result.comments ≡ 0) }
        ensures spaces { (rows_of result.spaces ≡ spaces.old) × (count_of result.spaces ≡ 0) }
        ensures lenders { (result.tokens.rows.ghost_name ≡ tokens.entry.ghost_name) × (result.comments.rows.ghost_name ≡ comments.entry.ghost_name) × (result.spaces.rows.ghost_name ≡ spaces.entry.ghost_name) }
    {
        Tables {
            tokens: Table::new(tokens),
            comments: Table::new(comments),
            spaces: Table::new(spaces),
        }
    }

    // Asks whether there is a token, and then whether everything fits.
    pub(crate) fn fit(&self, gap: &GapMeasure, found: Option<Found>) -> Result<Found, Refusal>
        ensures { result ≡ fitting gap.now (room_of self.now.comments) (room_of self.now.spaces) (room_of self.now.tokens) found }
    {
        let found = found.ok_or(Refusal::NoToken(gap.end))?;
        if gap.comments > self.comments.room() {
            return Err(Refusal::CommentsFull);
        }
        if gap.spaces > self.spaces.room() {
            return Err(Refusal::SpacesFull);
        }
        if self.tokens.room() == 0 {
            return Err(Refusal::TokensFull);
        }
        Ok(found)
    }
}
