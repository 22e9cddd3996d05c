// Comment rows changed in place.
ghost use Rattle.std.specs.Prelude.{◌≡◌, ◌≤◌, length};
ghost use Rattle.table.specs.View.{rows_of, count_of, kept_of};
ghost use Rattle.builder.specs.Rows.{may_go_back, attached_row, over, last_followed, last_stays};

use comments::comment::{Comment, CommentPosition};
use table::Table;

// How waiting rows are attached: a value and no closure, since the promises say of each case what becomes of a row.
#[derive(Clone, Copy, Debug, PartialEq, Eq)]
pub enum Attachment {
    // All to the end of the token before.
    ToPrevious(u32),
    // To the end of the token before if they may, else to the start of the new token.
    ToEither(u32, u32),
    // All to the start of the new token.
    ToNext(u32),
}

fn may_go_back(row: &Comment) -> bool
    ensures { result ≡ may_go_back row.now }
{
    !row.preceded_by_newline && !row.content.should_stay_leading()
}

impl Attachment {
    // A row attached in this way.
    fn attach(self, row: Comment) -> Comment
        ensures { result ≡ attached_row self row }
    {
        let (position, attached_to) = match self {
            Attachment::ToPrevious(end) => (CommentPosition::Trailing, end),
            Attachment::ToEither(end, _) if may_go_back(&row) => (CommentPosition::Trailing, end),
            Attachment::ToEither(_, start) | Attachment::ToNext(start) => {
                (CommentPosition::Leading, start)
            }
        };
        Comment {
            position,
            attached_to,
            ..row
        }
    }
}

// Attaches the rows from one index to another, of which the first may be the larger: then there are none.
pub(crate) fn attach_pending_comments(rows: &mut [Comment], from: usize, to: usize, how: Attachment)
    requires { to ≤ length rows.old }
    ensures { rows.new ≡ over (attached_row how) from to rows.old }
{
    let from = from.min(to);
    for row in &mut rows[from..to] {
        *row = how.attach(*row);
    }
}

// Sets newline-after in the last row on record.
pub(crate) fn set_followed_by_newline(comments: &mut Table<'_, Comment>)
    ensures rows { rows_of comments.new ≡ last_followed (rows_of comments.old) (length (kept_of comments.old)) }
    ensures count { count_of comments.new ≡ count_of comments.old }
    ensures lender { comments.new.rows.ghost_name ≡ comments.old.rows.ghost_name }
{
    if let Some(last) = comments.len().checked_sub(1) {
        comments.rows[last].followed_by_newline = true;
    }
}

// Whether the class of the last row keeps it with the next token; where there is none, nothing leaves.
pub(crate) fn last_stays_leading(kept: &[Comment]) -> bool
    ensures { result ≡ last_stays kept.now }
{
    kept.last()
        .is_none_or(|last| last.content.should_stay_leading())
}
