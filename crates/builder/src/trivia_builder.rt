// The builder's calls.
ghost use Rattle.std.specs.Prelude.{◌≡◌, ◌+◌, ◌^◌, ◌<◌, ◌≤◌, length, IfSome, Some, None, Option, slice_set};
ghost use Rattle.refusals.specs.declared.Refusal.TheVariants.{SpacesFull};
ghost use Rattle.table.specs.Order.{rows_with, count_with};
ghost use Rattle.table.specs.View.{rows_of, count_of, kept_of};
ghost use Rattle.builder.specs.Events.{effect_of};
ghost use Rattle.builder.specs.Building.{extended, goes_back, token_attachment, with_flags, attached, ended, ends_line, new_row, ranged, taken, SpanAt, Again, Commented, answer_of, outcome_of, Handed, space_outcome, state_of, newline_to, token_to, opened, with_ranges, block_of};

use crate::content::content_of;
use crate::event::{Attach, Effect, Event, match_event};
use crate::rows::{
    Attachment, attach_pending_comments, last_stays_leading, set_followed_by_newline,
};
use crate::span::Span;
use crate::state::TriviaBuilder;
use comments::annotation::parse_annotation;
use comments::comment::{Comment, CommentContent, CommentKind, CommentPosition};
use kinds::kind::Kind;
use kinds::token::Token;
use refusals::Refusal;
use table::{Appended, Full, Row, Table};

// A range with one row more: the first row of it stays, and this row is its last. That a row's number is not the largest of all is asked
// here and answered by `Table::find`, for no type says it.
fn extend(range: Option<(usize, usize)>, row: usize) -> Option<(usize, usize)>
    requires { row < usize.MAX }
    ensures { result ≡ extended range row }
{
    let first = range.map_or(row, |range| range.0);
    Some((first, row + 1))
}

// Where waiting rows go when a token comes.
fn token_attachment(previous: &Token, token: &Token) -> Attachment
    ensures { result ≡ token_attachment previous.now token.now }
{
    if goes_back(previous.kind, token.kind) {
        Attachment::ToEither(previous.end, token.start)
    } else {
        Attachment::ToNext(token.start)
    }
}

fn goes_back(previous: Kind, next: Kind) -> bool
    ensures { result ≡ goes_back previous next }
{
    if previous == Kind::Undetermined {
        return false;
    }
    if next == Kind::Eof {
        return true;
    }
    previous.can_end_expression() && next.continues_previous_expression()
}

// Whether a comment ends the line of the token before.
fn ends_line(attach: Attach, previous: Kind) -> bool
    ensures { result ≡ ends_line attach previous }
{
    matches!(attach, Attach::EndLine) && !previous.keeps_line_comment_leading()
}

// The row on record that has just the span of this one.
fn same_span(comments: &Table<'_, Comment>, row: &Comment) -> Option<usize>
    ensures span { SpanAt (kept_of comments.now) row.now result }
    ensures fits { IfSome result (λ i. i + 1 < 2 ^ 64) }
{
    let index = comments.find(row.start())?;
    (comments.kept()[index].end == row.end).then_some(index)
}

impl TriviaBuilder {
    // What an event does. The flags are set; what becomes of the rows is left.
    fn meet(&mut self, pending: bool, event: Event) -> Effect
        ensures effect { result ≡ effect_of self.old.saw_newline self.old.saw_newline_for_comment pending event }
        ensures flags { self.new ≡ with_flags result self.old }
    {
        let effect = match_event(
            self.saw_newline,
            self.saw_newline_for_comment,
            pending,
            event,
        );
        self.saw_newline = effect.saw_newline;
        self.saw_newline_for_comment = effect.saw_newline_for_comment;
        effect
    }

    // Attaches all waiting rows.
    fn attach_waiting(&mut self, comments: &mut Table<'_, Comment>, how: Attachment)
        ensures state { state_of self.new comments.new ≡ attached how (state_of self.old comments.old) }
        ensures lender { comments.new.rows.ghost_name ≡ comments.old.rows.ghost_name }
    {
        let count = comments.len();
        attach_pending_comments(comments.rows, self.processed, count, how);
        self.processed = count;
    }

    // All waiting rows go to the token before, unless the last of them stays leading.
    fn end_line(&mut self, comments: &mut Table<'_, Comment>)
        ensures state { state_of self.new comments.new ≡ ended (state_of self.old comments.old) }
        ensures lender { comments.new.rows.ghost_name ≡ comments.old.rows.ghost_name }
    {
        if !last_stays_leading(comments.kept()) {
            self.attach_waiting(comments, Attachment::ToPrevious(self.previous_token.end));
        }
    }

    // The row of a new comment, before it is attached.
    fn new_row(&self, start: u32, end: u32, kind: CommentKind, content: CommentContent) -> Comment
        ensures { result ≡ new_row self.now start end kind content }
    {
        Comment {
            start,
            end,
            kind,
            content,
            position: CommentPosition::Leading,
            attached_to: 0,
            preceded_by_newline: self.saw_newline_for_comment,
            followed_by_newline: kind.is_line(),
        }
    }

    // The row of a remark that is not applied yet extends its range.
    fn set_annotation_flags(&mut self, content: CommentContent, index: usize)
        requires { index < usize.MAX }
        ensures { self.new ≡ ranged self.old content index }
    {
        match content {
            CommentContent::PureNotApplied => {
                self.pure_comments = extend(self.pure_comments, index);
            }
            CommentContent::NoSideEffectsNotApplied => {
                self.no_side_effects_comments = extend(self.no_side_effects_comments, index);
            }
            _ => {}
        }
    }

    // What a new comment does, whose row is the last on record and stands at the index.
    fn take_in(&mut self, comments: &mut Table<'_, Comment>, index: usize, row: Comment)
        requires { index < length (rows_of comments.old) }
        ensures state { state_of self.new comments.new ≡ taken (state_of self.old comments.old) index row }
        ensures lender { comments.new.rows.ghost_name ≡ comments.old.rows.ghost_name }
    {
        let effect = self.meet(self.processed < index, Event::from(row.kind));
        if ends_line(effect.attach, self.previous_token.kind) {
            self.end_line(comments);
        }
        self.set_annotation_flags(row.content, index);
    }

    // A comment that is on record already.
    fn repeat(&mut self, comments: &Table<'_, Comment>, row: Comment)
        ensures { Again (kept_of comments.now) row self.old self.new }
    {
        if let Some(index) = same_span(comments, &row) {
            self.set_annotation_flags(row.content, index);
        }
    }

    // Puts a comment's row on record.
    fn insert(&mut self, comments: &mut Table<'_, Comment>, row: Comment) -> Result<Appended, Full>
        ensures answer { result ≡ outcome_of (state_of self.old comments.old) row }
        ensures state { Commented result (state_of self.old comments.old) row (state_of self.new comments.new) }
        ensures lender { comments.new.rows.ghost_name ≡ comments.old.rows.ghost_name }
    {
        let index = comments.count;
        let appended = comments.append(row)?;
        match appended {
            Appended::Added => self.take_in(comments, index, row),
            Appended::Dropped => self.repeat(comments, row),
        }
        Ok(appended)
    }

    // The builder of an opened text.
    pub fn new() -> Self
        ensures { result ≡ opened }
    {
        TriviaBuilder {
            processed: 0,
            saw_newline: true,
            saw_newline_for_comment: true,
            previous_token: Token {
                kind: Kind::Undetermined,
                start: 0,
                end: 0,
                is_on_new_line: false,
            },
            pure_comments: None,
            no_side_effects_comments: None,
        }
    }

    // Each of the two ranges has its own calls, with the names that they have in oxc.
    pub fn previous_token_pure_comments(&self) -> Option<(usize, usize)>
        ensures { result ≡ self.now.pure_comments }
    {
        self.pure_comments
    }

    pub fn previous_token_no_side_effects_comments(&self) -> Option<(usize, usize)>
        ensures { result ≡ self.now.no_side_effects_comments }
    {
        self.no_side_effects_comments
    }

    pub fn clear_pure_comments(&mut self)
        ensures { self.new ≡ with_ranges self.old None self.old.no_side_effects_comments }
    {
        self.pure_comments = None;
    }

    pub fn clear_no_side_effects_comments(&mut self)
        ensures { self.new ≡ with_ranges self.old self.old.pure_comments None }
    {
        self.no_side_effects_comments = None;
    }

    // A line break that no line comment swallowed.
    pub fn handle_newline(&mut self, comments: &mut Table<'_, Comment>)
        ensures state { state_of self.new comments.new ≡ newline_to (state_of self.old comments.old) }
        ensures lender { comments.new.rows.ghost_name ≡ comments.old.rows.ghost_name }
    {
        let effect = self.meet(self.processed < comments.len(), Event::Newline);
        match effect.attach {
            Attach::Wait | Attach::ToToken => {}
            Attach::MarkLast => set_followed_by_newline(comments),
            Attach::EndLine => {
                set_followed_by_newline(comments);
                self.end_line(comments);
            }
        }
    }

    pub fn handle_token(&mut self, comments: &mut Table<'_, Comment>, token: Token)
        ensures state { state_of self.new comments.new ≡ token_to (state_of self.old comments.old) token }
        ensures lender { comments.new.rows.ghost_name ≡ comments.old.rows.ghost_name }
    {
        let effect = self.meet(self.processed < comments.len(), Event::Token);
        if matches!(effect.attach, Attach::ToToken) {
            let how = token_attachment(&self.previous_token, &token);
            self.attach_waiting(comments, how);
        }
        self.previous_token = token;
    }

    // A comment of the text. One that starts no later than the last row is on record already or not wanted.
    fn add_comment(
        &mut self,
        comments: &mut Table<'_, Comment>,
        text: &str,
        start: u32,
        end: u32,
        kind: CommentKind,
    ) -> Result<(), Refusal>
        ensures handed { Handed text.now (state_of self.old comments.old) start end kind result (state_of self.new comments.new) }
        ensures lender { comments.new.rows.ghost_name ≡ comments.old.rows.ghost_name }
    {
        let (from, to) = (start as usize, end as usize);
        let content = content_of(text, from, to, kind).ok_or(Refusal::BadComment)?;
        let row = self.new_row(start, end, kind, parse_annotation(kind, content));
        self.insert(comments, row)
            .map_err(|_| Refusal::CommentsFull)?;
        Ok(())
    }

    // A text with a start and an end, as oxc's calls have them.
    pub fn add_line_comment(
        &mut self,
        comments: &mut Table<'_, Comment>,
        text: &str,
        start: u32,
        end: u32,
    ) -> Result<(), Refusal>
        ensures handed { Handed text.now (state_of self.old comments.old) start end CommentKind.Line result (state_of self.new comments.new) }
        ensures lender { comments.new.rows.ghost_name ≡ comments.old.rows.ghost_name }
    {
        self.add_comment(comments, text, start, end, CommentKind::Line)
    }

    // A block comment, with whether a line terminator stands in it.
    pub fn add_block_comment(
        &mut self,
        comments: &mut Table<'_, Comment>,
        text: &str,
        start: u32,
        end: u32,
        multi: bool,
    ) -> Result<(), Refusal>
        ensures handed { Handed text.now (state_of self.old comments.old) start end (block_of multi) result (state_of self.new comments.new) }
        ensures lender { comments.new.rows.ghost_name ≡ comments.old.rows.ghost_name }
    {
        let kind = if multi {
            CommentKind::MultiLineBlock
        } else {
            CommentKind::SingleLineBlock
        };
        self.add_comment(comments, text, start, end, kind)
    }

    // An irregular space of the text, unless it is on record.
    pub fn add_irregular_whitespace(
        &self,
        spaces: &mut Table<'_, Span>,
        start: u32,
        end: u32,
    ) -> Result<(), Refusal>
        ensures answer { result ≡ answer_of SpacesFull (space_outcome (rows_of spaces.old) (count_of spaces.old) (record { start = start; end = end })) }
        ensures rows { rows_of spaces.new ≡ rows_with (space_outcome (rows_of spaces.old) (count_of spaces.old) (record { start = start; end = end })) (rows_of spaces.old) (count_of spaces.old) (record { start = start; end = end }) }
        ensures count { count_of spaces.new ≡ count_with (space_outcome (rows_of spaces.old) (count_of spaces.old) (record { start = start; end = end })) (count_of spaces.old) }
        ensures lender { spaces.new.rows.ghost_name ≡ spaces.old.rows.ghost_name }
    {
        spaces
            .append(Span { start, end })
            .map_err(|_| Refusal::SpacesFull)?;
        Ok(())
    }
}
