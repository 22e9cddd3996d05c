// What the builder holds besides the rows.
use kinds::token::Token;

#[derive(Clone, Copy)]
pub struct TriviaBuilder {
    // How many rows are attached.
    pub(crate) processed: usize,
    // A line break since the token before.
    pub(crate) saw_newline: bool,
    // A line break since the token or comment before.
    pub(crate) saw_newline_for_comment: bool,
    pub(crate) previous_token: Token,
    // The rows with a remark that a call is pure: the first, and the one after the last.
    pub(crate) pure_comments: Option<(usize, usize)>,
    // The same for remarks that a function has no side effects.
    pub(crate) no_side_effects_comments: Option<(usize, usize)>,
}
