#![tactic(auto)]
// What stands between tokens: the ends of comments and of white space, and the pieces of a gap.
pub mod comment;
pub mod gap;
pub mod piece;
pub mod whitespace;
