// A token: its kind, where it starts and ends, and whether a line terminator stands before it.
use crate::kind::Kind;

#[derive(Clone, Copy, Debug, PartialEq, Eq, Default)]
pub struct Token {
    pub kind: Kind,
    pub start: u32,
    pub end: u32,
    pub is_on_new_line: bool,
}
