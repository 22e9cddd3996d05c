#![tactic(auto)]
// A text and its places: whether bytes are one, where it may be cut, the character at a place, and the search for a byte.
pub mod search;
pub mod source;
pub mod unicode;
pub mod utf8;
