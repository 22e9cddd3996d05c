#![tactic(auto)]
// Case lines of the test programs: a name, and fields that spell the bytes of a text.
pub mod error;
pub mod hex;
pub mod line;
