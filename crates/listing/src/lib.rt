#![tactic(auto)]
// The listing of a reading: its comments, irregular spaces and unterminated end, a line each, and a closing line.
pub mod lines;
pub mod list;
pub mod out;
pub mod rows;
