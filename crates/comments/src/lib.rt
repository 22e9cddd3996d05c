#![tactic(auto)]
// Comments: the row that stands for one, and the class that its content gives it.
pub mod annotation;
pub mod comment;
mod words;
