#![tactic(auto)]
// Which comment goes with which token: the builder that is fed comments, line breaks and tokens.
pub mod content;
pub mod event;
pub mod examples;
pub mod rows;
pub mod span;
pub mod state;
pub mod trivia_builder;
