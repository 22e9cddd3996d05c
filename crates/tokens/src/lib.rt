#![tactic(auto)]
// What a token reader is, the reader of JSON's tokens, and the reader of a recorded list.
pub mod json;
pub mod layout;
pub mod recorded;
pub mod token_reader;
