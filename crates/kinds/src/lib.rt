#![tactic(auto)]
// Token kinds, what is asked about a kind, and tokens.
pub mod kind;
pub mod token;
