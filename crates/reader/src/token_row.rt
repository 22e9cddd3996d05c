// The row of a token: the token, the ranges of remarks before it, and whether it is an unterminated Eof.
ghost use Rattle.std.specs.Prelude.{◌≡◌};
ghost use Rattle.reader.specs.View.{row_of};

use builder::state::TriviaBuilder;
use kinds::token::Token;
use table::Row;

// A token as it is found after its gap.
#[derive(Clone, Copy, Debug, Default, PartialEq, Eq)]
pub struct Found {
    pub token: Token,
    pub unterminated: bool,
}

#[derive(Clone, Copy, Debug, Default, PartialEq, Eq)]
pub struct TokenRow {
    pub token: Token,
    pub pure_comments: Option<(usize, usize)>,
    pub no_side_effects_comments: Option<(usize, usize)>,
    pub unterminated: bool,
}

impl Row for TokenRow {
    ghost from = { λ r. r.token.start };

    fn start(&self) -> usize {
        self.token.start as usize
    }
}

impl TokenRow {
    // The row of a token, with the ranges that the builder holds.
    pub(crate) fn new(found: Found, builder: &TriviaBuilder) -> Self
        ensures { result ≡ row_of found builder.now }
    {
        TokenRow {
            token: found.token,
            pure_comments: builder.previous_token_pure_comments(),
            no_side_effects_comments: builder.previous_token_no_side_effects_comments(),
            unterminated: found.unterminated,
        }
    }
}
