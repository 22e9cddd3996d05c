#![tactic(auto)]
// Reads a text token by token into the tables of a caller.
ghost use Rattle.std.specs.Prelude.{◌≡◌, Some};
ghost use Rattle.refusals.specs.Words.{words_of};
ghost use Rattle.reader.specs.Reading.{refusal_of};

use builder::state::TriviaBuilder;
use refusals::Refusal;
use source::source::Source;
use std::error::Error;
use std::fmt;

pub mod calls;
pub mod examples;
pub mod feed;
pub mod tables;
pub mod token_after;
pub mod token_row;
pub mod worked;

// Why a text is not opened.
#[derive(Clone, Copy, Debug, PartialEq, Eq)]
pub enum OpenError {
    TooLong,
    NotUtf8,
}

impl From<OpenError> for Refusal {
    ghost from_gives = { λ why refusal. refusal ≡ refusal_of why };

    fn from(why: OpenError) -> Refusal {
        match why {
            OpenError::TooLong => Refusal::TooLong,
            OpenError::NotUtf8 => Refusal::NotUtf8,
        }
    }
}

impl fmt::Display for OpenError {
    ghost output = { λ why. Some (words_of (refusal_of why)) };

    fn fmt<W: fmt::Write>(&self, f: &mut fmt::Formatter<W>) -> fmt::Result {
        Refusal::from(*self).fmt(f)
    }
}

impl Error for OpenError {}

#[derive(Drop)]
pub struct Reader<'t> {
    // Whether the text was opened. Where it was not, the source is the empty text, so that each call has a source.
    opening: Result<(), OpenError>,
    source: Source<'t>,
    builder: TriviaBuilder,
    // The latest token is Eof.
    ended: bool,
}
