#![tactic(auto)]
// Why a call is refused.
ghost use Rattle.std.specs.Prelude.{◌≡◌, Some};
ghost use Rattle.refusals.specs.Numbers.{number_of};
ghost use Rattle.refusals.specs.Words.{words_of};

use std::error::Error;
use std::fmt;

#[derive(Clone, Copy, Debug, PartialEq, Eq)]
pub enum Refusal {
    // The text is longer than the limit.
    TooLong,
    // The text is not UTF-8.
    NotUtf8,
    // The latest token is Eof.
    AfterEof,
    // No token stands after the gap, which ends at this place.
    NoToken(usize),
    CommentsFull,
    SpacesFull,
    TokensFull,
    // A comment that does not lie in the text, is too short for its kind, or whose content cannot be cut out there.
    BadComment,
    // The buffer is too short for the listing.
    ListingTooLong,
}

impl From<Refusal> for u8 {
    ghost from_gives = { λ refusal number. number ≡ number_of refusal };

    fn from(refusal: Refusal) -> u8 {
        match refusal {
            Refusal::TooLong => 1,
            Refusal::NotUtf8 => 2,
            Refusal::AfterEof => 3,
            Refusal::NoToken(_) => 4,
            Refusal::CommentsFull => 5,
            Refusal::SpacesFull => 6,
            Refusal::TokensFull => 7,
            Refusal::BadComment => 10,
            Refusal::ListingTooLong => 12,
        }
    }
}

impl fmt::Display for Refusal {
    ghost output = { λ refusal. Some (words_of refusal) };

    fn fmt<W: fmt::Write>(&self, f: &mut fmt::Formatter<W>) -> fmt::Result {
        match self {
            Refusal::TooLong => f.write_str("the text is longer than the limit"),
            Refusal::NotUtf8 => f.write_str("the text is not UTF-8"),
            Refusal::AfterEof => f.write_str("nothing follows the end of the text"),
            Refusal::NoToken(place) => write!(f, "no token stands at {place}"),
            Refusal::CommentsFull => f.write_str("the table of comments is full"),
            Refusal::SpacesFull => f.write_str("the table of irregular white space is full"),
            Refusal::TokensFull => f.write_str("the table of tokens is full"),
            Refusal::BadComment => f.write_str("the comment does not lie in the text"),
            Refusal::ListingTooLong => f.write_str("the buffer is too short for the listing"),
        }
    }
}

impl Error for Refusal {}
