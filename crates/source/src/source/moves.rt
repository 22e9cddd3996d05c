// What a source answers of its place, and how the place moves.
ghost use Rattle.std.specs.Prelude.{◌≡◌, ◌<◌, ◌≤◌, [], length, IsUtf8, Decides, MatchBool, ◌==◌};
ghost use Rattle.std.specs.Str.{IsCharBoundary};
ghost use Rattle.source.specs.Characters.{BetweenCharacters};
ghost use Rattle.source.specs.Unicode.{char_at, Spelt};
ghost use Rattle.source.specs.View.{text_of, place_of};

use crate::source::{MAX_LEN, Source};
use crate::unicode::char_at;

impl<'a> Source<'a> {
    // The text at its start; one that is too long is replaced by the empty text.
    pub fn new(text: &'a str) -> Self
        ensures fits { length text.now ≤ 4294967039 → result.text ≡ text.entry }
        ensures long { 4294967039 < length text.now → text_of result ≡ [] }
        ensures place { place_of result ≡ 0 }
    {
        if text.len() > MAX_LEN {
            return Source { text: "", place: 0 };
        }
        Source { text, place: 0 }
    }

    pub fn whole(&self) -> &'a str
        ensures { result ≡ self.now.text }
    {
        self.text
    }

    pub fn offset_usize(&self) -> usize
        ensures value { result ≡ place_of self.now }
        ensures cut { IsCharBoundary (text_of self.now) result }
        ensures short { length (text_of self.now) ≤ 4294967039 }
        ensures utf8 { IsUtf8 (text_of self.now) }
    {
        self.place
    }

    pub fn offset(&self) -> u32
        ensures { result ≡ place_of self.now }
    {
        self.place as u32
    }

    pub fn is_eof(&self) -> bool
        ensures { result ≡ (place_of self.now == length (text_of self.now)) }
    {
        self.place == self.text.len()
    }

    // The character at the place.
    pub fn peek_char(&self) -> Option<char>
        ensures value { result ≡ char_at (text_of self.now) (place_of self.now) }
        ensures spelt { Spelt (text_of self.now) (place_of self.now) result }
        ensures utf8 { IsUtf8 (text_of self.now) }
    {
        char_at(self.text, self.place)
    }

    // Whether a place lies between characters: one begins there, or the text ends there.
    pub fn is_boundary(&self, place: usize) -> bool
        ensures value { Decides result (IsCharBoundary (text_of self.now) place) }
        ensures between { Decides result (BetweenCharacters (text_of self.now) place) }
    {
        self.text.is_char_boundary(place)
    }

    // Moves to another place, if that lies between characters. A `bool` as of `HashSet::insert`: there is no error to pass on.
    pub fn set_position(&mut self, place: usize) -> bool
        ensures text { self.new.text ≡ self.old.text }
        ensures place { MatchBool result (IsCharBoundary (text_of self.old) place × (place_of self.new ≡ place)) ((IsCharBoundary (text_of self.old) place → ⊥) × (place_of self.new ≡ place_of self.old)) }
    {
        if self.is_boundary(place) {
            self.place = place;
            true
        } else {
            false
        }
    }
}
