// What a token reader is: one question of a text and a place, and what every answer keeps to.
ghost use Rattle.std.specs.Prelude.{◌≡◌, ℕ, Bool, List, IsUtf8};
ghost use Rattle.tokens.specs.Telling.{Telling, FairAt};

use kinds::kind::Kind;

// A token that stands at a place: its kind, and the place right after it.
#[derive(Clone, Copy, Debug, PartialEq, Eq)]
pub struct Told {
    pub kind: Kind,
    pub end: usize,
}

pub trait TokenReader {
    // Whether `#!` at the start of a text opens a hashbang line, which is a token.
    const HASHBANG: bool;

    // The same for clauses, which cannot name an associated constant.
    ghost banged: { Bool };

    ghost telling: { Self → Telling };

    // The same for calls: a clause ties this answer to `banged`, and none can tie the constant.
    fn begins_banged() -> bool
        ensures { result ≡ banged };

    // The token that stands at the place, if one does.
    fn tell(&self, text: &str, place: usize) -> Option<Told>
        ensures { result ≡ telling self.now text.now place };

    ghost fair: { (x : Self) (text : List ℕ) → IsUtf8 text → (place : ℕ) → FairAt text place (telling x text place) };
}
