// The tokens of JSON (RFC 8259): structural characters, literal names, strings and numbers.
ghost use Rattle.std.specs.Prelude.{◌≡◌, ◌<◌, ℕ, Bool, false, length, drop, OnSome};
ghost use Rattle.tokens.specs.Json.{run_end, structural, structural_at, int_start, int_end, frac_end, after_sign, exp_at, told_number, number_at, literal, literal_at, string_from, string_at, json_telling};
ghost use Rattle.tokens.specs.Rules.{byte_at, Tests};
ghost use Rattle.tokens.specs.Grammar.{Numbers, Tells};
ghost use Rattle.tokens.specs.Fairness.{fair_json};

use crate::token_reader::{TokenReader, Told};
use kinds::kind::Kind;

// Most below take the bytes with a place, as the definitions do and a token reader is asked.

// The byte at a place, or 0 past the end, which begins no token.
fn byte_at(bytes: &[u8], place: usize) -> u8
    ensures value { result ≡ byte_at bytes.now place }
    ensures inside { 0 < result → place < length bytes.now }
{
    bytes.get(place).copied().unwrap_or(0)
}

// The bytes from a place on, as far as there are any.
fn rest(bytes: &[u8], from: usize) -> &[u8]
    ensures { result.now ≡ drop from bytes.now }
{
    bytes.get(from..).unwrap_or(&[])
}

// Where a run of bytes ends that pass a test and go on from the place.
fn end_of_run<F: Fn(&u8) -> bool>(bytes: &[u8], from: usize, passes: F) -> usize
    requires { (test : F) (byte : _) → F.pre test byte }
    ensures { (class : ℕ → Bool) → Tests F.Fn passes class → result ≡ run_end class bytes.now from }
{
    let run = rest(bytes, from).iter().copied().take_while(passes);
    from + run.count()
}

// The kind of a structural character.
fn structural_kind(b: u8) -> Option<Kind>
    ensures value { result ≡ structural b }
    ensures nonzero { OnSome result (0 < b) }
{
    match b {
        b'[' => Some(Kind::LBrack),
        b'{' => Some(Kind::LCurly),
        b']' => Some(Kind::RBrack),
        b'}' => Some(Kind::RCurly),
        b':' => Some(Kind::Colon),
        b',' => Some(Kind::Comma),
        _ => None,
    }
}

fn structural_at(bytes: &[u8], place: usize) -> Option<Told>
    ensures { result ≡ structural_at bytes.now place }
{
    structural_kind(byte_at(bytes, place)).map(|kind| Told {
        kind,
        end: place + 1,
    })
}

// Where the int of a number is to begin: after a minus, if one stands at the place.
fn int_start(bytes: &[u8], place: usize) -> usize
    ensures { result ≡ int_start bytes.now place }
{
    if byte_at(bytes, place) == b'-' {
        place + 1
    } else {
        place
    }
}

// Where an int ends that stands at the place, or the place.
fn int_end(bytes: &[u8], place: usize) -> usize
    ensures { result ≡ int_end bytes.now place }
{
    match byte_at(bytes, place) {
        b'0' => place + 1,
        b'1'..=b'9' => end_of_run(bytes, place + 1, u8::is_ascii_digit),
        _ => place,
    }
}

// Where a fraction ends that stands at the place, or the place.
fn frac_end(bytes: &[u8], place: usize) -> usize
    ensures { result ≡ frac_end bytes.now place }
{
    if byte_at(bytes, place) == b'.' && byte_at(bytes, place + 1).is_ascii_digit() {
        end_of_run(bytes, place + 1, u8::is_ascii_digit)
    } else {
        place
    }
}

fn after_sign(bytes: &[u8], place: usize) -> usize
    ensures { result ≡ after_sign bytes.now place }
{
    match byte_at(bytes, place) {
        b'-' | b'+' => place + 1,
        _ => place,
    }
}

// What is told of a number whose exponent stands at the place, if one does.
fn exp_at(bytes: &[u8], place: usize) -> Option<Told>
    ensures { result ≡ exp_at bytes.now place }
{
    if !matches!(byte_at(bytes, place), b'e' | b'E') {
        return None;
    }
    let digits = after_sign(bytes, place + 1);
    if !byte_at(bytes, digits).is_ascii_digit() {
        return None;
    }
    let kind = match byte_at(bytes, place + 1) {
        b'-' => Kind::NegativeExponential,
        _ => Kind::PositiveExponential,
    };
    Some(Told {
        kind,
        end: end_of_run(bytes, digits, u8::is_ascii_digit),
    })
}

// What is told of a number whose int and fraction end at these places.
fn told_number(int: usize, frac: usize, exp: Option<Told>) -> Told
    ensures { result ≡ told_number int frac exp }
{
    let kind = if frac == int {
        Kind::Decimal
    } else {
        Kind::Float
    };
    exp.unwrap_or(Told { kind, end: frac })
}

fn number_at(bytes: &[u8], place: usize) -> Option<Told>
    ensures { result ≡ number_at bytes.now place }
{
    let start = int_start(bytes, place);
    let int = int_end(bytes, start);
    if int == start {
        return None;
    }
    let frac = frac_end(bytes, int);
    Some(told_number(int, frac, exp_at(bytes, frac)))
}

// Where a string ends whose opening quote stands right before the place.
fn string_end(bytes: &[u8], from: usize) -> Option<usize>
    ensures { result ≡ string_from false from (drop from bytes.now) }
{
    let mut escaped = false;
    // By place: an iterator with `enumerate` takes half as long again over a long string.
    for place in from..bytes.len() {
        match bytes[place] {
            _ if escaped => escaped = false,
            b'"' => return Some(place + 1),
            0..=31 => return None,
            b => escaped = b == b'\\',
        }
    }
    None
}

fn string_at(bytes: &[u8], place: usize) -> Option<Told>
    ensures { result ≡ string_at bytes.now place }
{
    if byte_at(bytes, place) != b'"' {
        return None;
    }
    string_end(bytes, place + 1).map(|end| Told {
        kind: Kind::Str,
        end,
    })
}

// The kind of a literal name.
fn literal_kind(word: &[u8]) -> Option<Kind>
    ensures { result ≡ literal word.now }
{
    match word {
        b"true" => Some(Kind::True),
        b"false" => Some(Kind::False),
        b"null" => Some(Kind::Null),
        _ => None,
    }
}

fn literal_at(bytes: &[u8], place: usize) -> Option<Told>
    ensures { result ≡ literal_at bytes.now place }
{
    let end = end_of_run(bytes, place, u8::is_ascii_alphabetic);
    let word = bytes.get(place..end).unwrap_or(&[]);
    literal_kind(word).map(|kind| Told { kind, end })
}

fn token_at(bytes: &[u8], place: usize) -> Option<Told>
    ensures { result ≡ json_telling bytes.now place }
{
    structural_at(bytes, place)
        .or_else(|| literal_at(bytes, place))
        .or_else(|| string_at(bytes, place))
        .or_else(|| number_at(bytes, place))
}

#[derive(Clone, Copy, Debug, PartialEq, Eq, Default)]
pub struct Json;

impl TokenReader for Json {
    const HASHBANG: bool = false;

    ghost banged = { false };

    ghost telling = { λ _. json_telling };

    ghost fair = { λ x text u place. fair_json text u place };

    fn begins_banged() -> bool
        ensures { result ≡ false }
    {
        Self::HASHBANG
    }

    // Besides, what is told is a token of RFC 8259's grammar, and each such token that stands at the place is what is told.
    fn tell(&self, text: &str, place: usize) -> Option<Told>
        ensures value { result ≡ json_telling text.now place }
        ensures numbers { Numbers text.now place result }
        ensures grammar { Tells text.now place result }
    {
        token_at(text.as_bytes(), place)
    }
}
