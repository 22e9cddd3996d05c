// Tests on the bytes of a comment's content: what begins it, and what stands in it.
ghost use Rattle.std.specs.Prelude.{◌≡◌};
ghost use Rattle.comments.specs.Classing.{license_ahead, licensed, stars, skip_blanks, marked, capital_after, directive};

// What stands past the leading blanks, which are the library's ASCII white space.
// By a pattern, since the walk of the library's method has more to do at each byte.
pub(crate) fn skip_blanks(bytes: &[u8]) -> &[u8]
    ensures { result.now ≡ skip_blanks bytes.now }
{
    let mut rest = bytes;
    while let [b' ' | b'\t' | b'\n' | 0x0C | b'\r', after @ ..] = rest {
        rest = after;
    }
    rest
}

// Whether the bytes begin with the word and then an ASCII capital.
pub(crate) fn has_capital_after(bytes: &[u8], word: &[u8]) -> bool
    ensures { result ≡ capital_after word.now bytes.now }
{
    let after = bytes.strip_prefix(word);
    after.is_some_and(|rest| rest.first().is_some_and(|b| b.is_ascii_uppercase()))
}

// Whether the bytes begin with the directive and then a blank, or end there.
// Beside the one above, since a function for both would ask for a closure about an optional byte and be no shorter.
pub(crate) fn starts_with_directive(bytes: &[u8], word: &[u8]) -> bool
    ensures { result ≡ directive word.now bytes.now }
{
    let after = bytes.strip_prefix(word);
    after.is_some_and(|rest| rest.first().is_none_or(|b| b.is_ascii_whitespace()))
}

// Whether the bytes begin with a mark and then the word.
pub(crate) fn is_marked(bytes: &[u8], word: &[u8]) -> bool
    ensures { result ≡ marked word.now bytes.now }
{
    match bytes {
        [b'@' | b'#', rest @ ..] => rest.starts_with(word),
        _ => false,
    }
}

// Whether each byte is a star.
pub(crate) fn is_all_stars(bytes: &[u8]) -> bool
    ensures { result ≡ stars bytes.now }
{
    bytes.iter().all(|b| *b == b'*')
}

// Whether a word that asks to keep the comment stands here.
pub(crate) fn starts_with_license(bytes: &[u8]) -> bool
    ensures { result ≡ license_ahead bytes.now }
{
    // Both words begin with a `@`, and hardly any comment does.
    bytes.first() == Some(&b'@')
        && (bytes.starts_with(b"@license") || bytes.starts_with(b"@preserve"))
}

// Whether such a word stands anywhere in the bytes.
// A call of its own: put into a caller, the loop has more to do at each byte.
#[inline(never)]
pub(crate) fn contains_license_or_preserve_comment(bytes: &[u8]) -> bool
    ensures { result ≡ licensed bytes.now }
{
    bytes
        .iter()
        .enumerate()
        .any(|(i, b)| *b == b'@' && starts_with_license(&bytes[i..]))
}
