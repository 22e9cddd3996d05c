// Bytes as a text: whether they are UTF-8 by the syntax of RFC 3629.
ghost use Rattle.std.specs.Prelude.{◌≡◌, MatchOption};
ghost use Rattle.source.specs.Rfc3629.{Utf8Octets};

use std::str::from_utf8;

// The text that has these bytes, or none if they are not UTF-8.
pub fn utf8_text(bytes: &[u8]) -> Option<&str>
    ensures { MatchOption result (Utf8Octets bytes.now → ⊥) (λ t. Utf8Octets bytes.now × (t.now ≡ bytes.now)) }
{
    from_utf8(bytes).ok()
}
