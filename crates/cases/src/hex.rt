// Bytes spelt as pairs of hexadecimal digits, with capital letters.
ghost use Rattle.std.specs.Prelude.{◌≡◌, ◌++◌, Some, None, OnOk, IsErrOf};
ghost use Rattle.std.specs.Option.{option_map};
ghost use Rattle.cases.specs.Hex.{hex_digit, hex_byte, hex_bytes, some_bytes};

use crate::error::CaseError;

pub fn hex_digit(b: u8) -> Option<u8>
    ensures { result ≡ hex_digit b }
{
    match b {
        b'0'..=b'9' => Some(b - b'0'),
        b'A'..=b'F' => Some(b - b'A' + 10),
        _ => None,
    }
}

pub fn hex_byte(high: u8, low: u8) -> Option<u8>
    ensures { result ≡ hex_byte high low }
{
    let h = hex_digit(high)?;
    let l = hex_digit(low)?;
    Some(h * 16 + l)
}

// Adds the bytes that the digits spell, two digits each.
pub fn push_pairs(text: &mut Vec<u8>, digits: &[u8]) -> Result<(), CaseError>
    ensures added { OnOk result (option_map (λ bs. text.old.items ++ bs) (hex_bytes digits.now) ≡ Some text.new.items) }
    ensures malformed { IsErrOf result CaseError.Malformed → hex_bytes digits.now ≡ None }
{
    let (pairs, odd) = digits.as_chunks::<2>();
    if !odd.is_empty() {
        return Err(CaseError::Malformed);
    }
    for [high, low] in pairs {
        let b = hex_byte(*high, *low).ok_or(CaseError::Malformed)?;
        text.push(b)?;
    }
    Ok(())
}

// The same for digits of which there must be some.
pub fn push_hex(text: &mut Vec<u8>, digits: &[u8]) -> Result<(), CaseError>
    ensures added { OnOk result (option_map (λ bs. text.old.items ++ bs) (some_bytes digits.now) ≡ Some text.new.items) }
    ensures malformed { IsErrOf result CaseError.Malformed → some_bytes digits.now ≡ None }
{
    if digits.is_empty() {
        return Err(CaseError::Malformed);
    }
    push_pairs(text, digits)
}
