// The lines of a case file.
ghost use Rattle.std.specs.Prelude.{◌≡◌, ℕ, ◌<◌, ◌≤◌, List, ◌++◌, length, take, drop, IfOk, OnOk, IsErrOf, Some, None, Option, MatchOption, nat_lt, slice_index};
ghost use Rattle.std.specs.Fn.{FnOnceReturnsAt};
ghost use Rattle.std.specs.List.{repeat};
ghost use Rattle.std.specs.Option.{option_map};
ghost use Rattle.cases.specs.Fields.{skipped, word_of, rest_of, times, loose_times, counted, Gives, field_bytes, loose_bytes, fields_of, gathered, text_of};

use crate::error::CaseError;
use crate::hex::{push_hex, push_pairs};
use std::alloc::{AllocError, Global};

// The most times that a field may be repeated.
const REPEATS: usize = 40_000;

// Whether a line is blank or a remark.
pub fn is_skipped(line: &str) -> bool
    ensures { result ≡ skipped line.now }
{
    matches!(line.as_bytes(), [] | [b'#', ..])
}

// What stands before the first space, and after it.
pub fn split_word(line: &str) -> (&str, &str)
    ensures word { result.0.now ≡ word_of 32 line.now }
    ensures rest { result.1.now ≡ rest_of 32 line.now }
{
    line.split_once(' ').unwrap_or((line, ""))
}

// Whether the first byte is above `0`, so it is neither a zero nor a sign.
fn begins_above_zero(count: &[u8]) -> bool
    ensures { result ≡ nat_lt 48 (slice_index count.now 0) }
{
    count.first().is_some_and(|b| *b > b'0')
}

// A count up to the limit, before which a plus sign and zeros may stand.
fn loose_repeats(count: &str) -> Option<usize>
    ensures { result ≡ loose_times count.now }
{
    count.parse::<usize>().ok().filter(|n| *n <= REPEATS)
}

// How often a field stands that is repeated.
fn repeats(count: &str) -> Option<usize>
    ensures { result ≡ times count.now }
{
    if begins_above_zero(count.as_bytes()) {
        loose_repeats(count)
    } else {
        None
    }
}

// The digits of a field, and how often they stand by the rule for counts; none where that takes no such count.
fn digits_of<F: FnOnce(&str) -> Option<usize>>(field: &str, count_of: F) -> Option<(&str, usize)>
    requires { F.IsAlwaysCallable count_of }
    ensures { (t : List ℕ → Option ℕ) → Gives (FnOnceReturnsAt F.FnOnce count_of) t → MatchOption result (counted t field.now ≡ None) (λ p. (p.0.now ≡ word_of 42 field.now) × (counted t field.now ≡ Some p.1)) }
{
    match field.split_once('*') {
        None => Some((field, 1)),
        Some((digits, count)) => Some((digits, count_of(count)?)),
    }
}

// The bytes of a field.
pub fn field_of(heap: Global, field: &str) -> Result<Vec<u8>, CaseError>
    ensures bytes { IfOk result (λ v. field_bytes field.now ≡ Some v.items) }
    ensures malformed { IsErrOf result CaseError.Malformed → field_bytes field.now ≡ None }
{
    let (digits, n) = digits_of(field, repeats).ok_or(CaseError::Malformed)?;
    let mut once = Vec::new(heap);
    push_hex(&mut once, digits.as_bytes())?;
    let mut bytes = Vec::new(heap);
    push_copies(&mut bytes, once.as_slice(), n)?;
    Ok(bytes)
}

// Adds these bytes `n` times: each copy at once, where `repeat` of the library goes element by element.
fn push_copies(bytes: &mut Vec<u8>, once: &[u8], n: usize) -> Result<(), AllocError>
    ensures { OnOk result (bytes.new.items ≡ bytes.old.items ++ repeat n once.now) }
{
    for _i in 0..n {
        bytes.extend_from_slice(once)?;
    }
    Ok(())
}

// Repeats what stands from `from` on, so that it stands `n` times.
fn push_times(text: &mut Vec<u8>, from: usize, n: usize) -> Result<(), AllocError>
    requires once { 0 < n }
    requires within { from ≤ length text.old.items }
    ensures { OnOk result (text.new.items ≡ take from text.old.items ++ repeat n (drop from text.old.items)) }
{
    let to = text.len();
    for _i in 1..n {
        text.extend_from_within(from..to)?;
    }
    Ok(())
}

// How a field of a case is read.
pub trait FieldRule {
    // The bytes that a field spells, if it is well-formed.
    ghost spelt: { List ℕ → Option (List ℕ) };

    fn bytes_of(heap: Global, field: &str) -> Result<Vec<u8>, CaseError>
        ensures bytes { IfOk result (λ v. spelt field.now ≡ Some v.items) }
        ensures malformed { IsErrOf result CaseError.Malformed → spelt field.now ≡ None };

    // Adds the bytes that a field spells to the end of a text.
    fn push_bytes(text: &mut Vec<u8>, field: &str) -> Result<(), CaseError>
        ensures added { OnOk result (option_map (λ bs. text.old.items ++ bs) (spelt field.now) ≡ Some text.new.items) }
        ensures malformed { IsErrOf result CaseError.Malformed → spelt field.now ≡ None };
}

// The rule of `scan_cases`: some digits, and a count that is above 0 and written plainly.
pub struct Strict;

impl FieldRule for Strict {
    ghost spelt = { field_bytes };

    fn bytes_of(heap: Global, field: &str) -> Result<Vec<u8>, CaseError> {
        field_of(heap, field)
    }

    fn push_bytes(text: &mut Vec<u8>, field: &str) -> Result<(), CaseError> {
        let bytes = field_of(*text.allocator(), field)?;
        Ok(text.extend_from_slice(bytes.as_slice())?)
    }
}

// The rule of `lock_cases`: there may be no digits, and the count may be 0 or have a plus sign and zeros before it.
pub struct Loose;

impl FieldRule for Loose {
    ghost spelt = { loose_bytes };

    fn bytes_of(heap: Global, field: &str) -> Result<Vec<u8>, CaseError> {
        let mut bytes = Vec::new(heap);
        Self::push_bytes(&mut bytes, field)?;
        Ok(bytes)
    }

    fn push_bytes(text: &mut Vec<u8>, field: &str) -> Result<(), CaseError> {
        let (digits, n) = digits_of(field, loose_repeats).ok_or(CaseError::Malformed)?;
        if n == 0 {
            // The digits are not looked at.
            return Ok(());
        }
        let from = text.len();
        push_pairs(text, digits.as_bytes())?;
        Ok(push_times(text, from, n)?)
    }
}

// The bytes of all the fields in a row.
pub fn gather<R: FieldRule>(heap: Global, fields: &str) -> Result<Vec<u8>, CaseError>
    ensures bytes { IfOk result (λ v. gathered R.spelt (fields_of fields.now) ≡ Some v.items) }
    ensures malformed { IsErrOf result CaseError.Malformed → gathered R.spelt (fields_of fields.now) ≡ None }
{
    let mut text = Vec::new(heap);
    for field in fields.split(' ') {
        R::push_bytes(&mut text, field)?;
    }
    Ok(text)
}

// The text of a case.
pub fn text_of(heap: Global, fields: &str) -> Result<Vec<u8>, CaseError>
    ensures bytes { IfOk result (λ v. text_of fields.now ≡ Some v.items) }
    ensures malformed { IsErrOf result CaseError.Malformed → text_of fields.now ≡ None }
{
    if fields.is_empty() {
        return Ok(Vec::new(heap));
    }
    gather::<Strict>(heap, fields)
}
