// Byte-match tables of 256 entries, and the one search over them.
ghost use Rattle.std.specs.Prelude.{◌≡◌, ℕ, ◌+◌, ◌<◌, ◌≤◌, true, false, map, length, drop, slice_index};
ghost use Rattle.std.specs.List.{range_with_len, prefix_len, position};
ghost use Rattle.source.specs.Search.{begins_line_break, begins_multiline_stop, ends_regular_whitespace, hits, misses};

// Which bytes a search stops at, one entry for each byte.
#[derive(PartialEq, Eq, Debug)]
pub struct SafeByteMatchTable([bool; 256]);

// The first bytes of the line terminators: CR, LF, and 0xE2 of U+2028 and U+2029.
static LINE_BREAK_TABLE: SafeByteMatchTable = SafeByteMatchTable([
    false, false, false, false, false, false, false, false, false, false, true, false, false, true,
    false, false, false, false, false, false, false, false, false, false, false, false, false,
    false, false, false, false, false, false, false, false, false, false, false, false, false,
    false, false, false, false, false, false, false, false, false, false, false, false, false,
    false, false, false, false, false, false, false, false, false, false, false, false, false,
    false, false, false, false, false, false, false, false, false, false, false, false, false,
    false, false, false, false, false, false, false, false, false, false, false, false, false,
    false, false, false, false, false, false, false, false, false, false, false, false, false,
    false, false, false, false, false, false, false, false, false, false, false, false, false,
    false, false, false, false, false, false, false, false, false, false, false, false, false,
    false, false, false, false, false, false, false, false, false, false, false, false, false,
    false, false, false, false, false, false, false, false, false, false, false, false, false,
    false, false, false, false, false, false, false, false, false, false, false, false, false,
    false, false, false, false, false, false, false, false, false, false, false, false, false,
    false, false, false, false, false, false, false, false, false, false, false, false, false,
    false, false, false, false, false, false, false, false, false, false, false, false, false,
    false, false, false, false, false, false, false, false, false, false, false, false, false,
    false, false, false, false, true, false, false, false, false, false, false, false, false,
    false, false, false, false, false, false, false, false, false, false, false, false, false,
    false, false, false, false, false, false, false, false,
]);

// The same, and `*`.
static MULTILINE_COMMENT_START_TABLE: SafeByteMatchTable = SafeByteMatchTable([
    false, false, false, false, false, false, false, false, false, false, true, false, false, true,
    false, false, false, false, false, false, false, false, false, false, false, false, false,
    false, false, false, false, false, false, false, false, false, false, false, false, false,
    false, false, true, false, false, false, false, false, false, false, false, false, false,
    false, false, false, false, false, false, false, false, false, false, false, false, false,
    false, false, false, false, false, false, false, false, false, false, false, false, false,
    false, false, false, false, false, false, false, false, false, false, false, false, false,
    false, false, false, false, false, false, false, false, false, false, false, false, false,
    false, false, false, false, false, false, false, false, false, false, false, false, false,
    false, false, false, false, false, false, false, false, false, false, false, false, false,
    false, false, false, false, false, false, false, false, false, false, false, false, false,
    false, false, false, false, false, false, false, false, false, false, false, false, false,
    false, false, false, false, false, false, false, false, false, false, false, false, false,
    false, false, false, false, false, false, false, false, false, false, false, false, false,
    false, false, false, false, false, false, false, false, false, false, false, false, false,
    false, false, false, false, false, false, false, false, false, false, false, false, false,
    false, false, false, false, false, false, false, false, false, false, false, false, false,
    false, false, false, false, true, false, false, false, false, false, false, false, false,
    false, false, false, false, false, false, false, false, false, false, false, false, false,
    false, false, false, false, false, false, false, false,
]);

// All bytes but space, tab, CR and LF.
static NOT_REGULAR_WHITESPACE_OR_LINE_BREAK_TABLE: SafeByteMatchTable = SafeByteMatchTable([
    true, true, true, true, true, true, true, true, true, false, false, true, true, false, true,
    true, true, true, true, true, true, true, true, true, true, true, true, true, true, true, true,
    true, false, true, true, true, true, true, true, true, true, true, true, true, true, true,
    true, true, true, true, true, true, true, true, true, true, true, true, true, true, true, true,
    true, true, true, true, true, true, true, true, true, true, true, true, true, true, true, true,
    true, true, true, true, true, true, true, true, true, true, true, true, true, true, true, true,
    true, true, true, true, true, true, true, true, true, true, true, true, true, true, true, true,
    true, true, true, true, true, true, true, true, true, true, true, true, true, true, true, true,
    true, true, true, true, true, true, true, true, true, true, true, true, true, true, true, true,
    true, true, true, true, true, true, true, true, true, true, true, true, true, true, true, true,
    true, true, true, true, true, true, true, true, true, true, true, true, true, true, true, true,
    true, true, true, true, true, true, true, true, true, true, true, true, true, true, true, true,
    true, true, true, true, true, true, true, true, true, true, true, true, true, true, true, true,
    true, true, true, true, true, true, true, true, true, true, true, true, true, true, true, true,
    true, true, true, true, true, true, true, true, true, true, true, true, true, true, true, true,
    true, true, true, true, true, true, true, true, true, true, true, true, true, true, true, true,
    true, true,
]);

// Each table has a function that lends it, since a promise of what it holds stands on a function.
pub fn line_break_table() -> &'static SafeByteMatchTable
    ensures { result.now.0 ≡ map begins_line_break (range_with_len 0 256) }
{
    &LINE_BREAK_TABLE
}

pub fn multiline_comment_start_table() -> &'static SafeByteMatchTable
    ensures { result.now.0 ≡ map begins_multiline_stop (range_with_len 0 256) }
{
    &MULTILINE_COMMENT_START_TABLE
}

pub fn not_regular_whitespace_or_line_break_table() -> &'static SafeByteMatchTable
    ensures { result.now.0 ≡ map ends_regular_whitespace (range_with_len 0 256) }
{
    &NOT_REGULAR_WHITESPACE_OR_LINE_BREAK_TABLE
}

impl SafeByteMatchTable {
    pub fn matches(&self, b: u8) -> bool
        ensures { result ≡ hits self.now.0 b }
    {
        self.0[b as usize]
    }

    // The first place whose byte the table matches.
    fn first_match(&self, bytes: &[u8]) -> Option<usize>
        ensures { result ≡ position (hits self.now.0) bytes.now }
    {
        bytes.iter().position(|b| self.matches(*b))
    }
}

// The first place from `from` on whose byte the table matches, or the end of the text; a place past the end is the answer itself.
pub fn byte_search(table: &SafeByteMatchTable, text: &[u8], from: usize) -> usize
    ensures value { result ≡ from + prefix_len (misses table.now.0) (drop from text.now) }
    ensures low { from ≤ result }
    ensures within { from ≤ length text.now → result ≤ length text.now }
    ensures before { (k : ℕ) → from ≤ k → k < result → hits table.now.0 (slice_index text.now k) ≡ false }
    ensures found { result < length text.now → hits table.now.0 (slice_index text.now result) ≡ true }
{
    let Some(rest) = text.get(from..) else {
        return from;
    };
    from + table.first_match(rest).unwrap_or(rest.len())
}
