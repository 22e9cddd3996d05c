// Where comments and hashbang lines end.
ghost use Rattle.std.specs.Prelude.{◌≡◌, ℕ, ◌+◌, ◌<◌, ◌≤◌, false, length, drop, slice_index, Result};
ghost use Rattle.source.specs.Unicode.{line_terminator};
ghost use Rattle.scanner.specs.Ecma.{OneFrom, LineTerminatorAt, LineEnds, BlockIs};
ghost use Rattle.scanner.specs.Ends.{term, terminator, line_end, block_from, BlockWithin};

use source::search;

// Where a block comment ends, and whether a line terminator stands in it.
#[derive(Clone, Copy, PartialEq, Eq, Debug)]
pub struct Block {
    pub end: usize,
    pub multi: bool,
}

// A block comment without an end, and whether a line terminator stands in it.
#[derive(Clone, Copy, PartialEq, Eq, Debug)]
pub struct Unterminated {
    pub multi: bool,
}

// How many bytes the line terminator at the front takes, or 0: the text goes on after that many, whether one stands there or not.
// By the first byte before the length, so that a scan that has seen a `*` asks no more.
fn terminator_width(rest: &[u8]) -> usize
    ensures value { result ≡ terminator rest.now }
    ensures within { result ≤ length rest.now }
{
    match rest {
        [b'\n' | b'\r', ..] => 1,
        [0xE2, tail @ ..] if matches!(tail, [0x80, 0xA8 | 0xA9, ..]) => 3,
        _ => 0,
    }
}

// How many bytes the line terminator at a place takes, or 0: a count, since the text goes on after that many either way.
pub fn terminator_at(text: &[u8], at: usize) -> usize
    ensures value { result ≡ term (slice_index text.now at) (slice_index text.now (at + 1)) (slice_index text.now (at + 2)) }
    ensures stands { (0 < result → OneFrom line_terminator text.now at (at + result)) × (LineTerminatorAt text.now at → 0 < result) }
    ensures within { at ≤ length text.now → at + result ≤ length text.now }
{
    text.get(at..).map_or(0, terminator_width)
}

// The end of the line that goes on at `from`: the first line terminator, or the end of the text; a place past the end is the answer itself.
// The search is stepped here and for a block, since there is one search over the byte tables: an iterator over its matches would be one
// more type with laws, for two short loops.
pub fn skip_single_line_comment(text: &[u8], from: usize) -> usize
    ensures end { result ≡ from + line_end (drop from text.now) }
    ensures line { from ≤ length text.now → LineEnds text.now from result }
    ensures only { (end : ℕ) → LineEnds text.now from end → end ≡ result }
    ensures within { (from ≤ result) × (from ≤ length text.now → result ≤ length text.now) }
    ensures stops { result < length text.now → 0 < terminator (drop result text.now) }
{
    let table = search::line_break_table();
    let mut end = search::byte_search(table, text, from);
    while end < text.len() && terminator_at(text, end) == 0 {
        end = search::byte_search(table, text, end + 1);
    }
    end
}

// The end of the block comment whose content begins at `from`.
pub fn skip_multi_line_comment(text: &[u8], from: usize) -> Result<Block, Unterminated>
    ensures value { result ≡ block_from from false (drop from text.now) }
    ensures block { BlockIs text.now from result }
    ensures only { (b : Result Block Unterminated) → BlockIs text.now from b → b ≡ result }
    ensures within { BlockWithin text.now from result }
{
    let table = search::multiline_comment_start_table();
    let mut multi = false;
    let mut at = search::byte_search(table, text, from);
    while at < text.len() {
        match &text[at..] {
            [b'*', b'/', ..] => return Ok(Block { end: at + 2, multi }),
            rest => multi |= terminator_width(rest) > 0,
        }
        at = search::byte_search(table, text, at + 1);
    }
    Err(Unterminated { multi })
}

// The end of the hashbang line whose `#!` stands before `from`. It ends as a line comment does, and has its own name in oxc.
pub fn read_hashbang_comment(text: &[u8], from: usize) -> usize
    ensures end { result ≡ from + line_end (drop from text.now) }
    ensures line { from ≤ length text.now → LineEnds text.now from result }
    ensures only { (end : ℕ) → LineEnds text.now from end → end ≡ result }
    ensures within { (from ≤ result) × (from ≤ length text.now → result ≤ length text.now) }
    ensures stops { result < length text.now → 0 < terminator (drop result text.now) }
{
    skip_single_line_comment(text, from)
}
