// Where the white space after a line break ends.
ghost use Rattle.std.specs.Prelude.{◌≡◌, ℕ, ◌+◌, ◌<◌, ◌≤◌, length, drop, slice_index};
ghost use Rattle.std.specs.List.{prefix_len};
ghost use Rattle.source.specs.Search.{regular_whitespace};
ghost use Rattle.scanner.specs.Ecma.{RunEnds};

use source::search;

// The end of the run of spaces, tabs, CRs and LFs from a place on.
pub fn line_break_handler(text: &[u8], from: usize) -> usize
    ensures value { result ≡ from + prefix_len regular_whitespace (drop from text.now) }
    ensures run { from ≤ length text.now → RunEnds text.now from result }
    ensures only { (end : ℕ) → RunEnds text.now from end → end ≡ result }
    ensures within { (from ≤ result) × (from ≤ length text.now → result ≤ length text.now) }
    ensures ascii { (k : ℕ) → from ≤ k → k < result → slice_index text.now k < 128 }
{
    search::byte_search(
        search::not_regular_whitespace_or_line_break_table(),
        text,
        from,
    )
}
