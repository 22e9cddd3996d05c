// A text with a place in it.
ghost use Rattle.std.specs.Prelude.{◌≤◌, length};
ghost use Rattle.std.specs.Str.{IsCharBoundary};

pub mod moves;

// The longest text whose places fit 32 bits, less the crate's reserve of 256.
pub const MAX_LEN: usize = 4_294_967_039;

#[derive(Clone, Copy, PartialEq, Eq, Debug)]
pub struct Source<'a> {
    text: &'a str,
    place: usize,
    ghost short: { length text.now ≤ 4294967039 },
    ghost cut: { IsCharBoundary text.now place },
}
