// The row of an irregular space: from one place to another.
use table::Row;

#[derive(Clone, Copy, Debug, Default, PartialEq, Eq)]
pub struct Span {
    pub start: u32,
    pub end: u32,
}

impl Row for Span {
    ghost from = { λ s. s.start };

    fn start(&self) -> usize {
        self.start as usize
    }
}
