#![tactic(auto)]
// Rows kept in the order of where they start, in a slice of the caller's that is filled up to a count.
ghost use Rattle.std.specs.Prelude.{◌≡◌, ℕ, ◌+◌, ◌-◌, ◌^◌, ◌<◌, ◌≤◌, length, IfSome, Some, codes, slice_index_or};
ghost use Rattle.table.specs.Order.{last_start, follows, outcome, rows_with, count_with, Rising, Found};
ghost use Rattle.table.specs.View.{rows_of, count_of, kept_of, starts_of};

use std::error::Error;
use std::fmt;

// A row that has a start.
pub trait Row {
    ghost from: { Self → ℕ };

    fn start(&self) -> usize
        ensures { result ≡ from self.now };
}

// What came of an append that had its way.
#[derive(Clone, Copy, Debug, PartialEq, Eq)]
pub enum Appended {
    Added,
    // The row starts no later than the last.
    Dropped,
}

// There is no room for another row.
#[derive(Clone, Copy, Debug, PartialEq, Eq)]
pub struct Full;

impl fmt::Display for Full {
    ghost output = { λ _. Some (codes "no room for another row") };

    fn fmt<W: fmt::Write>(&self, f: &mut fmt::Formatter<W>) -> fmt::Result {
        f.write_str("no room for another row")
    }
}

impl Error for Full {}

// The first `count` rows are on record; the others are the caller's.
// The count stands beside the rows, since they are the caller's, and it may be any number: who makes a table by hand is asked for nothing.
// Clauses named `lender` say that the rows are still lent by the same lender; no invariant can, as that is about two moments.
#[derive(Drop)]
pub struct Table<'a, T> {
    pub rows: &'a mut [T],
    pub count: usize,
}

impl<'a, T> Table<'a, T> {
    // An empty table over the slice.
    pub fn new(rows: &'a mut [T]) -> Self
        ensures rows { rows_of result ≡ rows.old }
        ensures count { count_of result ≡ 0 }
        ensures lender { result.rows.ghost_name ≡ rows.entry.ghost_name }
    {
        Table { rows, count: 0 }
    }

    // The rows on record, for any count.
    pub fn kept(&self) -> &[T]
        ensures { result.now ≡ kept_of self.now }
    {
        &self.rows[..self.count.min(self.rows.len())]
    }

    pub fn len(&self) -> usize
        ensures value { result ≡ length (kept_of self.now) }
        ensures within { result ≤ length (rows_of self.now) }
    {
        self.kept().len()
    }

    // How many rows more there is room for.
    pub fn room(&self) -> usize
        ensures value { result ≡ length (rows_of self.now) - count_of self.now }
        ensures fits { length (kept_of self.now) + result < 2 ^ 64 }
    {
        self.rows.len().saturating_sub(self.count)
    }
}

impl<'a, T: Row + Copy> Table<'a, T> {
    // Whether a row that starts there is a new one.
    pub fn is_new(&self, start: usize) -> bool
        ensures { result ≡ follows (starts_of T.from self.now) start }
    {
        self.last_start().is_none_or(|last| last < start)
    }

    // Where the last row on record starts, if there is one.
    pub fn last_start(&self) -> Option<usize>
        ensures { result ≡ last_start (starts_of T.from self.now) }
    {
        self.kept().last().map(|row| row.start())
    }

    // The row on record that starts there, in rows of rising starts.
    pub fn find(&self, start: usize) -> Option<usize>
        ensures found { Found (starts_of T.from self.now) start result }
        ensures fits { IfSome result (λ i. i + 1 < 2 ^ 64) }
    {
        self.kept()
            .binary_search_by_key(&start, |row| row.start())
            .ok()
    }

    // Adds a row at the end. A row whose start is not above the last row's is dropped.
    #[tactic(auto, using(crate::proofs::Rise::rising_more))]
    pub fn append(&mut self, row: T) -> Result<Appended, Full>
        ensures answer { result ≡ outcome T.from (rows_of self.old) (count_of self.old) row }
        ensures rows { rows_of self.new ≡ rows_with result (rows_of self.old) (count_of self.old) row }
        ensures count { count_of self.new ≡ count_with result (count_of self.old) }
        ensures rising { Rising (starts_of T.from self.old) → Rising (starts_of T.from self.new) }
        ensures lender { self.new.rows.ghost_name ≡ self.old.rows.ghost_name }
    {
        if !self.is_new(row.start()) {
            return Ok(Appended::Dropped);
        }
        if self.room() == 0 {
            return Err(Full);
        }
        self.rows[self.count] = row;
        self.count += 1;
        Ok(Appended::Added)
    }

    // The row at a place, or another where none is on record there.
    pub fn row(&self, i: usize, or: T) -> T
        ensures { result ≡ slice_index_or (kept_of self.now) i or }
    {
        self.kept().get(i).copied().unwrap_or(or)
    }
}
