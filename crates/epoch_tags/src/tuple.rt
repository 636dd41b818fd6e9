// Rows on their way, and a pair of rows.

ghost use Rattle.std.specs.Prelude.{◌≡◌, IfOk};

use row_cells::{Cells, Items, Side};
use std::alloc::AllocError;

/// A row of one side with its ticket, and as its stamp the epoch in which it was counted.
#[derive(Drop)]
pub struct Tuple {
    pub side: Side,
    /// The row's number in its file, counted from 0.
    pub index: u32,
    pub ticket: u8,
    pub stamp: u32,
    pub cells: Cells,
}

impl Tuple {
    /// An equal tuple.
    pub fn copy(&self) -> Result<Tuple, AllocError>
        ensures { IfOk result (λ tuple. tuple ≡ self.now) }
    {
        Ok(Tuple {
            side: self.side,
            index: self.index,
            ticket: self.ticket,
            stamp: self.stamp,
            cells: self.cells.copy()?,
        })
    }
}

pub type Tuples = Items<Tuple>;

/// A row of R and a row of S, by their numbers counted from 0.
#[derive(Clone, Copy, Debug, Default, PartialEq, Eq)]
pub struct Pair {
    pub i: u32,
    pub j: u32,
}

pub type Counts = Items<u64>;
