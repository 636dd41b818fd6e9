// What a collector answers in the end.

use epoch_tags::{Counts, Pairs};
use row_cells::Items;

/// How many rows of each side a joiner holds.
#[derive(Clone, Copy, Debug, PartialEq, Eq)]
pub struct Held {
    pub rows_r: u64,
    pub rows_s: u64,
}

pub type Loads = Items<Held>;

/// The answer of a whole run.
#[derive(Debug, Drop)]
pub struct Collected {
    /// All pairs, by the row of R and then by the row of S.
    pub pairs: Pairs,
    /// How many pairs each joiner made.
    pub made: Counts,
    /// What each joiner held at its end.
    pub loads: Loads,
    /// How many rows moved in each step, the first step being at place 0.
    pub moved: Counts,
}
