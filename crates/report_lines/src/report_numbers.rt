// A report's numbers.

use row_cells::Items;

/// A change of the grid: its rows and columns since, and how many rows moved.
#[derive(Clone, Copy)]
pub struct Step {
    pub n: u64,
    pub m: u64,
    pub moved: u64,
}

pub type Steps = Items<Step>;

/// The grid after each joiner has split into four, and how many rows the new joiners were given.
#[derive(Clone, Copy)]
pub struct Growth {
    pub n: u64,
    pub m: u64,
    pub placed: u64,
}

/// The rows of R and of S that a joiner holds, and the pairs that it made.
#[derive(Clone, Copy)]
pub struct Joiner {
    pub rows_r: u64,
    pub rows_s: u64,
    pub made: u64,
}

pub type Joiners = Items<Joiner>;

/// The numbers of a report. Epochs and joiners aren't among them: a step stands at the place of its epoch,
/// counted from 1, those of `later` counted on, and a joiner at its id, counted from 0.
#[derive(Drop)]
pub struct Report {
    /// The rows of R.
    pub x: u64,
    /// The rows of S.
    pub y: u64,
    pub steps: Steps,
    pub growth: Option<Growth>,
    /// The steps since the growth.
    pub later: Steps,
    /// The rows of the last grid.
    pub n: u64,
    /// Its columns.
    pub m: u64,
    /// The copies in the last grid, each counting what a row of its side weighs.
    pub copies: u64,
    /// The fewest in any grid of as many joiners.
    pub best: u64,
    pub joiners: Joiners,
}
