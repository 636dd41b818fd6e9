// A feeder's rows, named by their places in the tables.

use row_cells::{Items, Side};

/// In which order a feeder takes its rows: by index with R before S at the same index, or all of
/// one side before the other.
#[derive(Clone, Copy, Debug, PartialEq, Eq)]
pub enum Feed {
    Alternate,
    RFirst,
    SFirst,
}

/// A row by its side and its number there, counted from 0.
#[derive(Clone, Copy, Debug, PartialEq, Eq)]
pub struct Place {
    pub side: Side,
    pub index: u32,
}

pub type Share = Items<Place>;
