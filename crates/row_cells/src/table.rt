// The two sides of a join, and the tables that stand on them.

ghost use Rattle.std.specs.Prelude.{◌≡◌, IfOk};
ghost use Rattle.row_cells.specs.Numbers.{number_of};

use crate::bytes::Bytes;
use crate::cells::Cells;
use crate::list::{Items, Names};
use crate::number::number_in;
use std::alloc::{AllocError, Global};

/// A side of the join: R is the first file, S the second.
#[derive(Clone, Copy, Debug, PartialEq, Eq)]
pub enum Side {
    R,
    S,
}

/// One field of a row: its text, and its number where the text is one that fits an `i64`. There is no cell with
/// another number than its text's.
#[derive(Debug, Drop)]
pub struct Cell {
    pub text: Bytes,
    pub num: Option<i64>,
    pub ghost own: { num ≡ number_of text },
}

pub type Rows = Items<Cells>;

/// The names of a header, and the rows under it.
#[derive(Debug, Drop)]
pub struct Table {
    pub names: Names,
    pub rows: Rows,
}

impl Cell {
    ghost use Rattle.std.specs.Fmt.{decimal};
    ghost use Rattle.row_cells.specs.Cells.{HasItsNumber, cell_of};

    /// The cell of a text. Its number is the text's where that is spaces, an optional sign, one digit or more, and
    /// spaces, a space being the byte 0x20.
    pub fn new(text: Bytes) -> Cell
        ensures cell { result ≡ cell_of text }
        ensures number { HasItsNumber result }
    {
        let num = number_in(text.as_slice());
        Cell { text, num }
    }

    /// The cell of a number, in decimal.
    pub fn decimal(alloc: Global, number: u64) -> Result<Cell, AllocError>
        ensures { IfOk result (λ cell. cell ≡ cell_of (decimal number)) }
    {
        let text = format!(in alloc; "{number}")?;
        Ok(Cell::new(Bytes::from_vec(text.into_bytes())))
    }

    /// An equal cell.
    pub fn copy(&self) -> Result<Cell, AllocError>
        ensures { IfOk result (λ cell. cell ≡ self.now) }
    {
        Ok(Cell {
            text: self.text.copy()?,
            num: self.num,
        })
    }
}
