// The columns of a table that are to hold numbers.

ghost use Rattle.std.specs.Prelude.{◌≡◌, ◌<◌, ◌+◌, ℕ, List, Some, All, length, slice_get, OnOk, IfErr};
ghost use Rattle.row_cells.specs.Cells.{cell_of};
ghost use Rattle.row_cells.specs.Columns.{IsBad, IsFirstBad, is_bad};
ghost use Rattle.row_cells.specs.declared.table.Cell.{Cell};

use crate::number::{number_in, spaces_before};
use crate::table::Table;

/// The row, counted from 1, is the first whose cell isn't empty and has no number. A cell of spaces alone is empty.
#[derive(Clone, Copy, Debug, PartialEq, Eq)]
pub struct BadNumber {
    pub row: u64,
}

// Whether a text isn't empty and is no number.
fn bad(text: &[u8]) -> bool
    ensures { result ≡ is_bad (cell_of text.now) }
{
    spaces_before(text) != text.len() && number_in(text).is_none()
}

impl Table {
    /// Whether each cell of a column, counted from 0, is a number or empty. It takes no memory.
    pub fn numbers(&self, column: u64) -> Result<(), BadNumber>
        requires header { column < length self.now.names }
        requires rows { All (λ row. column < length row) self.now.rows }
        ensures ok { OnOk result ((place : ℕ) (row : List Cell)
            → slice_get self.now.rows place ≡ Some row
            → ¬ (IsBad column row)) }
        ensures first { IfErr result (λ fault. IsFirstBad column self.now.rows fault.row) }
    {
        let mut place = 0;
        while place < self.rows.len() {
            let row = self.rows.at(place);
            if bad(row.text_at(column)) {
                return Err(BadNumber { row: place + 1 });
            }
            place += 1;
        }
        Ok(())
    }
}
