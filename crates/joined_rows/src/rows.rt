// The joined rows.

ghost use Rattle.std.specs.Prelude.{◌≡◌, ◌++◌, IfOk, OnOk, map};
ghost use Rattle.row_cells.specs.Cells.{cells_of};
ghost use Rattle.joined_rows.specs.Joined.{joined_row as joined_row', row_at};

use epoch_tags::Pair;
use row_cells::{Cells, Rows, Texts};
use std::alloc::{AllocError, Global};

// Appends the texts of the row at a place, where there is one.
fn add_row(texts: &mut Texts, rows: &Rows, place: u32) -> Result<(), AllocError>
    ensures { OnOk result (cells_of texts.new ≡ cells_of texts.old ++ row_at rows.now place) }
{
    match rows.as_slice().get(place as usize) {
        Some(row) => row.add_texts(texts),
        None => Ok(()),
    }
}

// The joined row of a pair.
fn joined_row(alloc: Global, rows_r: &Rows, rows_s: &Rows, pair: Pair) -> Result<Cells, AllocError>
    ensures { IfOk result (λ row. row ≡ joined_row' rows_r.now rows_s.now pair) }
{
    let mut texts = Texts::new(alloc);
    add_row(&mut texts, rows_r, pair.i)?;
    add_row(&mut texts, rows_s, pair.j)?;
    Cells::from_texts(alloc, texts)
}

/// A row for each pair, in their order: the cells of its row of R, and then those of its row of S. A place at
/// which there is no row has no cells. The new rows have copies of the texts; copies of a new row share them.
pub fn joined_rows(
    alloc: Global,
    rows_r: &Rows,
    rows_s: &Rows,
    pairs: &[Pair],
) -> Result<Rows, AllocError>
    ensures { IfOk result (λ rows. rows ≡ map (joined_row' rows_r.now rows_s.now) pairs.now) }
{
    let mut rows = Rows::with_room(alloc, pairs.len())?;
    for pair in pairs {
        rows.push(joined_row(alloc, rows_r, rows_s, *pair)?)?;
    }
    Ok(rows)
}
