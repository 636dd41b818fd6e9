// Rows behind others.

ghost use Rattle.std.specs.Prelude.{◌≡◌, ◌++◌, IfOk};

use row_cells::Rows;
use std::alloc::AllocError;

/// The rows of one list behind those of another.
pub(crate) fn appended(rows: Rows, more: Rows) -> Result<Rows, AllocError>
    ensures { IfOk result (λ all. all ≡ rows ++ more) }
{
    let mut all = rows.into_vec();
    for row in more.into_vec() {
        all.push(row)?;
    }
    Ok(Rows::from_vec(all))
}
