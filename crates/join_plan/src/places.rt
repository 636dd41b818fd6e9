// A row of a side in the file that it comes from.

ghost use Rattle.std.specs.Prelude.{◌≡◌, ◌≤◌, ◌+◌, length};
ghost use Rattle.join_plan.specs.Located;

use crate::waves::{WaveEnd, rows_upto};
use row_cells::Side;

/// A row in its file, counted from 1, and the wave of that file.
#[derive(Clone, Copy, Debug, PartialEq, Eq)]
pub(crate) struct Place {
    pub(crate) wave: u32,
    pub(crate) row: u64,
}

/// Where the side's row of this number stands, counted from 1 over all waves. The first wave that is looked at is this,
/// so many rows stand before it, and the waves from it on end here.
pub(crate) fn located(side: Side, wave: u32, before: u64, ends: &[WaveEnd], row: u64) -> Place
    requires few { wave + length ends.now ≤ 5 }
    requires before { before ≤ row }
    ensures { result ≡ Located.located side wave before ends.now row }
{
    let [end, ends @ ..] = ends else {
        return Place {
            wave,
            row: row - before,
        };
    };
    let upto = rows_upto(side, *end);
    if row <= upto {
        return Place {
            wave,
            row: row - before,
        };
    }
    located(side, wave + 1, upto, ends, row)
}
