// Where the waves end in the tables.

ghost use Rattle.std.specs.Prelude.{◌≡◌, IfOk};
ghost use Rattle.join_plan.specs.Waves;
ghost use Rattle.join_plan.specs.Waves.{AreEnds, rows_upto as rows_upto'};

use crate::files::Tables;
use row_cells::{Items, Side};
use std::alloc::{AllocError, Global};

/// How many rows of each side there are up to a wave's end.
#[derive(Clone, Copy, Debug, PartialEq, Eq)]
pub struct WaveEnd {
    pub rows_r: u64,
    pub rows_s: u64,
}

/// The ends of waves, in their order.
pub type WaveEnds = Items<WaveEnd>;

/// The tables of both sides with the rows of some waves, and where each of these ends.
#[derive(Debug, Drop)]
pub(crate) struct InWaves {
    pub(crate) tables: Tables,
    pub(crate) ends: WaveEnds,
}

/// Where the tables end.
pub(crate) fn end_of(tables: &Tables) -> WaveEnd
    ensures { result ≡ Waves.end_of tables.now }
{
    WaveEnd {
        rows_r: tables.of_r.rows.len(),
        rows_s: tables.of_s.rows.len(),
    }
}

/// How many rows of a side there are up to an end.
pub(crate) fn rows_upto(side: Side, end: WaveEnd) -> u64
    ensures { result ≡ rows_upto' side end }
{
    match side {
        Side::R => end.rows_r,
        Side::S => end.rows_s,
    }
}

/// The tables of the first wave alone.
pub(crate) fn first_wave(alloc: Global, tables: Tables) -> Result<InWaves, AllocError>
    ensures first { IfOk result (λ waves. waves ≡ Waves.first_wave tables) }
    ensures ends { IfOk result (λ waves. AreEnds waves.tables waves.ends) }
{
    let mut ends = Items::new(alloc);
    ends.push(end_of(&tables))?;
    Ok(InWaves { tables, ends })
}
