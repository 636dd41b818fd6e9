// The lines of a journal.

use row_cells::Items;

/// Why a line was added: the message that it counts.
#[derive(Clone, Copy, Debug, PartialEq, Eq)]
pub enum Cause {
    /// A run begins.
    Start,
    /// A wave goes on from the last line of the wave before.
    Wave,
    /// A feeder's batch of so many rows of R and of S.
    Count { feeder: u32, dr: u32, ds: u32 },
    /// A joiner has settled the step under way.
    Settle { joiner: u32 },
    /// A feeder has no more batches.
    Drain { feeder: u32 },
}

/// What the controller knows after a message that it counted.
#[derive(Clone, Copy, Debug, PartialEq, Eq)]
pub struct TurnLine {
    pub cause: Cause,
    /// The rows of each side that were counted so far.
    pub rows_r: u64,
    pub rows_s: u64,
    /// The counts at the last decision.
    pub base_r: u64,
    pub base_s: u64,
    /// How many steps have begun.
    pub epoch: u32,
    pub shift: u32,
    /// The shift that the last decision chose.
    pub goal: u32,
    /// Whether a step is under way.
    pub moving: bool,
}

pub type Journal = Items<TurnLine>;
