// One step, from a shift to a neighbouring one.

ghost use Rattle.std.specs.Prelude.{◌≡◌, ◌≢◌, ◌<◌, ◌≤◌, ◌^◌, min};
ghost use Rattle.migration_plan.specs.Steps as steps;
ghost use Rattle.migration_plan.specs.Steps.{AreNeighbours};

use epoch_tags::Tuple;
use grid_map::{Shape, holds_r, holds_s, partner};
use row_cells::Side;

/// The shift nearer to the goal by 1.
pub fn next_step(shift: u32, goal: u32) -> u32
    requires { shift ≢ goal }
    ensures { result ≡ steps.next_step shift goal }
{
    if shift < goal { shift + 1 } else { shift - 1 }
}

/// The smaller of the shifts before and after a step: the bit of its id in which a joiner differs
/// from its partner, counted from the lowest, which is 0.
pub fn low_of(old: u32, new: u32) -> u32
    requires { AreNeighbours old new }
    ensures { result ≡ min old new }
{
    if old < new { old } else { new }
}

/// The joiner with whom joiner `id` of `2^k` exchanges tuples in a step.
#[tactic(auto, using(crate::proofs::Neighbours::lesser_below))]
pub fn partner_in_step(k: u32, old: u32, new: u32, id: u32) -> u32
    requires grid { k ≤ 8 }
    requires from { old ≤ k }
    requires to { new ≤ k }
    requires step { AreNeighbours old new }
    requires id { id < 2 ^ k }
    ensures value { result ≡ steps.partner_in_step old new id }
    ensures below { result < 2 ^ k }
{
    partner(k, low_of(old, new), id)
}

/// The side whose tuples partners exchange in a step.
pub fn exchanged_side(old: u32, new: u32) -> Side
    requires { AreNeighbours old new }
    ensures { result ≡ steps.exchanged_side old new }
{
    if old < new { Side::R } else { Side::S }
}

/// Whether a joiner holds the tuple in a grid of this shape, by its ticket.
pub fn kept(shape: Shape, id: u32, tuple: &Tuple) -> bool
    requires shift { shape.shift ≤ shape.k }
    requires k { shape.k ≤ 8 }
    requires id { id < 2 ^ shape.k }
    ensures { result ≡ steps.holds shape.k shape.shift id tuple.now }
{
    match tuple.side {
        Side::R => holds_r(shape, id, tuple.ticket),
        Side::S => holds_s(shape, id, tuple.ticket),
    }
}
