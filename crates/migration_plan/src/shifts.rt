// The steps of a whole migration.

ghost use Rattle.std.specs.Prelude.{IfOk};
ghost use Rattle.migration_plan.specs.Steps.{IsChain};

use crate::step::next_step;
use epoch_tags::Counts;
use std::alloc::{AllocError, Global};

/// The shifts after `shift` up to and with `goal`, in the order of the steps: 2, 1 and 0 from 3 to 0.
pub fn chain(alloc: Global, shift: u32, goal: u32) -> Result<Counts, AllocError>
    ensures { IfOk result (λ shifts. IsChain shift goal shifts) }
{
    let mut shifts = Counts::new(alloc);
    let mut reached = shift;
    while reached != goal {
        reached = next_step(reached, goal);
        shifts.push(u64::from(reached))?;
    }
    Ok(shifts)
}
