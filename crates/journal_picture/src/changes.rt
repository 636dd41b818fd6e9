// The changes of the grid that a journal tells, and where its waves begin.

ghost use Rattle.std.specs.Prelude.{◌≡◌, IfOk};
ghost use Rattle.journal_picture.specs.Changes as of;

use load_controller::{Cause, TurnLine};
use row_cells::Items;
use std::alloc::{AllocError, Global};

/// A step from one shape of the grid to the next.
#[derive(Clone, Copy, Debug, PartialEq, Eq)]
pub struct Step {
    /// The line before it.
    pub before: TurnLine,
    /// The line that began it.
    pub begun: TurnLine,
    /// The line that ended it, or the journal's last.
    pub ended: TurnLine,
}

/// The line that ends a step, of those behind the line that began it.
fn ended(begun: TurnLine, rest: &[TurnLine]) -> TurnLine
    ensures { result ≡ of.ended_at begun.epoch begun rest.now }
{
    let mut last = begun;
    for &next in rest {
        if !next.moving || next.epoch != begun.epoch {
            return next;
        }
        last = next;
    }
    last
}

/// The steps of a journal, in its order.
pub fn steps(alloc: Global, journal: &[TurnLine]) -> Result<Items<Step>, AllocError>
    ensures { IfOk result (λ steps. steps ≡ of.steps_of journal.now) }
{
    let mut steps = Items::new(alloc);
    let [first, rest @ ..] = journal else {
        return Ok(steps);
    };
    let mut before = *first;
    for index in 0..rest.len() {
        let begun = rest[index];
        if begun.epoch != before.epoch {
            let ended = ended(begun, &rest[index + 1..]);
            steps.push(Step {
                before,
                begun,
                ended,
            })?;
        }
        before = begun;
    }
    Ok(steps)
}

fn is_wave(cause: Cause) -> bool
    ensures { result ≡ of.is_wave cause }
{
    match cause {
        Cause::Wave => true,
        _ => false,
    }
}

/// The lines of a journal that begin the waves behind the first, in its order.
pub fn waves(alloc: Global, journal: &[TurnLine]) -> Result<Items<TurnLine>, AllocError>
    ensures { IfOk result (λ waves. waves ≡ of.waves_of journal.now) }
{
    let mut waves = Items::new(alloc);
    for &line in journal {
        if is_wave(line.cause) {
            waves.push(line)?;
        }
    }
    Ok(waves)
}
