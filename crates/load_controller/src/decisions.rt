// The line that a counted message adds, and whether a decision is due with it.

ghost use Rattle.std.specs.Prelude.{◌≡◌, ◌+◌, ◌^◌, ◌<◌, ◌≤◌, not, ◌&&◌, ◌||◌, is_none};
ghost use Rattle.grid_map.specs.Load.{AreWeights};
ghost use Rattle.load_controller.specs.Journal as journal;
ghost use Rattle.load_controller.specs.Next.{line_by};

use crate::line::{Cause, TurnLine};
use grid_map::{Shape, Weights, best_shift};
use migration_plan::next_step;

// How many rows of R the cause counts.
fn counted_r(cause: Cause) -> u64
    ensures value { result ≡ journal.counted_r cause }
{
    match cause {
        Cause::Start => 0,
        Cause::Wave => 0,
        Cause::Count { dr, .. } => u64::from(dr),
        Cause::Settle { .. } => 0,
        Cause::Drain { .. } => 0,
    }
}

// How many rows of S the cause counts.
fn counted_s(cause: Cause) -> u64
    ensures value { result ≡ journal.counted_s cause }
{
    match cause {
        Cause::Start => 0,
        Cause::Wave => 0,
        Cause::Count { ds, .. } => u64::from(ds),
        Cause::Settle { .. } => 0,
        Cause::Drain { .. } => 0,
    }
}

// Whether a side has as many new rows since the last decision as it had then.
fn has_doubled(base: u64, rows: u64) -> bool
    requires { base < 2 ^ 63 }
    ensures { result ≡ journal.has_doubled base rows }
{
    base < rows && 2 * base <= rows
}

// The line after `before`, where a step is still open or not.
pub(crate) fn next_line(
    k: u32,
    fixed: Option<u32>,
    weights: Weights,
    before: TurnLine,
    opens: bool,
    cause: Cause,
) -> TurnLine
    requires k { k ≤ 8 }
    requires shift { before.shift ≤ k }
    requires weights { AreWeights weights }
    requires rows_r { before.rows_r + journal.counted_r cause ≤ 2 ^ 32 }
    requires rows_s { before.rows_s + journal.counted_s cause ≤ 2 ^ 32 }
    requires base_r { before.base_r ≤ 2 ^ 32 }
    requires base_s { before.base_s ≤ 2 ^ 32 }
    requires epoch { before.epoch + 1 < 2 ^ 32 }
    ensures { result ≡ line_by k fixed weights before opens cause }
{
    let rows_r = before.rows_r + counted_r(cause);
    let rows_s = before.rows_s + counted_s(cause);
    let decides = !opens
        && fixed.is_none()
        && (has_doubled(before.base_r, rows_r) || has_doubled(before.base_s, rows_s));
    let goal = if decides {
        best_shift(
            Shape {
                k,
                shift: before.shift,
            },
            weights,
            rows_r,
            rows_s,
        )
    } else {
        before.goal
    };
    let steps = !opens && before.shift != goal;
    TurnLine {
        cause,
        rows_r,
        rows_s,
        base_r: if decides { rows_r } else { before.base_r },
        base_s: if decides { rows_s } else { before.base_s },
        epoch: if steps {
            before.epoch + 1
        } else {
            before.epoch
        },
        shift: if steps {
            next_step(before.shift, goal)
        } else {
            before.shift
        },
        goal,
        moving: opens || steps,
    }
}
