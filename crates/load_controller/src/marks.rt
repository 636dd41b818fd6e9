// Marks of the feeders that have drained and of the joiners that have settled.

ghost use Rattle.std.specs.Prelude.{◌≡◌, ◌<◌, ◌+◌, ◌^◌, ◌||◌, ℕ, true, false, length, if◌then◌else◌};
ghost use Rattle.epoch_tags.specs.Flags.{flag_at};
ghost use Rattle.load_controller.specs.Journal.{is_drain_of, is_settle_of, is_settle};
ghost use Rattle.load_controller.specs.Machine.{IsOfGrid};

use crate::line::Cause;

// Takes all marks down.
fn take_down(flags: &mut Vec<bool>)
    ensures len { length flags.new.items ≡ length flags.old.items }
    ensures down { (i : ℕ) → i < length flags.new.items → flag_at flags.new.items i ≡ false }
{
    for i in 0..flags.len() {
        flags[i] = false;
    }
}

// Marks the feeder that has drained, where the cause says so.
pub(crate) fn note_drain(drained: &mut Vec<bool>, cause: Cause)
    requires { IsOfGrid (length drained.old.items) (2 ^ 32) cause }
    ensures len { length drained.new.items ≡ length drained.old.items }
    ensures marks { (p : ℕ) → p < length drained.old.items
        → flag_at drained.new.items p ≡ (is_drain_of p cause || flag_at drained.old.items p) }
{
    match cause {
        Cause::Start => {}
        Cause::Wave => {}
        Cause::Count { .. } => {}
        Cause::Settle { .. } => {}
        Cause::Drain { feeder } => drained[feeder as usize] = true,
    }
}

// Marks the joiner that has settled, where the cause says so and the epoch stays; else takes all marks down.
// Answers how many marks are up, of which there were `count`.
pub(crate) fn note_settle(settled: &mut Vec<bool>, count: u32, stays: bool, cause: Cause) -> u32
    requires joiner { IsOfGrid (2 ^ 32) (length settled.old.items) cause }
    requires count { count + 1 < 2 ^ 32 }
    ensures len { length settled.new.items ≡ length settled.old.items }
    ensures marks { (j : ℕ) → j < length settled.old.items → flag_at settled.new.items j
        ≡ (if stays then (is_settle_of j cause || flag_at settled.old.items j) else false) }
    ensures value { result ≡ (if stays then (if is_settle cause then count + 1 else count) else 0) }
{
    if !stays {
        take_down(settled);
        return 0;
    }
    match cause {
        Cause::Start => count,
        Cause::Wave => count,
        Cause::Count { .. } => count,
        Cause::Settle { joiner } => {
            settled[joiner as usize] = true;
            count + 1
        }
        Cause::Drain { .. } => count,
    }
}
