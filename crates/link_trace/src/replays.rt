// A run on one thread, in an order that a number names.

ghost use Rattle.std.specs.Prelude.{◌≡◌, ◌≤◌, ◌<◌, ℕ, ◌+◌, ◌-◌, ◌^◌, IfOk, OnOk, Some, false, length, slice_get};
ghost use Rattle.rand_pcg.specs.Pcg.{pcg32};
ghost use Rattle.trace_law.specs.Validity.{IsValidInput, IsValidSetting};
ghost use Rattle.trace_law.specs.Family.{first_rest};
ghost use Rattle.trace_law.specs.Runs.{IsRunOf};
ghost use Rattle.load_controller.specs.Journal.{last_epoch};
ghost use Rattle.actor_core.specs.Elements.{IsAllAt};
ghost use Rattle.actor_core.specs.Standing.{IsOver};
ghost use Rattle.trace_law.specs.MostEvents.{most_events};
ghost use Rattle.link_trace.specs.States.{state_of};
ghost use Rattle.link_trace.specs.Marks.{AreMarked};
ghost use Rattle.link_trace.specs.Order.{Drives, IsFreshWorld, IsIdle, IsRunReplay, MakesDrawn, MakesFirst};
ghost use Rattle.link_trace.specs.Order as order;

use crate::first_ready::make_first;
use crate::slots::{Slot, slots_of};
use crate::world::World;
use actor_core::events_fit;
use rand_core::utils::NextWord;
use rand_pcg::Lcg64Xsh32;
use std::alloc::{AllocError, Global};
use std::sync::Wait;
use trace_law::{Input, Run, Setting, events_are_few};

// The stream of the generator that orders a replay.
pub(crate) const STREAM: u64 = 56;

// A mark for each of so many slots.
pub(crate) fn all_marked(alloc: Global, count: usize) -> Result<Vec<bool>, AllocError>
    ensures each { IfOk result (λ marks. length marks.items ≡ count) }
    ensures marked { IfOk result (λ marks. (n : ℕ) → ¬ (slice_get marks.items n ≡ Some false)) }
{
    vec![in alloc; true; count]
}

// Draws a word, makes the event of the first slot that has one, going round from the place that the word names, and
// counts it.
pub(crate) fn make_next(
    world: &mut World,
    slots: &[Slot],
    marks: &mut Vec<bool>,
    draws: &mut Lcg64Xsh32,
    events: &mut u64,
) -> Result<(), AllocError>
    requires marks { AreMarked slots.now marks.old.items (state_of world.old) }
    requires ready { ¬ IsAllAt (IsIdle (state_of world.old)) slots.now }
    requires few { events.old < 2 ^ 64 - 1 }
    ensures marks { OnOk result (AreMarked slots.now marks.new.items (state_of world.new)) }
    ensures made { OnOk result
        (MakesFirst slots.now (pcg32 draws.old).0 (state_of world.old) (state_of world.new)) }
    ensures drawn { OnOk result (draws.new ≡ (pcg32 draws.old).1) }
    ensures counted { OnOk result (events.new ≡ events.old + 1) }
{
    let word = draws.next_word();
    make_first(world, slots, marks, word)?;
    *events += 1;
    Ok(())
}

// Makes events of a fresh world until the work of all is over, in the order of this seed, and counts them.
pub(crate) fn drive<R: Wait>(
    rt: &R,
    alloc: Global,
    world: &mut World,
    setting: &Setting,
    seed: u64,
) -> Result<u64, AllocError>
    requires setting { IsValidSetting setting.now }
    requires fresh { IsFreshWorld setting.now (state_of world.old) }
    ensures drives { IfOk result (λ events. Drives (MakesDrawn (order.slots_of setting.now) seed)
        (state_of world.old) events (state_of world.new)) }
    ensures over { OnOk result (IsAllAt IsOver (state_of world.new).cores) }
{
    events_are_few();
    events_fit();
    let slots = slots_of(alloc, setting)?;
    let mut marks = all_marked(alloc, slots.len())?;
    let mut draws = Lcg64Xsh32::new(seed, STREAM);
    let mut events = 0u64;
    for _ in rt.forever() {
        if world.done() {
            break;
        }
        make_next(world, &slots, &mut marks, &mut draws, &mut events)?;
    }
    Ok(events)
}

/// Runs a world of this input and setting until it is done. As long as it isn't, one word of the generator with this
/// seed is drawn, and the first slot from `word mod count` on that has an event makes it, going round; `bouts` is the
/// number of events. What it promises holds if it returns.
pub fn replay<R: Wait>(
    rt: &R,
    alloc: Global,
    input: &Input,
    setting: &Setting,
    seed: u64,
) -> Result<Run, AllocError>
    requires input { IsValidInput input.now }
    requires setting { IsValidSetting setting.now }
    ensures run { IfOk result (λ run. IsRunOf input.now setting.now
        (first_rest setting.now).line run.journal run) }
    ensures order { IfOk result (λ run. IsRunReplay input.now setting.now seed run) }
    ensures bound { IfOk result (λ run. run.bouts
        ≤ most_events input.now setting.now (last_epoch run.journal)) }
{
    events_are_few();
    let mut world = World::start(alloc, input, setting)?;
    let events = drive(rt, alloc, &mut world, setting, seed)?;
    world.finish(events)
}
