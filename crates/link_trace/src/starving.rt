// A run on one thread in which one actor is served last.

ghost use Rattle.std.specs.Prelude.{◌≡◌, ◌≤◌, ◌<◌, IfOk, OnOk, Ok, Some, true, false, length, slice_get};
ghost use Rattle.load_controller.specs.Journal.{last_epoch};
ghost use Rattle.trace_law.specs.Validity.{IsValidInput, IsValidSetting};
ghost use Rattle.trace_law.specs.Family.{first_rest};
ghost use Rattle.trace_law.specs.Runs.{IsRunOf};
ghost use Rattle.actor_core.specs.Elements.{IsAllAt};
ghost use Rattle.actor_core.specs.Tasks.{task_of};
ghost use Rattle.trace_law.specs.MostEvents.{most_events};
ghost use Rattle.link_trace.specs.declared.slots.Slot.{Slot as Slot'};
ghost use Rattle.link_trace.specs.States.{state_of};
ghost use Rattle.link_trace.specs.Order.{IsIdle, Happens};
ghost use Rattle.link_trace.specs.Marks.{AreMarked};
ghost use Rattle.link_trace.specs.Starving.{AreIdleBelow, MakesLeast, MakesStarving, IsStarvingReplay};
ghost use Rattle.link_trace.specs.Starving as starving;

use crate::first_ready::{is_same, make_at, maker_of};
use crate::replays::all_marked;
use crate::slots::{Slot, slots_of};
use crate::world::World;
use actor_core::events_fit;
use epoch_tags::Actor;
use std::alloc::{AllocError, Global};
use trace_law::{Input, Run, Setting, events_are_few};

// Whether a slot may be served now.
fn may_go(all: bool, starved: Actor, slot: Slot) -> bool
    ensures { result ≡ starving.may_go all starved slot }
{
    all || !is_same(starved, maker_of(slot))
}

// Makes the event of the slot at this place, if it has one and may be served.
fn make_allowed(
    world: &mut World,
    slots: &[Slot],
    marks: &mut Vec<bool>,
    starved: Actor,
    all: bool,
    at: usize,
) -> Result<bool, AllocError>
    requires marks { AreMarked slots.now marks.old.items (state_of world.old) }
    requires at { at < length slots.now }
    ensures marks { OnOk result (AreMarked slots.now marks.new.items (state_of world.new)) }
    ensures may { result ≡ Ok true → (slot : Slot') → slice_get slots.now at ≡ Some slot
        → starving.may_go all starved slot ≡ true }
    ensures made { result ≡ Ok true → (slot : Slot') → slice_get slots.now at ≡ Some slot
        → Happens slot (state_of world.old) (state_of world.new) }
    ensures idle { result ≡ Ok false → (slot : Slot') → slice_get slots.now at ≡ Some slot
        → starving.may_go all starved slot ≡ true → IsIdle (state_of world.old) slot }
    ensures stays { result ≡ Ok false → state_of world.new ≡ state_of world.old }
{
    if may_go(all, starved, slots[at]) {
        make_at(world, slots, marks, at)
    } else {
        Ok(false)
    }
}

// Makes the event of the least slot that has one and may be served. False: none has.
fn make_least(
    world: &mut World,
    slots: &[Slot],
    marks: &mut Vec<bool>,
    starved: Actor,
    all: bool,
) -> Result<bool, AllocError>
    requires { AreMarked slots.now marks.old.items (state_of world.old) }
    ensures marks { OnOk result (AreMarked slots.now marks.new.items (state_of world.new)) }
    ensures made { result ≡ Ok true
        → MakesLeast all starved slots.now (state_of world.old) (state_of world.new) }
    ensures idle { result ≡ Ok false
        → AreIdleBelow all starved slots.now (length slots.now) (state_of world.old) }
    ensures stays { result ≡ Ok false → state_of world.new ≡ state_of world.old }
{
    for at in 0..slots.len() {
        if make_allowed(world, slots, marks, starved, all, at)? {
            return Ok(true);
        }
    }
    Ok(false)
}

// Makes the event of the least slot of another actor; where none has one, that of the least slot.
fn make_starving(
    world: &mut World,
    slots: &[Slot],
    marks: &mut Vec<bool>,
    starved: Actor,
) -> Result<(), AllocError>
    requires marks { AreMarked slots.now marks.old.items (state_of world.old) }
    requires ready { ¬ IsAllAt (IsIdle (state_of world.old)) slots.now }
    ensures marks { OnOk result (AreMarked slots.now marks.new.items (state_of world.new)) }
    ensures made { OnOk result
        (MakesStarving starved slots.now (state_of world.old) (state_of world.new)) }
{
    if make_least(world, slots, marks, starved, false)? {
        return Ok(());
    }
    if make_least(world, slots, marks, starved, true)? {
        return Ok(());
    }
    unreachable!()
}

/// Runs a world of this input and setting until it is done, and serves one actor last: each event is that of the
/// first slot that has one and isn't this actor's; where no other has one, that of the first slot that has one.
/// `bouts` is the number of events.
pub fn replay_starving(
    alloc: Global,
    input: &Input,
    setting: &Setting,
    starved: Actor,
) -> Result<Run, AllocError>
    requires input { IsValidInput input.now }
    requires setting { IsValidSetting setting.now }
    ensures run { IfOk result (λ run. IsRunOf input.now setting.now
        (first_rest setting.now).line run.journal run) }
    ensures order { IfOk result (λ run.
        IsStarvingReplay (task_of input.now setting.now) starved run) }
    ensures bound { IfOk result (λ run. run.bouts
        ≤ most_events input.now setting.now (last_epoch run.journal)) }
{
    events_are_few();
    events_fit();
    let slots = slots_of(alloc, setting)?;
    let mut marks = all_marked(alloc, slots.len())?;
    let mut world = World::start(alloc, input, setting)?;
    for events in 0..u64::MAX {
        if world.done() {
            return world.finish(events);
        }
        make_starving(&mut world, &slots, &mut marks, starved)?;
    }
    unreachable!()
}
