// The first slot that has an event, found without looking at each.

ghost use Rattle.std.specs.Prelude.{◌≡◌, ◌+◌, ◌%◌, ◌<◌, length, slice_get, Some, Ok, OnOk, true, false};
ghost use Rattle.actor_core.specs.declared.step.Step.TheVariants.{Took as Took', Idle as Idle'};
ghost use Rattle.actor_core.specs.Lists.{same_actor};
ghost use Rattle.actor_core.specs.Elements.{IsAllAt};
ghost use Rattle.link_trace.specs.declared.slots.Slot.{Slot as Slot'};
ghost use Rattle.link_trace.specs.States.{state_of};
ghost use Rattle.link_trace.specs.Order.{IsIdle, Happens, MakesFirst};
ghost use Rattle.link_trace.specs.Marks.{AreMarked, IsMarkedFor};
ghost use Rattle.link_trace.specs.Marks as marked;

use crate::slots::Slot;
use crate::world::World;
use actor_core::Step;
use epoch_tags::Actor;
use std::alloc::AllocError;

// Makes the event of a slot, if it has one.
fn make(world: &mut World, slot: Slot) -> Result<Step, AllocError>
    ensures took { result ≡ Ok Took' → Happens slot (state_of world.old) (state_of world.new) }
    ensures idle { result ≡ Ok Idle'
        → IsIdle (state_of world.old) slot × (state_of world.new ≡ state_of world.old) }
{
    match slot {
        Slot::Begin(p) => world.begin(p),
        Slot::Link(from, to) => world.deliver(from, to),
    }
}

pub(crate) fn is_same(one: Actor, other: Actor) -> bool
    ensures { result ≡ same_actor one other }
{
    match one {
        Actor::Feeder(p) => match other {
            Actor::Feeder(q) => p == q,
            Actor::Joiner(_) => false,
            Actor::Controller => false,
            Actor::Collector => false,
        },
        Actor::Joiner(i) => match other {
            Actor::Feeder(_) => false,
            Actor::Joiner(j) => i == j,
            Actor::Controller => false,
            Actor::Collector => false,
        },
        Actor::Controller => match other {
            Actor::Feeder(_) => false,
            Actor::Joiner(_) => false,
            Actor::Controller => true,
            Actor::Collector => false,
        },
        Actor::Collector => match other {
            Actor::Feeder(_) => false,
            Actor::Joiner(_) => false,
            Actor::Controller => false,
            Actor::Collector => true,
        },
    }
}

// The actor whose events can give a slot an event.
fn filler_of(slot: Slot) -> Actor
    ensures { result ≡ marked.filler_of slot }
{
    match slot {
        Slot::Begin(p) => Actor::Feeder(p),
        Slot::Link(from, _) => from,
    }
}

// The actor that makes a slot's event.
pub(crate) fn maker_of(slot: Slot) -> Actor
    ensures { result ≡ marked.maker_of slot }
{
    match slot {
        Slot::Begin(p) => Actor::Feeder(p),
        Slot::Link(_, to) => to,
    }
}

// Marks the slots to which an event of this actor can give one.
fn mark(slots: &[Slot], marks: &mut Vec<bool>, actor: Actor)
    requires { length marks.old.items ≡ length slots.now }
    ensures { IsMarkedFor actor slots.now marks.old.items marks.new.items }
{
    for n in 0..slots.len() {
        if is_same(actor, filler_of(slots[n])) {
            marks[n] = true;
        }
    }
}

// Makes the event of the slot at this place, if it has one, and mends the marks.
pub(crate) fn make_at(
    world: &mut World,
    slots: &[Slot],
    marks: &mut Vec<bool>,
    at: usize,
) -> Result<bool, AllocError>
    requires marks { AreMarked slots.now marks.old.items (state_of world.old) }
    requires at { at < length slots.now }
    ensures marks { OnOk result (AreMarked slots.now marks.new.items (state_of world.new)) }
    ensures made { result ≡ Ok true → (slot : Slot') → slice_get slots.now at ≡ Some slot
        → Happens slot (state_of world.old) (state_of world.new) }
    ensures idle { result ≡ Ok false → (slot : Slot') → slice_get slots.now at ≡ Some slot
        → IsIdle (state_of world.old) slot }
    ensures stays { result ≡ Ok false → state_of world.new ≡ state_of world.old }
{
    if !marks[at] {
        return Ok(false);
    }
    let slot = slots[at];
    match make(world, slot)? {
        Step::Took => {
            mark(slots, marks, maker_of(slot));
            Ok(true)
        }
        Step::Idle => {
            marks[at] = false;
            Ok(false)
        }
    }
}

// Makes the event of the first slot that has one, going round from the place that a word names.
pub(crate) fn make_first(
    world: &mut World,
    slots: &[Slot],
    marks: &mut Vec<bool>,
    word: u32,
) -> Result<(), AllocError>
    requires marks { AreMarked slots.now marks.old.items (state_of world.old) }
    requires ready { ¬ IsAllAt (IsIdle (state_of world.old)) slots.now }
    ensures marks { OnOk result (AreMarked slots.now marks.new.items (state_of world.new)) }
    ensures made { OnOk result
        (MakesFirst slots.now word (state_of world.old) (state_of world.new)) }
{
    let count = slots.len();
    for i in 0..count {
        let at = (word as usize + i) % count;
        if make_at(world, slots, marks, at)? {
            return Ok(());
        }
    }
    unreachable!()
}
