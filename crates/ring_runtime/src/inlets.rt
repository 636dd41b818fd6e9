// The ends at which an actor receives, by the numbers of the senders.

ghost use Rattle.std.specs.Prelude.{◌≡◌, ◌≢◌, ◌<◌, ◌≤◌, ◌==◌, ◌++◌, ◌∷◌, [], ℕ, None, Some, true, false, IfSome, IfNone, IfOk, OnOk, if◌then◌else◌, length, map, slice_index_or, slice_set};
ghost use Rattle.ring_runtime.specs.Seats.{NoneKnown, in_address, known_at, received_at, received_from};
ghost use Rattle.ring_runtime.specs.Bouts.{SomeKnown};
ghost use Rattle.ring_runtime.specs.Joins.{AllHeld, AreEndsOf};

use crate::holding::hold_at;
use crate::slots::no_slots;
use epoch_tags::Envelope;
use ring_links::{Outlet, RingIn};
use std::alloc::{AllocError, Global};
use std::marker::Model;

/// The ends of the rings to an actor, by the numbers of the senders.
#[derive(Drop)]
pub struct Inlets {
    slots: Vec<Option<RingIn>>,
    // Where the next look for a message begins.
    next: usize,
}

impl Model for Inlets {
    ghost use Rattle.std.specs.Prelude.{List, Option};
    ghost use Rattle.ring_links.specs.Rings.{Receiving};

    ghost Value = { List (Option Receiving) };

    ghost view = { λ inlets. inlets.slots.items };
}

// Takes a message out of a ring, where there is one.
fn take_at(slot: &mut Option<RingIn>) -> Option<Envelope>
    ensures none { IfNone result (known_at slot.old ≡ 0) }
    ensures same { IfNone result (slot.new ≡ slot.old) }
    ensures some { IfSome result (λ m. received_at slot.new ≡ received_at slot.old ++ m.msg ∷ []) }
    ensures ring { in_address slot.new ≡ in_address slot.old }
{
    match slot {
        Some(inn) => inn.take(),
        None => None,
    }
}

// How many messages are known to be left in a ring, where there is one.
fn known(slot: &Option<RingIn>) -> u64
    ensures { result ≡ known_at slot.now }
{
    match slot {
        Some(inn) => inn.known(),
        None => 0,
    }
}

fn any_known(slots: &[Option<RingIn>]) -> bool
    ensures some { result ≡ true → SomeKnown slots.now }
    ensures none { result ≡ false → NoneKnown slots.now }
{
    for slot in slots {
        if known(slot) > 0 {
            return true;
        }
    }
    false
}

// Takes a message of the first ring between these places that has one.
fn take_between(slots: &mut [Option<RingIn>], low: usize, high: usize) -> Option<(usize, Envelope)>
    requires { high ≤ length slots.old }
    ensures none { IfNone result ((n : ℕ) → low ≤ n → n < high
        → known_at (slice_index_or slots.old n None) ≡ 0) }
    ensures same { IfNone result (slots.new ≡ slots.old) }
    ensures some { IfSome result (λ taken. (n : ℕ) → received_from slots.new n
        ≡ (if taken.0 == n then received_from slots.old n ++ taken.1.msg ∷ []
        else received_from slots.old n)) }
    ensures rings { map in_address slots.new ≡ map in_address slots.old }
{
    for place in low..high {
        if let Some(m) = take_at(&mut slots[place]) {
            return Some((place, m));
        }
    }
    None
}

impl Inlets {
    /// So many places for ends, with none there.
    pub fn new(alloc: Global, count: u32) -> Result<Inlets, AllocError>
        ensures none { IfOk result (λ inlets. (n : ℕ) → slice_index_or inlets n None ≡ None) }
        ensures places { IfOk result (λ inlets. length inlets ≡ count) }
    {
        let slots = no_slots(alloc, count)?;
        Ok(Inlets { slots, next: 0 })
    }

    // Gets the end of the ring from the actor of this number.
    pub(crate) fn put(&mut self, place: usize, inn: RingIn) -> Result<(), AllocError>
        ensures { OnOk result ((place < length self.old)
            × (self.new ≡ slice_set self.old place (Some inn))) }
    {
        if place < self.slots.len() {
            self.slots[place] = Some(inn);
            Ok(())
        } else {
            Err(AllocError)
        }
    }

    // Takes a message of the next ring that has one, and where it is from.
    pub(crate) fn take(&mut self) -> Option<(usize, Envelope)>
        ensures none { IfNone result (NoneKnown self.old) }
        ensures same { IfNone result (self.new ≡ self.old) }
        ensures some { IfSome result (λ taken. (n : ℕ) → received_from self.new n
            ≡ (if taken.0 == n then received_from self.old n ++ taken.1.msg ∷ []
            else received_from self.old n)) }
        ensures rings { map in_address self.new ≡ map in_address self.old }
    {
        let count = self.slots.len();
        let from = self.next.min(count);
        let taken = match take_between(self.slots.as_mut_slice(), from, count) {
            Some(taken) => Some(taken),
            None => take_between(self.slots.as_mut_slice(), 0, from),
        };
        if let Some((place, _)) = &taken {
            self.next = place.saturating_add(1);
        }
        taken
    }

    // Holds an outlet of the actor of this number and the end to which it leads together, where there are two.
    pub(crate) fn hold(&mut self, sender: usize, out: &mut Option<Outlet>)
        requires { AreEndsOf out.old (slice_index_or self.old sender None) }
        ensures held { AllHeld out.old (slice_index_or self.old sender None)
            out.new (slice_index_or self.new sender None) }
        ensures others { (n : ℕ) → n ≢ sender
            → slice_index_or self.new n None ≡ slice_index_or self.old n None }
        ensures places { length self.new ≡ length self.old }
    {
        if sender < self.slots.len() {
            hold_at(out, &mut self.slots[sender]);
        }
    }

    // Whether a message is known to be left in any ring.
    pub(crate) fn any_known(&self) -> bool
        ensures some { result ≡ true → SomeKnown self.now }
        ensures none { result ≡ false → NoneKnown self.now }
    {
        any_known(self.slots.as_slice())
    }
}
