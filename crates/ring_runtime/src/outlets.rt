// The outlets through which an actor sends, by the numbers of the receivers.

ghost use Rattle.std.specs.Prelude.{◌≡◌, ◌<◌, ◌==◌, ◌++◌, ◌∷◌, [], ℕ, None, Some, true, false, IfOk, OnOk, if◌then◌else◌, length, map, slice_index_or, slice_set};
ghost use Rattle.epoch_tags.specs.declared.actor.Actor.{Actor as Actor'};
ghost use Rattle.actor_core.specs.Lists.{posted_to};
ghost use Rattle.ring_links.specs.Outlets.{OutletView};
ghost use Rattle.ring_runtime.specs.Bouts.{SomeWaits};
ghost use Rattle.ring_runtime.specs.Seats.{AllStuck, IsStuckAt, NoneWaits, out_address, sent_at, sent_through, sent_to, waiting_at, waiting_in};

use crate::slots::no_slots;
use actor_core::Cast;
use epoch_tags::{Msg, Post, Sends};
use ring_links::Outlet;
use std::alloc::{AllocError, Global};
use std::marker::Model;
use std::mem;

/// The outlets of an actor, by the numbers of the receivers.
#[derive(Drop)]
pub struct Outlets {
    slots: Vec<Option<Outlet>>,
    // False only where nothing waits.
    waits: bool,
}

impl Model for Outlets {
    ghost use Rattle.std.specs.Prelude.{◌≡◌, List, Option, false};
    ghost use Rattle.ring_links.specs.Outlets.{OutletView};
    ghost use Rattle.ring_runtime.specs.Seats.{NoneWaits};

    ghost Value = { List (Option OutletView) };

    ghost view = { λ outlets. outlets.slots.items };

    ghost invariant = { λ outlets. outlets.waits ≡ false → NoneWaits outlets.slots.items };
}

// Puts what waits, as far as there are places.
fn flush_at(slot: &mut Option<Outlet>) -> bool
    ensures same { sent_at slot.new ≡ sent_at slot.old }
    ensures moved { result ≡ true → waiting_at slot.new < waiting_at slot.old }
    ensures still { result ≡ false → waiting_at slot.new ≡ waiting_at slot.old }
    ensures stuck { result ≡ false → IsStuckAt slot.old }
    ensures ring { out_address slot.new ≡ out_address slot.old }
{
    match slot {
        Some(outlet) => outlet.flush(),
        None => false,
    }
}

// The same of each outlet; whether any message left.
fn flush_each(slots: &mut [Option<Outlet>]) -> bool
    ensures same { (n : ℕ) → sent_to slots.new n ≡ sent_to slots.old n }
    ensures moved { result ≡ true → waiting_in slots.new < waiting_in slots.old }
    ensures still { result ≡ false → waiting_in slots.new ≡ waiting_in slots.old }
    ensures stuck { result ≡ false → AllStuck slots.old }
    ensures rings { map out_address slots.new ≡ map out_address slots.old }
{
    let mut moved = false;
    for place in 0..slots.len() {
        if flush_at(&mut slots[place]) {
            moved = true;
        }
    }
    moved
}

// How many messages wait in an outlet, where there is one.
fn waiting(slot: &Option<Outlet>) -> u64
    ensures { result ≡ waiting_at slot.now }
{
    match slot {
        Some(outlet) => outlet.waiting(),
        None => 0,
    }
}

fn any_waits(slots: &[Option<Outlet>]) -> bool
    ensures some { result ≡ true → SomeWaits slots.now }
    ensures none { result ≡ false → NoneWaits slots.now }
{
    for slot in slots {
        if waiting(slot) > 0 {
            return true;
        }
    }
    false
}

// Lets a message wait. An error too where there is no outlet.
fn add_at(slot: &mut Option<Outlet>, msg: Msg) -> Result<(), AllocError>
    ensures sent { OnOk result (sent_at slot.new ≡ sent_at slot.old ++ msg ∷ []) }
    ensures ring { out_address slot.new ≡ out_address slot.old }
{
    match slot {
        Some(outlet) => outlet.add(msg),
        None => Err(AllocError),
    }
}

// Lets a message to the actor of this number wait.
fn add_to(slots: &mut Vec<Option<Outlet>>, place: usize, msg: Msg) -> Result<(), AllocError>
    ensures sent { OnOk result ((n : ℕ) → sent_to slots.new.items n
        ≡ (if place == n then sent_to slots.old.items n ++ msg ∷ []
        else sent_to slots.old.items n)) }
    ensures rings { map out_address slots.new.items ≡ map out_address slots.old.items }
{
    if place < slots.len() {
        add_at(&mut slots[place], msg)
    } else {
        Err(AllocError)
    }
}

impl Outlets {
    /// So many places for outlets, with none there.
    pub fn new(alloc: Global, count: u32) -> Result<Outlets, AllocError>
        ensures none { IfOk result (λ outlets. (n : ℕ) → slice_index_or outlets n None ≡ None) }
        ensures places { IfOk result (λ outlets. length outlets ≡ count) }
    {
        let slots = no_slots(alloc, count)?;
        Ok(Outlets { slots, waits: true })
    }

    // Gets the outlet to the actor of this number.
    pub(crate) fn put(&mut self, place: usize, outlet: Outlet) -> Result<(), AllocError>
        ensures { OnOk result ((place < length self.old)
            × (self.new ≡ slice_set self.old place (Some outlet))) }
    {
        self.waits = true;
        if place < self.slots.len() {
            self.slots[place] = Some(outlet);
            Ok(())
        } else {
            Err(AllocError)
        }
    }

    // Puts what waits in each outlet, as far as there are places; whether any message left. It takes no memory.
    pub(crate) fn flush(&mut self) -> bool
        ensures same { (n : ℕ) → sent_to self.new n ≡ sent_to self.old n }
        ensures moved { result ≡ true → waiting_in self.new < waiting_in self.old }
        ensures still { result ≡ false → waiting_in self.new ≡ waiting_in self.old }
        ensures stuck { result ≡ false → AllStuck self.old }
        ensures rings { map out_address self.new ≡ map out_address self.old }
    {
        if !self.waits {
            return false;
        }
        let moved = flush_each(self.slots.as_mut_slice());
        self.waits = any_waits(self.slots.as_slice());
        moved
    }

    // Lets a message to the actor of this number wait behind the others.
    fn add(&mut self, place: usize, msg: Msg) -> Result<(), AllocError>
        ensures sent { OnOk result ((n : ℕ) → sent_to self.new n
            ≡ (if place == n then sent_to self.old n ++ msg ∷ [] else sent_to self.old n)) }
        ensures rings { map out_address self.new ≡ map out_address self.old }
    {
        self.waits = true;
        add_to(&mut self.slots, place, msg)
    }

    fn post(&mut self, cast: Cast, post: Post) -> Result<(), AllocError>
        ensures rings { map out_address self.new ≡ map out_address self.old }
        ensures sent { OnOk result ((a : Actor') → sent_through cast self.new a
            ≡ sent_through cast self.old a ++ posted_to a (post ∷ [])) }
    {
        let Post { to, msg } = post;
        match cast.number(to) {
            Some(place) => self.add(place, msg),
            None => Err(AllocError),
        }
    }

    // Lets all posts wait, in order.
    pub(crate) fn post_all(&mut self, cast: Cast, sends: Sends) -> Result<(), AllocError>
        ensures rings { map out_address self.new ≡ map out_address self.old }
        ensures sent { OnOk result ((a : Actor') → sent_through cast self.new a
            ≡ sent_through cast self.old a ++ posted_to a sends) }
    {
        for post in sends.into_vec() {
            self.post(cast, post)?;
        }
        Ok(())
    }

    // The outlets, which are no longer here.
    pub(crate) fn take_slots(&mut self, alloc: Global) -> Vec<Option<Outlet>>
        ensures slots { result.items ≡ self.old }
        ensures none { self.new ≡ [] }
    {
        mem::replace(&mut self.slots, Vec::new(alloc))
    }

    // The outlets are these.
    pub(crate) fn give_slots(&mut self, slots: Vec<Option<Outlet>>)
        ensures { self.new ≡ slots.items }
    {
        self.waits = any_waits(slots.as_slice());
        self.slots = slots;
    }

    // Whether a message waits in any of them.
    pub(crate) fn any_waits(&self) -> bool
        ensures some { result ≡ true → SomeWaits self.now }
        ensures none { result ≡ false → NoneWaits self.now }
    {
        any_waits(self.slots.as_slice())
    }
}
