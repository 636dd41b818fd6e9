// The rings of a run: each is made for two actors, and its ends come to their seats.

ghost use Rattle.std.specs.Prelude.{◌≡◌, ◌<◌, ◌≤◌, ◌+◌, ◌^◌, IfOk, OnOk};
ghost use Rattle.actor_core.specs.Numbers.{count_of};
ghost use Rattle.ring_runtime.specs.Wiring.{AreNew, AreWiredBelow, GivesIn, GivesOut, Wires, WiresRow};

use crate::seat::RingSeat;
use actor_core::Cast;
use epoch_tags::Actor;
use ring_links::{Outlet, RingIn, ring};
use std::alloc::{AllocError, Global};

// How many places the ring of a link has.
const PLACES: u32 = 64;

// A new ring, with nothing waiting for it.
fn new_ring(alloc: Global, sender: Actor, receiver: Actor) -> Result<(Outlet, RingIn), AllocError>
    ensures { IfOk result (λ made. AreNew sender receiver made.0 made.1) }
{
    let (out, inn) = ring(alloc, sender, receiver, PLACES)?;
    Ok((Outlet::new(alloc, out), inn))
}

fn give_out(
    seats: &mut Vec<RingSeat>,
    from: usize,
    to: usize,
    outlet: Outlet,
) -> Result<(), AllocError>
    ensures { OnOk result (GivesOut from to outlet seats.old.items seats.new.items) }
{
    if from < seats.len() {
        seats[from].put_out(to, outlet)
    } else {
        Err(AllocError)
    }
}

fn give_in(seats: &mut Vec<RingSeat>, from: usize, to: usize, inn: RingIn) -> Result<(), AllocError>
    ensures { OnOk result (GivesIn from to inn seats.old.items seats.new.items) }
{
    if to < seats.len() {
        seats[to].put_in(from, inn)
    } else {
        Err(AllocError)
    }
}

// Makes a ring from one actor to another, and gives its ends to the two.
fn wire(
    alloc: Global,
    seats: &mut Vec<RingSeat>,
    from: usize,
    to: usize,
    sender: Actor,
    receiver: Actor,
) -> Result<(), AllocError>
    ensures { OnOk result (Wires from to sender receiver seats.old.items seats.new.items) }
{
    let (outlet, inn) = new_ring(alloc, sender, receiver)?;
    give_out(seats, from, to, outlet)?;
    give_in(seats, from, to, inn)
}

// Makes the rings from one actor to all to which it has a link.
fn wire_from(
    alloc: Global,
    seats: &mut Vec<RingSeat>,
    cast: Cast,
    from: u32,
) -> Result<(), AllocError>
    requires { count_of cast < 2 ^ 32 }
    ensures { OnOk result (WiresRow cast from (count_of cast)
        seats.old.items seats.new.items) }
{
    let sender = cast.actor_at(from);
    for to in 0..cast.count() {
        let receiver = cast.actor_at(to);
        if cast.has_link(sender, receiver) {
            wire(alloc, seats, from as usize, to as usize, sender, receiver)?;
        }
    }
    Ok(())
}

// Makes the rings of all links of a run.
pub(crate) fn wire_all(
    alloc: Global,
    seats: &mut Vec<RingSeat>,
    cast: Cast,
) -> Result<(), AllocError>
    requires { count_of cast < 2 ^ 32 }
    ensures { OnOk result (AreWiredBelow cast (count_of cast)
        seats.old.items seats.new.items) }
{
    for from in 0..cast.count() {
        wire_from(alloc, seats, cast, from)?;
    }
    Ok(())
}
