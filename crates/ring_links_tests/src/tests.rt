ghost use Rattle.std.specs.Prelude.{◌≡◌};
ghost use Rattle.epoch_tags.specs.declared.actor.Actor.TheVariants.{Feeder};
ghost use Rattle.ring_links.specs.Rings.{IsSameIn, IsSameOut};

mod outlets;
mod rings;
mod threads;

use epoch_tags::{Actor, Envelope, Msg, ToController};
use ring_links::{RingIn, RingOut};

fn message(number: u32) -> Msg {
    Msg::Controller(ToController::Ask { dr: number, ds: 0 })
}

fn number_of(message: Envelope) -> u32 {
    match message.msg {
        Msg::Controller(ToController::Ask { dr, .. }) => dr,
        _ => u32::MAX,
    }
}

// Puts a message of feeder 0 with this number; the number that comes back, where one does.
fn put(out: &mut RingOut, number: u32) -> Option<u32>
    requires { out.old.from ≡ Feeder 0 }
    ensures { IsSameOut out.old out.new }
{
    let from = Actor::Feeder(0);
    let msg = message(number);
    match out.put(Envelope { from, msg }) {
        Ok(()) => None,
        Err(back) => Some(number_of(back)),
    }
}

// The number of the next message, where there is one.
fn next(inn: &mut RingIn) -> Option<u32>
    ensures { IsSameIn inn.old inn.new }
{
    match inn.take() {
        Some(message) => Some(number_of(message)),
        None => None,
    }
}
