// More messages than a count of few bits could tell.

ghost use Rattle.std.specs.Prelude.{◌≡◌, IfOk};
ghost use Rattle.epoch_tags.specs.declared.actor.Actor.TheVariants.{Feeder};

use super::{ask, number_of};
use epoch_tags::Actor;
use ruled_links::{Actors, Inbox, Mouth, inbox};
use std::alloc::{AllocError, Global};
use std::sync::Wait;
use std::test::*;

// How many messages go through.
const COUNT: u32 = 1_100_000;

// An inbox of the controller, and the mouth of its one sender.
fn of_one(alloc: Global) -> Result<(Inbox, Mouth), AllocError>
    ensures { IfOk result (λ ends. ends.1.from ≡ Feeder 0) }
{
    let senders = Actors::from_vec(Vec::from_slice(alloc, &[Actor::Feeder(0)])?);
    let (inbox, mouths) = inbox(alloc, Actor::Controller, &senders)?;
    let mut mouths = mouths.into_vec();
    let mouth = mouths.remove(0);
    Ok((inbox, mouth))
}

// Puts one message after another, and takes each behind eight others; how many came in their order.
fn carried<R: Wait>(rt: &R, inbox: &mut Inbox, mouth: &mut Mouth) -> u32
    requires { mouth.old.from ≡ Feeder 0 }
{
    let mut came = 0u32;
    for number in 0..COUNT {
        if mouth.put(rt, ask(Actor::Feeder(0), number)).is_err() {
            return came;
        }
        if number >= 8 && inbox.take(rt).map(number_of) == Some(came) {
            came = came.wrapping_add(1);
        }
    }
    came
}

#[test]
fn a_mouth_takes_more_than_a_million_messages(rt: HostRuntime) -> Result<(), Fail> {
    let (mut inbox, mut mouth) = of_one(rt.alloc())?;
    assert_eq!(rt; carried(&rt, &mut inbox, &mut mouth), COUNT - 8);
    Ok(())
}
