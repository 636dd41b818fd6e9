ghost use Rattle.std.specs.Prelude.{◌≡◌};
ghost use Rattle.epoch_tags.specs.declared.actor.Actor.TheVariants.{Feeder};
ghost use Rattle.ring_links.specs.Rings.{AreEnds, IsSameIn, IsSameOut};

use super::{next, put};
use epoch_tags::Actor;
use ring_links::{RingIn, RingOut, beside, ring};
use std::test::*;

#[test]
fn a_ring_of_two_places_takes_two_messages(rt: HostRuntime) -> Result<(), Fail> {
    let (mut out, mut inn) = ring(rt.alloc(), Actor::Feeder(0), Actor::Controller, 2)?;
    assert!(rt; !out.refused(), "a new ring");
    let first = put(&mut out, 1);
    let second = put(&mut out, 2);
    let third = put(&mut out, 3);
    assert!(rt;
        (first, second, third) == (None, None, Some(3)),
        "what comes back"
    );
    assert!(rt; out.refused(), "the last put");
    assert!(rt; beside(&mut out, &mut inn) == 2, "left");
    assert!(rt; !out.refused(), "held together");
    assert!(rt; inn.known() == 2, "known");
    let taken = (next(&mut inn), next(&mut inn));
    assert!(rt; taken == (Some(1), Some(2)), "what is taken");
    assert!(rt; beside(&mut out, &mut inn) == 0, "none left");
    assert!(rt; next(&mut inn) == None, "nothing more");
    Ok(())
}

// An end sees what the other did, though nobody held them together.
#[test]
fn a_ring_of_one_place_takes_one_message_at_a_time(rt: HostRuntime) -> Result<(), Fail> {
    let (mut out, mut inn) = ring(rt.alloc(), Actor::Feeder(0), Actor::Controller, 1)?;
    let refused = (put(&mut out, 1), put(&mut out, 2));
    assert!(rt; refused == (None, Some(2)), "one place");
    assert!(rt; next(&mut inn) == Some(1), "the first");
    let refused = (put(&mut out, 3), put(&mut out, 4));
    assert!(rt; refused == (None, Some(4)), "the same place");
    let taken = (next(&mut inn), next(&mut inn));
    assert!(rt; taken == (Some(3), None), "the second");
    Ok(())
}

// Puts messages numbered from 0; how many are taken.
fn fill(out: &mut RingOut, count: u32) -> u32
    requires { out.old.from ≡ Feeder 0 }
    ensures { IsSameOut out.old out.new }
{
    let mut taken = 0u32;
    for number in 0..count {
        if put(out, number).is_none() {
            taken = taken.saturating_add(1);
        }
    }
    taken
}

// How many messages come in the order of their numbers, from 0 on.
fn drain(inn: &mut RingIn, count: u32) -> u32
    ensures { IsSameIn inn.old inn.new }
{
    for number in 0..count {
        if next(inn) != Some(number) {
            return number;
        }
    }
    count
}

#[test]
fn a_ring_of_4096_places_takes_as_many_messages(rt: HostRuntime) -> Result<(), Fail> {
    let (mut out, mut inn) = ring(rt.alloc(), Actor::Feeder(0), Actor::Controller, 4096)?;
    assert!(rt; fill(&mut out, 4097) == 4096, "put");
    assert!(rt; beside(&mut out, &mut inn) == 4096, "left");
    assert!(rt; drain(&mut inn, 4097) == 4096, "taken");
    assert!(rt; beside(&mut out, &mut inn) == 0, "none left");
    Ok(())
}

// Puts a message, holds the ends together and takes the message before; whether all went so.
fn go_round(out: &mut RingOut, inn: &mut RingIn, number: u32) -> bool
    requires ends { AreEnds out.old inn.old }
    requires from { out.old.from ≡ Feeder 0 }
    ensures ends { AreEnds out.new inn.new }
    ensures from { out.new.from ≡ Feeder 0 }
{
    let refused = put(out, number);
    let left = beside(out, inn);
    let taken = next(inn);
    refused.is_none() && left == 2 && taken == number.checked_sub(1)
}

// How many rounds go well.
fn rounds(out: &mut RingOut, inn: &mut RingIn, count: u32) -> u32
    requires ends { AreEnds out.old inn.old }
    requires from { out.old.from ≡ Feeder 0 }
{
    for number in 1..count {
        if !go_round(out, inn, number) {
            return number;
        }
    }
    count
}

#[test]
fn messages_go_round_a_ring_of_three_places(rt: HostRuntime) -> Result<(), Fail> {
    let (mut out, mut inn) = ring(rt.alloc(), Actor::Feeder(0), Actor::Controller, 3)?;
    assert!(rt; put(&mut out, 0) == None, "the first");
    assert!(rt; rounds(&mut out, &mut inn, 1000) == 1000, "rounds");
    Ok(())
}
