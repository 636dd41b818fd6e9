ghost use Rattle.std.specs.Prelude.{◌≡◌};
ghost use Rattle.epoch_tags.specs.declared.actor.Actor.TheVariants.{Feeder};
ghost use Rattle.ring_links.specs.Rings.{AreEnds, IsSameIn, IsSameOut};

use super::{next, put};
use epoch_tags::Actor;
use ring_links::{RingIn, RingOut, ring};
use std::test::*;
use std::thread;
use std::thread::Threads;

// Puts messages numbered from 0, in so many tries; how many are taken.
fn put_some(mut out: RingOut, tries: u32) -> (RingOut, u32)
    requires { out.from ≡ Feeder 0 }
    ensures { IsSameOut out result.0 }
{
    let mut number = 0u32;
    for _ in 0..tries {
        if put(&mut out, number).is_none() {
            number = number.saturating_add(1);
        }
    }
    (out, number)
}

// How many of so many tries gave the message with the next number, from `first` on; the last that is counted is the one
// before a message out of order.
fn take_some(mut inn: RingIn, first: u32, tries: u32) -> (RingIn, u32)
    ensures { IsSameIn inn result.0 }
{
    let mut number = first;
    for _ in 0..tries {
        match next(&mut inn) {
            Some(taken) if taken == number => number = number.saturating_add(1),
            Some(_) => return (inn, number),
            None => {}
        }
    }
    (inn, number)
}

// One thread puts while another takes, and then what is left is taken: how many were put, and how many came in order.
fn put_beside_take<R: Threads + Sync>(rt: &R, out: RingOut, inn: RingIn, tries: u32) -> (u32, u32)
    requires ends { AreEnds out inn }
    requires from { out.from ≡ Feeder 0 }
{
    let ((_out, sent), (inn, early)) = thread::join(
        rt,
        move ||
            requires { out.from ≡ Feeder 0 }
            ensures { IsSameOut out result.0 }
        { put_some(out, tries) },
        move ||
            ensures { IsSameIn inn result.0 }
        { take_some(inn, 0, tries) },
    );
    let (_inn, taken) = take_some(inn, early, sent);
    (sent, taken)
}

#[test]
fn messages_of_one_thread_reach_another_in_order(rt: HostRuntime) -> Result<(), Fail> {
    let (out, inn) = ring(rt.alloc(), Actor::Feeder(0), Actor::Controller, 64)?;
    let (sent, taken) = put_beside_take(&rt, out, inn, 100_000);
    assert!(rt; sent >= 64, "all places at least");
    assert!(rt; taken == sent, "what comes in order");
    Ok(())
}
