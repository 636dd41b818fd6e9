ghost use Rattle.std.specs.Prelude.{◌≡◌};
ghost use Rattle.ring_links.specs.Rings.{AreEnds};

use super::{message, next};
use epoch_tags::Actor;
use ring_links::{Outlet, RingIn, ring};
use std::alloc::AllocError;
use std::test::*;

// Lets messages numbered from 1 wait.
fn add_up_to(outlet: &mut Outlet, last: u32) -> Result<(), AllocError>
    ensures { outlet.new.out ≡ outlet.old.out }
{
    for number in 1..=last {
        outlet.add(message(number))?;
    }
    Ok(())
}

// Flushes and takes two; whether any left, how many wait, and what was taken.
fn flush_and_take(outlet: &mut Outlet, inn: &mut RingIn) -> (bool, u64, Option<u32>, Option<u32>) {
    let moved = outlet.flush();
    (moved, outlet.waiting(), next(inn), next(inn))
}

#[test]
fn what_waits_is_put_in_its_order(rt: HostRuntime) -> Result<(), Fail> {
    let (out, mut inn) = ring(rt.alloc(), Actor::Feeder(0), Actor::Controller, 2)?;
    let mut outlet = Outlet::new(rt.alloc(), out);
    add_up_to(&mut outlet, 5)?;
    let first = flush_and_take(&mut outlet, &mut inn);
    assert!(rt; first == (true, 3, Some(1), Some(2)), "two places");
    let second = flush_and_take(&mut outlet, &mut inn);
    assert!(rt; second == (true, 1, Some(3), Some(4)), "two more");
    let third = flush_and_take(&mut outlet, &mut inn);
    assert!(rt; third == (true, 0, Some(5), None), "the last");
    let fourth = flush_and_take(&mut outlet, &mut inn);
    assert!(rt; fourth == (false, 0, None, None), "nothing more");
    Ok(())
}

// Flushes, and holds the ring's ends together; whether any left, and how many are in the ring.
fn flush_beside(outlet: &mut Outlet, inn: &mut RingIn) -> (bool, u64)
    requires { AreEnds outlet.old.out inn.old }
{
    let moved = outlet.flush();
    (moved, outlet.beside(inn))
}

#[test]
fn what_finds_no_place_waits(rt: HostRuntime) -> Result<(), Fail> {
    let (out, mut inn) = ring(rt.alloc(), Actor::Feeder(0), Actor::Controller, 1)?;
    let mut outlet = Outlet::new(rt.alloc(), out);
    add_up_to(&mut outlet, 2)?;
    let first = flush_beside(&mut outlet, &mut inn);
    assert!(rt; first == (true, 1), "one place");
    assert!(rt; !outlet.flush(), "no other");
    assert!(rt; outlet.waiting() == 1, "waits");
    Ok(())
}
