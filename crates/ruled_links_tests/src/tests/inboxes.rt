ghost use Rattle.std.specs.Prelude.{◌≡◌, IfOk};
ghost use Rattle.epoch_tags.specs.declared.actor.Actor.TheVariants.{Feeder};
ghost use Rattle.ruled_links.specs.Ends.{IsSameOut};
ghost use Rattle.ruled_links.specs.Inboxes.{IsMouthOf, IsSameInbox};

use super::{ask, number_of};
use epoch_tags::{Actor, Envelope};
use ruled_links::{Actors, Inbox, Mouth, gather_mouth, inbox, link};
use std::alloc::{AllocError, Global};
use std::sync::Wait;
use std::test::*;
use std::thread;
use std::thread::Threads;

type Got = Vec<(Actor, u32)>;

fn seen(message: Envelope) -> (Actor, u32) {
    (message.from, number_of(message))
}

fn put_all<R: Wait>(rt: &R, mut mouth: Mouth, from: Actor, count: u32) -> (Mouth, bool)
    requires { mouth.from ≡ from }
    ensures { IsSameOut mouth result.0 }
{
    let mut all = true;
    for number in 0..count {
        all &= mouth.put(rt, ask(from, number)).is_ok();
    }
    (mouth, all)
}

fn take_up_to<R: Wait>(
    rt: &R,
    mut inbox: Inbox,
    mut got: Got,
    tries: u32,
) -> Result<(Inbox, Got), AllocError>
    ensures { IfOk result (λ taken. IsSameInbox inbox taken.0) }
{
    for _ in 0..tries {
        got.reserve(1)?;
        if let Some(message) = inbox.take(rt) {
            got.push(seen(message))?;
        }
    }
    Ok((inbox, got))
}

fn actors(alloc: Global, all: &[Actor]) -> Result<Actors, AllocError>
    ensures { IfOk result (λ actors. actors ≡ all.now) }
{
    Ok(Actors::from_vec(Vec::from_slice(alloc, all)?))
}

// An inbox of the controller with three senders, and their mouths.
fn of_three(alloc: Global) -> Result<(Inbox, Mouth, Mouth, Mouth), AllocError>
    ensures from { IfOk result (λ ends. (ends.1.from ≡ Feeder 0) × (ends.2.from ≡ Feeder 1)
        × (ends.3.from ≡ Feeder 2)) }
    ensures of { IfOk result (λ ends. IsMouthOf ends.1 ends.0 × IsMouthOf ends.2 ends.0
        × IsMouthOf ends.3 ends.0) }
{
    let senders = actors(
        alloc,
        &[Actor::Feeder(0), Actor::Feeder(1), Actor::Feeder(2)],
    )?;
    let (inbox, mouths) = inbox(alloc, Actor::Controller, &senders)?;
    let mut mouths = mouths.into_vec();
    let a = mouths.remove(0);
    let b = mouths.remove(0);
    let c = mouths.remove(0);
    Ok((inbox, a, b, c))
}

// How many are left of each of two senders.
fn left_of_two<R: Wait>(rt: &R, inbox: &mut Inbox, mut a: Mouth, mut b: Mouth) -> (u64, u64)
    requires a { IsMouthOf a inbox.old }
    requires b { IsMouthOf b inbox.old }
    ensures { IsSameInbox inbox.old inbox.new }
{
    (
        gather_mouth(&mut a, inbox, rt),
        gather_mouth(&mut b, inbox, rt),
    )
}

fn put_three<R: Wait>(rt: &R, x: &mut Mouth, y: &mut Mouth) -> bool
    requires { (x.old.from ≡ Feeder 0) × (y.old.from ≡ Feeder 1) }
    ensures { IsSameOut x.old x.new × IsSameOut y.old y.new }
{
    x.put(rt, ask(Actor::Feeder(0), 10)).is_ok()
        && y.put(rt, ask(Actor::Feeder(1), 11)).is_ok()
        && x.put(rt, ask(Actor::Feeder(0), 12)).is_ok()
}

#[test]
fn each_sender_has_a_list_of_its_own(rt: HostRuntime) -> Result<(), Fail> {
    let (inbox, mut x, mut y, _) = of_three(rt.alloc())?;
    assert!(rt; put_three(&rt, &mut x, &mut y));
    let (mut inbox, got) = take_up_to(&rt, inbox, Vec::new(rt.alloc()), 4)?;
    let want = [
        (Actor::Feeder(0), 10),
        (Actor::Feeder(1), 11),
        (Actor::Feeder(0), 12),
    ];
    assert!(rt; got.as_slice() == want.as_slice());
    assert_eq!(rt; left_of_two(&rt, &mut inbox, x, y), (0, 0));
    Ok(())
}

fn link_carries<R: Wait>(
    rt: &R,
    alloc: Global,
    from: Actor,
    to: Actor,
) -> Result<bool, AllocError> {
    let (mut out, mut inn) = link(alloc, from, to)?;
    let sent = out.put(rt, ask(from, 7)).is_ok();
    Ok(sent && inn.take(rt).map(seen) == Some((from, 7)))
}

fn inbox_carries<R: Wait>(
    rt: &R,
    alloc: Global,
    from: Actor,
    to: Actor,
) -> Result<bool, AllocError> {
    let senders = actors(alloc, &[from])?;
    let (mut inbox, mouths) = inbox(alloc, to, &senders)?;
    let mut mouth = mouths.into_vec().remove(0);
    let sent = mouth.put(rt, ask(from, 7)).is_ok();
    Ok(sent && inbox.take(rt).map(seen) == Some((from, 7)))
}

// Neither end knows of a message before it is gathered, and still each take makes its pop.
#[test]
fn every_kind_of_actor_sends_to_every_kind(rt: HostRuntime) -> Result<(), Fail> {
    let kinds = [
        Actor::Feeder(7),
        Actor::Joiner(63),
        Actor::Controller,
        Actor::Collector,
    ];
    for from in kinds {
        for to in kinds {
            assert!(rt;
                link_carries(&rt, rt.alloc(), from, to)?,
                "link {from:?} {to:?}"
            );
            assert!(rt;
                inbox_carries(&rt, rt.alloc(), from, to)?,
                "inbox {from:?} {to:?}"
            );
        }
    }
    Ok(())
}

type Sent = (Mouth, bool);

type Taken = Result<(Inbox, Got), AllocError>;

fn put_two<R: Threads + Wait + Sync>(rt: &R, a: Mouth, b: Mouth) -> (Sent, Sent)
    requires { (a.from ≡ Feeder 0) × (b.from ≡ Feeder 1) }
    ensures { IsSameOut a result.0.0 × IsSameOut b result.1.0 }
{
    thread::join(
        rt,
        move ||
            requires { a.from ≡ Feeder 0 }
            ensures { IsSameOut a result.0 }
        { put_all(rt, a, Actor::Feeder(0), 500) },
        move ||
            requires { b.from ≡ Feeder 1 }
            ensures { IsSameOut b result.0 }
        { put_all(rt, b, Actor::Feeder(1), 500) },
    )
}

fn put_and_take<R: Threads + Wait + Sync>(rt: &R, c: Mouth, inbox: Inbox, got: Got) -> (Sent, Taken)
    requires { c.from ≡ Feeder 2 }
    ensures { IsSameOut c result.0.0 × IfOk result.1 (λ taken. IsSameInbox inbox taken.0) }
{
    thread::join(
        rt,
        move ||
            requires { c.from ≡ Feeder 2 }
            ensures { IsSameOut c result.0 }
        { put_all(rt, c, Actor::Feeder(2), 500) },
        move ||
            ensures { IfOk result (λ taken. IsSameInbox inbox taken.0) }
        { take_up_to(rt, inbox, got, 700) },
    )
}

// Three senders put in threads of their own, while another takes.
fn run_three<R: Threads + Wait + Sync>(
    rt: &R,
    inbox: Inbox,
    a: Mouth,
    b: Mouth,
    c: Mouth,
    got: Got,
) -> ((Sent, Sent), (Sent, Taken))
    requires { (a.from ≡ Feeder 0) × (b.from ≡ Feeder 1) × (c.from ≡ Feeder 2) }
    ensures mouths { IsSameOut a result.0.0.0 × IsSameOut b result.0.1.0
        × IsSameOut c result.1.0.0 }
    ensures inbox { IfOk result.1.1 (λ taken. IsSameInbox inbox taken.0) }
{
    thread::join(
        rt,
        move ||
            requires { (a.from ≡ Feeder 0) × (b.from ≡ Feeder 1) }
            ensures { IsSameOut a result.0.0 × IsSameOut b result.1.0 }
        { put_two(rt, a, b) },
        move ||
            requires { c.from ≡ Feeder 2 }
            ensures { IsSameOut c result.0.0 × IfOk result.1 (λ taken. IsSameInbox inbox taken.0) }
        { put_and_take(rt, c, inbox, got) },
    )
}

// The numbers from this sender are 0 to 499, in order.
fn are_all_there(got: &[(Actor, u32)], from: Actor) -> bool {
    let mut next = 0u32;
    for (actor, number) in got {
        if *actor == from {
            if *number != next {
                return false;
            }
            next = next.saturating_add(1);
        }
    }
    next == 500
}

#[test]
fn three_senders_in_threads_keep_their_orders(rt: HostRuntime) -> Result<(), Fail> {
    let (inbox, a, b, c) = of_three(rt.alloc())?;
    let got = Vec::new(rt.alloc());
    let (((a, all_a), (b, all_b)), ((mut c, all_c), taken)) = run_three(&rt, inbox, a, b, c, got);
    assert!(rt; all_a && all_b && all_c);
    let (mut inbox, got) = taken?;
    let left = left_of_two(&rt, &mut inbox, a, b);
    let known = left
        .0
        .saturating_add(left.1)
        .saturating_add(gather_mouth(&mut c, &mut inbox, &rt));
    assert_eq!(rt;
        (known as usize, inbox.known()),
        (1500 - got.len().min(1500), known)
    );
    let (_, got) = take_up_to(&rt, inbox, got, 1500)?;
    for sender in 0..3u32 {
        assert!(rt;
            are_all_there(got.as_slice(), Actor::Feeder(sender)),
            "feeder {sender}"
        );
    }
    Ok(())
}
