ghost use Rattle.std.specs.Prelude.{◌≡◌, IfOk};
ghost use Rattle.ruled_links.specs.Ends.{IsSameIn, IsSameOut};
ghost use Rattle.epoch_tags.specs.declared.actor.Actor.TheVariants.{Feeder};

mod inboxes;
mod many;

use epoch_tags::{Actor, Envelope, Msg, ToController};
use ruled_links::{In, Out, gather, link};
use std::alloc::{AllocError, Global};
use std::sync::Wait;
use std::test::*;
use std::thread;
use std::thread::Threads;

fn ask(from: Actor, number: u32) -> Envelope
    ensures { result.from ≡ from }
{
    Envelope {
        from,
        msg: Msg::Controller(ToController::Ask { dr: number, ds: 0 }),
    }
}

fn number_of(message: Envelope) -> u32 {
    match message.msg {
        Msg::Controller(ToController::Ask { dr, .. }) => dr,
        _ => u32::MAX,
    }
}

fn put_all<R: Wait>(rt: &R, mut out: Out, count: u32) -> (Out, bool)
    requires { out.from ≡ Feeder 0 }
    ensures { IsSameOut out result.0 }
{
    let mut all = true;
    for number in 0..count {
        all &= out.put(rt, ask(Actor::Feeder(0), number)).is_ok();
    }
    (out, all)
}

fn take_up_to<R: Wait>(
    rt: &R,
    mut inn: In,
    mut got: Vec<u32>,
    tries: u32,
) -> Result<(In, Vec<u32>), AllocError>
    ensures { IfOk result (λ taken. IsSameIn inn taken.0) }
{
    for _ in 0..tries {
        got.reserve(1)?;
        if let Some(message) = inn.take(rt) {
            got.push(number_of(message))?;
        }
    }
    Ok((inn, got))
}

#[derive(Drop)]
struct Report {
    all_put: bool,
    early: usize,
    left: u64,
    got: Vec<u32>,
}

// One thread puts so many asks while another takes; the rest is taken afterwards.
fn put_beside_take<R: Threads + Wait + Sync>(
    rt: &R,
    alloc: Global,
    count: u32,
) -> Result<Report, AllocError> {
    let (out, inn) = link(alloc, Actor::Feeder(0), Actor::Controller)?;
    let got = Vec::new(alloc);
    let ((mut out, all_put), taken) = thread::join(
        rt,
        move ||
            requires { out.from ≡ Feeder 0 }
            ensures { IsSameOut out result.0 }
        { put_all(rt, out, count) },
        move ||
            ensures { IfOk result (λ taken. IsSameIn inn taken.0) }
        { take_up_to(rt, inn, got, count) },
    );
    let (mut inn, got) = taken?;
    let early = got.len();
    let left = gather(&mut out, &mut inn, rt);
    let (_, got) = take_up_to(rt, inn, got, count)?;
    Ok(Report {
        all_put,
        early,
        left,
        got,
    })
}

#[test]
fn asks_of_one_thread_reach_another_in_order(rt: HostRuntime) -> Result<(), Fail> {
    let report = put_beside_take(&rt, rt.alloc(), 1000)?;
    assert!(rt; report.all_put);
    assert!(rt; report.early <= 1000);
    assert_eq!(rt; report.left, 1000 - report.early as u64);
    assert_eq!(rt; report.got.len(), 1000);
    for number in 0..1000u32 {
        assert_eq!(rt; report.got.get(number as usize).copied(), Some(number));
    }
    Ok(())
}

// The number of the next message, and how many more are known then.
fn next<R: Wait>(inn: &mut In, rt: &R) -> (Option<u32>, u64)
    ensures { IsSameIn inn.old inn.new }
{
    let number = inn.take(rt).map(number_of);
    (number, inn.known())
}

#[test]
fn three_messages_by_hand(rt: HostRuntime) -> Result<(), Fail> {
    let (out, mut inn) = link(rt.alloc(), Actor::Feeder(0), Actor::Controller)?;
    assert!(rt; next(&mut inn, &rt) == (None, 0));
    let (mut out, all_put) = put_all(&rt, out, 3);
    assert!(rt; all_put);
    assert!(rt; inn.known() == 0);
    assert!(rt; next(&mut inn, &rt) == (Some(0), 0));
    assert!(rt; gather(&mut out, &mut inn, &rt) == 2);
    assert!(rt; inn.known() == 2);
    assert!(rt; next(&mut inn, &rt) == (Some(1), 1));
    assert!(rt; next(&mut inn, &rt) == (Some(2), 0));
    assert!(rt; next(&mut inn, &rt) == (None, 0));
    assert!(rt; gather(&mut out, &mut inn, &rt) == 0);
    Ok(())
}
