use epoch_tags::{Actor, Counts, Pair, Pairs, ToCollector};
use pair_collector::{Collected, Collector, Loads, in_order};
use std::alloc::{AllocError, Global};
use std::process::Abort;
use std::test::Fail;

// What a message carries.
#[derive(Clone, Copy)]
enum Sent<'a> {
    Found(&'a [(u32, u32)]),
    // The rows held, and those moved in each step.
    Fin(u64, u64, &'a [u64]),
}

fn found(alloc: Global, pairs: &[(u32, u32)]) -> Result<ToCollector, AllocError> {
    let mut list = Pairs::new(alloc);
    for (i, j) in pairs {
        list.push(Pair { i: *i, j: *j })?;
    }
    Ok(ToCollector::Found(list))
}

fn fin(alloc: Global, rows_r: u64, rows_s: u64, moves: &[u64]) -> Result<ToCollector, AllocError> {
    let mut moved = Counts::new(alloc);
    for count in moves {
        moved.push(*count)?;
    }
    Ok(ToCollector::Fin {
        rows_r,
        rows_s,
        moved,
    })
}

fn message(alloc: Global, sent: Sent<'_>) -> Result<ToCollector, AllocError> {
    match sent {
        Sent::Found(pairs) => found(alloc, pairs),
        Sent::Fin(rows_r, rows_s, moves) => fin(alloc, rows_r, rows_s, moves),
    }
}

// Takes these messages, of which the last alone makes it complete.
fn take_all(
    rt: &impl Abort,
    alloc: Global,
    collector: &mut Collector,
    messages: &[(Actor, Sent<'_>)],
) -> Result<(), AllocError> {
    for (from, sent) in messages {
        assert!(rt; !collector.complete());
        collector.on(*from, message(alloc, *sent)?)?;
    }
    Ok(())
}

fn given(pairs: &Pairs, wanted: &[(u32, u32)]) -> bool {
    pairs
        .as_slice()
        .iter()
        .map(|pair| (pair.i, pair.j))
        .eq(wanted.iter().copied())
}

fn held(loads: &Loads, wanted: &[(u64, u64)]) -> bool {
    loads
        .as_slice()
        .iter()
        .map(|held| (held.rows_r, held.rows_s))
        .eq(wanted.iter().copied())
}

// The answer has these pairs, and so on.
fn expect(
    rt: &impl Abort,
    collected: &Collected,
    pairs: &[(u32, u32)],
    made: &[u64],
    moved: &[u64],
    loads: &[(u64, u64)],
) {
    assert!(rt; given(&collected.pairs, pairs));
    assert!(rt; collected.made.as_slice() == made);
    assert!(rt; collected.moved.as_slice() == moved);
    assert!(rt; held(&collected.loads, loads));
}

#[test]
fn collects_until_each_joiner_has_ended(rt: HostRuntime) -> Result<(), Fail> {
    let alloc = rt.alloc();
    let messages = [
        (Actor::Joiner(1), Sent::Found(&[(1, 0), (0, 2)])),
        (Actor::Joiner(0), Sent::Found(&[(0, 2)])),
        (Actor::Feeder(0), Sent::Found(&[(9, 9)])),
        (Actor::Joiner(2), Sent::Found(&[(9, 9)])),
        (Actor::Joiner(0), Sent::Fin(4, 3, &[0, u64::MAX, 2])),
        (Actor::Joiner(0), Sent::Found(&[(9, 9)])),
        (Actor::Joiner(0), Sent::Fin(9, 9, &[9])),
        (Actor::Joiner(1), Sent::Found(&[(0, 1)])),
        (Actor::Joiner(1), Sent::Fin(1, 0, &[8, 1])),
    ];
    let mut collector = Collector::start(alloc, 2)?;
    take_all(&rt, alloc, &mut collector, &messages)?;
    assert!(rt; collector.complete());
    let collected = collector.finish()?;
    expect(
        &rt,
        &collected,
        &[(0, 1), (0, 2), (0, 2), (1, 0)],
        &[1, 3],
        &[8, u64::MAX, 2],
        &[(4, 3), (1, 0)],
    );
    Ok(())
}

#[test]
fn collects_of_three_joiners(rt: HostRuntime) -> Result<(), Fail> {
    let alloc = rt.alloc();
    let messages = [
        (Actor::Joiner(2), Sent::Found(&[(0, 7)])),
        (Actor::Joiner(2), Sent::Fin(1, 2, &[0, 1])),
        (Actor::Joiner(0), Sent::Found(&[(5, 0)])),
        (Actor::Joiner(0), Sent::Fin(3, 4, &[0, 2])),
        (Actor::Joiner(1), Sent::Found(&[(5, 1)])),
        (Actor::Joiner(1), Sent::Fin(5, 6, &[0, 4])),
    ];
    let mut collector = Collector::start(alloc, 3)?;
    take_all(&rt, alloc, &mut collector, &messages)?;
    assert!(rt; collector.complete());
    let collected = collector.finish()?;
    expect(
        &rt,
        &collected,
        &[(0, 7), (5, 0), (5, 1)],
        &[1, 1, 1],
        &[0, 7],
        &[(3, 4), (5, 6), (1, 2)],
    );
    Ok(())
}

// A joiner has found these pairs.
fn finds(
    alloc: Global,
    collector: &mut Collector,
    joiner: u32,
    pairs: &[(u32, u32)],
) -> Result<(), AllocError> {
    collector.on(Actor::Joiner(joiner), found(alloc, pairs)?)
}

// Whether these are the pairs that it gives now.
fn gives(collector: &mut Collector, wanted: &[(u32, u32)]) -> Result<bool, AllocError> {
    let fresh = collector.fresh()?;
    let same = given(&fresh, wanted);
    drop(fresh);
    Ok(same)
}

// Whether it gives each pair once.
fn gives_once(alloc: Global, collector: &mut Collector) -> Result<(bool, bool, bool), AllocError> {
    finds(alloc, collector, 0, &[(1, 0)])?;
    finds(alloc, collector, 1, &[(0, 2)])?;
    let first = gives(collector, &[(0, 2), (1, 0)])?;
    let second = gives(collector, &[])?;
    finds(alloc, collector, 1, &[(0, 2)])?;
    Ok((first, second, gives(collector, &[(0, 2)])?))
}

#[test]
fn fresh_pairs_are_given_once(rt: HostRuntime) -> Result<(), Fail> {
    let alloc = rt.alloc();
    let mut collector = Collector::start(alloc, 2)?;
    let gave = gives_once(alloc, &mut collector);
    drop(collector);
    assert!(rt; gave? == (true, true, true));
    Ok(())
}

#[test]
fn pairs_come_in_order(rt: HostRuntime) -> Result<(), Fail> {
    let mut pairs = Vec::new(rt.alloc());
    for (i, j) in [(2, 0), (0, 5), (2, 0), (0, 1)] {
        pairs.push(Pair { i, j })?;
    }
    assert!(rt; given(&in_order(pairs), &[(0, 1), (0, 5), (2, 0), (2, 0)]));
    Ok(())
}
