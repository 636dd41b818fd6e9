use epoch_tags::{Actor, Msg, Post, Sends, ToController, ToFeeder, ToJoiner, Tuple, Tuples};
use reshuffler_core::Feeder;
use row_cells::{Cells, Side};
use std::alloc::{AllocError, Global};
use std::process::Abort;
use std::test::Fail;

// What a post carries: the joiner with the row's side, index and stamp, and so on.
#[derive(Clone, Copy, Debug, PartialEq, Eq)]
enum Seen {
    Ask(u32, u32),
    Drained,
    Turn(u32, u32, u32),
    Tup(u32, Side, u32, u32),
    End(u32),
    Other,
}

fn what_it_carries(post: &Post) -> Seen {
    match (&post.to, &post.msg) {
        (Actor::Controller, Msg::Controller(ToController::Ask { dr, ds })) => Seen::Ask(*dr, *ds),
        (Actor::Controller, Msg::Controller(ToController::Drained)) => Seen::Drained,
        (Actor::Joiner(id), Msg::Joiner(ToJoiner::Turn { epoch, shift })) => {
            Seen::Turn(*id, *epoch, *shift)
        }
        (Actor::Joiner(id), Msg::Joiner(ToJoiner::Tup(tuple))) => {
            Seen::Tup(*id, tuple.side, tuple.index, tuple.stamp)
        }
        (Actor::Joiner(id), Msg::Joiner(ToJoiner::End)) => Seen::End(*id),
        _ => Seen::Other,
    }
}

fn assert_sent(rt: &impl Abort, sends: &Sends, wanted: &[Seen]) {
    assert_eq!(rt; sends.as_slice().len(), wanted.len());
    for (post, want) in sends.as_slice().iter().zip(wanted) {
        assert_eq!(rt; what_it_carries(post), *want);
    }
}

// Two rows of R and one of S, for two joiners.
fn load(alloc: Global) -> Result<Tuples, AllocError> {
    let mut load = Tuples::new(alloc);
    for (side, index, ticket) in [(Side::R, 0, 0), (Side::R, 1, 200), (Side::S, 0, 5)] {
        load.push(Tuple {
            side,
            index,
            ticket,
            stamp: 0,
            cells: Cells::new(alloc),
        })?;
    }
    Ok(load)
}

// What is done with a feeder.
#[derive(Clone, Copy)]
enum Step {
    // It begins, where that is possible, or not.
    Begin(bool),
    Take(ToFeeder),
}

const GRANT: Step = Step::Take(ToFeeder::Grant);

const STOP: Step = Step::Take(ToFeeder::Stop);

fn order(epoch: u32, shift: u32) -> Step {
    Step::Take(ToFeeder::Order { epoch, shift })
}

fn do_step(
    rt: &impl Abort,
    feeder: &mut Feeder,
    step: &Step,
    sends: &mut Sends,
) -> Result<(), AllocError> {
    match step {
        Step::Begin(can) => {
            assert_eq!(rt; feeder.can_begin(), *can);
            assert_eq!(rt; feeder.begin(sends)?, *can);
            Ok(())
        }
        Step::Take(m) => feeder.on(*m, sends),
    }
}

// What a feeder sends for these steps, and whether it has stopped, are what is wanted.
fn expect(
    rt: &impl Abort,
    alloc: Global,
    mut feeder: Feeder,
    steps: &[Step],
    wanted: &[Seen],
    stopped: bool,
) -> Result<(), AllocError> {
    let mut sends = Sends::new(alloc);
    for step in steps {
        do_step(rt, &mut feeder, step, &mut sends)?;
    }
    assert_sent(rt, &sends, wanted);
    assert_eq!(rt; feeder.stopped(), stopped);
    Ok(())
}

#[test]
fn follows_an_order_and_sends_what_is_granted(rt: HostRuntime) -> Result<(), Fail> {
    let alloc = rt.alloc();
    let steps = [
        Step::Begin(true),
        Step::Begin(false),
        order(1, 1),
        GRANT,
        Step::Begin(true),
        GRANT,
        Step::Begin(true),
        Step::Begin(false),
        STOP,
    ];
    let wanted = [
        Seen::Ask(2, 0),
        Seen::Turn(0, 1, 1),
        Seen::Turn(1, 1, 1),
        Seen::Tup(0, Side::R, 0, 1),
        Seen::Tup(1, Side::R, 0, 1),
        Seen::Tup(0, Side::R, 1, 1),
        Seen::Tup(1, Side::R, 1, 1),
        Seen::Ask(0, 1),
        Seen::Tup(1, Side::S, 0, 1),
        Seen::Drained,
        Seen::End(0),
        Seen::End(1),
    ];
    let feeder = Feeder::start(alloc, 1, 0, 0, load(alloc)?, 2);
    expect(&rt, alloc, feeder, &steps, &wanted, true)?;
    Ok(())
}

#[test]
fn holds_a_grant_that_comes_first(rt: HostRuntime) -> Result<(), Fail> {
    let alloc = rt.alloc();
    let wanted = [
        Seen::Ask(2, 0),
        Seen::Tup(0, Side::R, 0, 0),
        Seen::Tup(1, Side::R, 1, 0),
    ];
    let feeder = Feeder::start(alloc, 1, 0, 0, load(alloc)?, 2);
    expect(&rt, alloc, feeder, &[GRANT], &[], false)?;
    let feeder = Feeder::start(alloc, 1, 0, 0, load(alloc)?, 2);
    expect(
        &rt,
        alloc,
        feeder,
        &[GRANT, Step::Begin(true)],
        &wanted,
        false,
    )?;
    Ok(())
}

#[test]
fn goes_on_from_a_later_epoch(rt: HostRuntime) -> Result<(), Fail> {
    let alloc = rt.alloc();
    let wanted = [Seen::Turn(0, 4, 1), Seen::Turn(1, 4, 1)];
    let feeder = Feeder::start_at(alloc, 1, 0, 3, 0, load(alloc)?, 2);
    expect(&rt, alloc, feeder, &[order(4, 1)], &wanted, false)?;
    Ok(())
}

// Of eight joiners: a grant and three orders wait until the first batch is asked for.
#[test]
fn four_held_messages_are_taken_in_order(rt: HostRuntime) -> Result<(), Fail> {
    let alloc = rt.alloc();
    let mut feeder = Feeder::start(alloc, 3, 0, 0, load(alloc)?, 3);
    let mut sends = Sends::new(alloc);
    for step in [GRANT, order(1, 1), order(2, 2), order(3, 3)] {
        do_step(&rt, &mut feeder, &step, &mut sends)?;
    }
    assert!(rt; sends.as_slice().len() == 0, "before it asked");
    do_step(&rt, &mut feeder, &Step::Begin(true), &mut sends)?;
    // One request, ten copies of its three rows, and three turns for each joiner.
    assert!(rt; sends.as_slice().len() == 35, "all posts");
    let last = sends.as_slice().last().map(what_it_carries);
    assert!(rt; last == Some(Seen::Turn(7, 3, 3)), "the last post");
    Ok(())
}
