use super::{ONE, ask, drained, expect, settled};
use epoch_tags::{Actor, Sends, ToController};
use load_controller::Controller;
use std::alloc::{AllocError, Global};
use std::test::Fail;

fn tell(
    controller: &mut Controller,
    message: (Actor, ToController),
    sends: &mut Sends,
) -> Result<(), AllocError> {
    controller.on(message.0, message.1, sends)
}

// Joiners 1 to 7 settle the steps of these epochs.
fn settle(
    controller: &mut Controller,
    first: u32,
    last: u32,
    sends: &mut Sends,
) -> Result<(), AllocError> {
    for epoch in first..=last {
        for joiner in 1..8u32 {
            tell(controller, settled(joiner, epoch), sends)?;
        }
    }
    Ok(())
}

#[test]
fn what_settled_before_its_step_is_held(rt: HostRuntime) -> Result<(), Fail> {
    let alloc = rt.alloc();
    let wanted = (
        "0: order 1 1;0: grant;",
        "start: 0 0 0 0;count 0 0 1: 1 1 0 1 moving;settle 0: 1 1 0 1 moving;",
    );
    expect(
        &rt,
        alloc,
        Controller::start(alloc, 1, 1, None, ONE)?,
        &[settled(0, 1), ask(0, 0, 1)],
        wanted,
    )?;
    let wanted = (
        "0: order 1 1;0: grant;",
        "start: 0 0 0 0;count 0 0 1: 1 1 0 1 moving;settle 0: 1 1 0 1 moving;settle 1: 1 1 0 1;",
    );
    expect(
        &rt,
        alloc,
        Controller::start(alloc, 1, 1, None, ONE)?,
        &[settled(1, 1), settled(0, 1), ask(0, 0, 1)],
        wanted,
    )?;
    Ok(())
}

#[test]
fn strange_messages_are_passed_over(rt: HostRuntime) -> Result<(), Fail> {
    let alloc = rt.alloc();
    let messages = [
        ask(1, 1, 1),
        (Actor::Feeder(0), ToController::Settled { epoch: 1 }),
        settled(2, 1),
        (Actor::Joiner(0), ToController::Drained),
        (Actor::Collector, ToController::Drained),
        drained(0),
        ask(0, 1, 1),
        drained(0),
    ];
    let wanted = ("0: stop;", "start: 0 0 0 0;drain 0: 0 0 0 0;");
    expect(
        &rt,
        alloc,
        Controller::start(alloc, 1, 1, None, ONE)?,
        &messages,
        wanted,
    )?;
    Ok(())
}

#[test]
fn it_is_idle_while_no_step_is_under_way(rt: HostRuntime) -> Result<(), Fail> {
    let alloc = rt.alloc();
    let mut controller = Controller::start(alloc, 1, 1, None, ONE)?;
    let mut sends = Sends::new(alloc);
    let before = controller.idle();
    let told = tell(&mut controller, ask(0, 0, 1), &mut sends);
    let behind = controller.idle();
    drop(sends);
    drop(controller);
    told?;
    assert!(rt; before, "at the beginning");
    assert!(rt; !behind, "in a step");
    Ok(())
}

fn settle_first(controller: &mut Controller, sends: &mut Sends) -> Result<(), AllocError> {
    for epoch in 1..9u32 {
        tell(controller, settled(0, epoch), sends)?;
    }
    Ok(())
}

fn settle_rest(controller: &mut Controller, sends: &mut Sends) -> Result<(), AllocError> {
    tell(controller, ask(0, 0, 1), sends)?;
    settle(controller, 1, 2, sends)?;
    tell(controller, ask(0, 64, 0), sends)?;
    settle(controller, 3, 5, sends)?;
    tell(controller, ask(0, 0, 4096), sends)?;
    settle(controller, 6, 8, sends)
}

// Of eight joiners: the first has said all that it will settle before the first step, and the others
// settle step by step. Rows of S make two steps, then rows of R three, and rows of S three more. The
// answer is how many lines the controller has written, and what the last says.
fn eight_steps(alloc: Global) -> Result<(usize, Option<(u32, u32, bool)>), AllocError> {
    let mut controller = Controller::start(alloc, 3, 1, None, ONE)?;
    let mut sends = Sends::new(alloc);
    let settled = match settle_first(&mut controller, &mut sends) {
        Ok(()) => settle_rest(&mut controller, &mut sends),
        Err(refused) => Err(refused),
    };
    drop(sends);
    let journal = controller.journal().as_slice();
    let lines = journal.len();
    let last = journal
        .last()
        .map(|line| (line.epoch, line.shift, line.moving));
    drop(controller);
    settled?;
    Ok((lines, last))
}

#[test]
fn eight_held_messages_are_counted_in_eight_steps(rt: HostRuntime) -> Result<(), Fail> {
    let (lines, last) = eight_steps(rt.alloc())?;
    assert!(rt; lines == 68, "lines");
    assert!(rt; last == Some((8, 3, false)), "the last line");
    Ok(())
}
