// A controller that takes many steps.

use super::{ask, settled};
use epoch_tags::Sends;
use grid_map::Weights;
use load_controller::{Controller, TurnLine};
use std::alloc::{AllocError, Global};
use std::test::Fail;

// The step under way, if there is one.
fn step_of(controller: &Controller) -> Option<u32> {
    let line = controller.journal().as_slice().last()?;
    if line.moving { Some(line.epoch) } else { None }
}

fn settle(controller: &mut Controller, epoch: u32, sends: &mut Sends) -> Result<(), AllocError> {
    for joiner in 0..16 {
        let (from, message) = settled(joiner, epoch);
        controller.on(from, message, sends)?;
    }
    Ok(())
}

// So many rows of each side are counted, and steps are settled until none is under way.
fn count(
    controller: &mut Controller,
    dr: u32,
    ds: u32,
    sends: &mut Sends,
) -> Result<(), AllocError> {
    let (from, message) = ask(0, dr, ds);
    controller.on(from, message, sends)?;
    for _ in 0..8 {
        if let Some(epoch) = step_of(controller) {
            settle(controller, epoch, sends)?;
        }
    }
    Ok(())
}

fn count_each(
    controller: &mut Controller,
    counts: &[(u32, u32)],
    sends: &mut Sends,
) -> Result<(), AllocError> {
    for (dr, ds) in counts {
        count(controller, *dr, *ds, sends)?;
    }
    Ok(())
}

// The last epoch of 16 joiners that begin at their middle shift, with these counts.
fn last_epoch(alloc: Global, counts: &[(u32, u32)]) -> Result<u32, AllocError> {
    let mut controller = Controller::start(alloc, 4, 1, None, Weights { r: 1, s: 1 })?;
    let mut sends = Sends::new(alloc);
    let counted = count_each(&mut controller, counts, &mut sends);
    drop(sends);
    let last = controller
        .journal()
        .as_slice()
        .last()
        .map(|line| line.epoch);
    drop(controller);
    counted?;
    Ok(last.unwrap_or(0))
}

#[test]
fn twenty_two_steps_are_taken(rt: HostRuntime) -> Result<(), Fail> {
    let counts = [
        (16, 1),
        (0, 256),
        (4096, 0),
        (0, 65536),
        (1 << 20, 0),
        (0, 1 << 24),
    ];
    assert_eq!(rt; last_epoch(rt.alloc(), &counts)?, 22);
    Ok(())
}
