// Many rows that come before their step.

use super::given::row;
use super::{first, give, play, theta};
use epoch_tags::{Actor, ToJoiner};
use joiner_core::Joiner;
use row_cells::Side;
use std::alloc::{AllocError, Global};
use std::process::Abort;
use std::test::Fail;
use theta_pred::Theta;

fn give_one(
    rt: &impl Abort,
    alloc: Global,
    joiner: &mut Joiner<'_>,
    index: u32,
) -> Result<(), AllocError> {
    let tuple = row(alloc, Side::R, index, 255, 0)?;
    let early = ToJoiner::Moved { epoch: 1, tuple };
    let sent = give(rt, alloc, joiner, Actor::Joiner(1), early)?;
    assert!(rt; sent.is_empty());
    Ok(())
}

// So many rows of R that the partner moves before the joiner has begun its step.
fn give_early(
    rt: &impl Abort,
    alloc: Global,
    joiner: &mut Joiner<'_>,
    count: u32,
) -> Result<(), AllocError> {
    for index in 0..count {
        give_one(rt, alloc, joiner, index)?;
    }
    Ok(())
}

// These rows, and then these steps.
fn play_behind(
    rt: &impl Abort,
    alloc: Global,
    joiner: &mut Joiner<'_>,
    steps: &[&str],
) -> Result<(), AllocError> {
    give_early(rt, alloc, joiner, 150)?;
    play(rt, alloc, joiner, steps)
}

fn run(rt: &impl Abort, alloc: Global, theta: &Theta, steps: &[&str]) -> Result<(), AllocError> {
    let mut joiner = first(alloc, 1, 1, theta)?;
    let played = play_behind(rt, alloc, &mut joiner, steps);
    drop(joiner);
    played
}

#[test]
fn a_hundred_and_fifty_early_rows_wait_for_their_step(rt: HostRuntime) -> Result<(), Fail> {
    let alloc = rt.alloc();
    let steps = [
        "joiner_1 moved 1 R 150 255 0 holds 151 sends ",
        "feeder_0 turn 1 1 holds 0 sends [Joiner(1) moved_end 1]",
        "feeder_0 row S 149 0 1 holds 0 sends [found 149 149]",
        "joiner_1 moved_end 1 holds 0 sends [settled 1]",
        "feeder_0 end holds 0 sends [fin 151 1 moved 0]",
    ];
    let theta = theta(&rt, alloc, "r.x = s.x")?;
    let played = run(&rt, alloc, &theta, &steps);
    drop(theta);
    played?;
    Ok(())
}
