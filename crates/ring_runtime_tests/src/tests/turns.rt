// Two seats alone, turn by turn.

use actor_core::{Cast, Core};
use epoch_tags::{Actor, Tuples};
use grid_map::Weights;
use load_controller::Controller;
use reshuffler_core::Feeder;
use ring_runtime::{Inlets, Outlet, Outlets, RingSeat, RingStep, ring};
use std::alloc::{AllocError, Global};
use std::test::*;
use worker_gate::NoGate;

// Places for the ends of four actors.
fn ends(alloc: Global) -> Result<(Inlets, Outlets), AllocError> {
    let ins = Inlets::new(alloc, 4)?;
    let outs = Outlets::new(alloc, 4)?;
    Ok((ins, outs))
}

// The seat of an actor of a run with one joiner and one feeder.
fn seat<'a>(alloc: Global, actor: Actor, core: Core<'a>) -> Result<RingSeat<'a>, AllocError> {
    match ends(alloc) {
        Ok((ins, outs)) => {
            let cast = Cast {
                joiners: 1,
                feeders: 1,
            };
            Ok(RingSeat::new(alloc, cast, actor, core, ins, outs))
        }
        Err(refused) => {
            drop(core);
            Err(refused)
        }
    }
}

fn feeder<'a>(alloc: Global) -> Result<RingSeat<'a>, AllocError> {
    let machine = Feeder::start(alloc, 0, 0, 0, Tuples::new(alloc), 1);
    seat(alloc, Actor::Feeder(0), Core::Feeder(machine))
}

fn controller<'a>(alloc: Global) -> Result<RingSeat<'a>, AllocError> {
    let machine = Controller::start(alloc, 0, 1, None, Weights { r: 1, s: 1 })?;
    seat(alloc, Actor::Controller, Core::Controller(machine))
}

// Makes a ring of one place from the actor with the first number to that with the second.
fn join(
    alloc: Global,
    from: &mut RingSeat,
    to: &mut RingSeat,
    sender: (usize, Actor),
    receiver: (usize, Actor),
) -> Result<(), AllocError> {
    let (out, inn) = ring(alloc, sender.1, receiver.1, 1)?;
    to.put_in(sender.0, inn)?;
    from.put_out(receiver.0, Outlet::new(alloc, out))
}

// Joins a feeder's seat and the controller's both ways.
fn join_both(
    alloc: Global,
    feeder: &mut RingSeat,
    controller: &mut RingSeat,
) -> Result<(), AllocError> {
    let (here, there) = ((0, Actor::Feeder(0)), (2, Actor::Controller));
    join(alloc, feeder, controller, here, there)?;
    join(alloc, controller, feeder, there, here)
}

// What becomes of three turns; none for an error.
fn three_turns(seat: &mut RingSeat) -> [Option<RingStep>; 3] {
    [
        seat.turn(&NoGate).ok(),
        seat.turn(&NoGate).ok(),
        seat.turn(&NoGate).ok(),
    ]
}

// What becomes of turns of the controller, of a feeder, of the controller, and of the feeder.
fn play(feeder: &mut RingSeat, controller: &mut RingSeat) -> [[Option<RingStep>; 3]; 4] {
    [
        three_turns(controller),
        three_turns(feeder),
        three_turns(controller),
        three_turns(feeder),
    ]
}

// The same of a feeder and a controller that are joined first. Each function has one seat of its own, and drops it by a
// call.
fn play_with_controller(
    alloc: Global,
    feeder: &mut RingSeat,
) -> Result<[[Option<RingStep>; 3]; 4], AllocError> {
    let mut controller = controller(alloc)?;
    let played = match join_both(alloc, feeder, &mut controller) {
        Ok(()) => Ok(play(feeder, &mut controller)),
        Err(refused) => Err(refused),
    };
    drop(controller);
    played
}

fn play_two_seats(alloc: Global) -> Result<[[Option<RingStep>; 3]; 4], AllocError> {
    let mut feeder = feeder(alloc)?;
    let played = play_with_controller(alloc, &mut feeder);
    drop(feeder);
    played
}

// The last turns end in an error, since what the feeder then sends to the joiner has no ring.
#[test]
fn two_seats_pass_messages(rt: HostRuntime) -> Result<(), Fail> {
    let [early, begins, answers, sends] = play_two_seats(rt.alloc())?;
    let idle = Some(RingStep::Idle);
    let passes = [Some(RingStep::Took), Some(RingStep::Moved), idle];
    assert!(rt; early == [idle, idle, idle], "nothing came yet");
    assert!(rt; begins == passes, "the feeder begins");
    assert!(rt; answers == passes, "the controller answers");
    assert!(rt; sends == [None, None, None], "no way to a joiner");
    Ok(())
}
