ghost use Rattle.std.specs.Prelude.{◌≤◌, ◌^◌};

mod many_steps;
mod messages;

use epoch_tags::{Actor, Msg, Sends, ToController, ToFeeder};
use grid_map::Weights;
use load_controller::{Cause, Controller, Journal, TurnLine};
use std::alloc::{AllocError, Global};
use std::process::Abort;
use std::test::Fail;

const ONE: Weights = Weights { r: 1, s: 1 };

fn push_cause(text: &mut String, cause: Cause) -> Result<(), AllocError> {
    match cause {
        Cause::Start => text.push_str("start"),
        Cause::Wave => text.push_str("wave"),
        Cause::Count { feeder, dr, ds } => write!(text, "count {feeder} {dr} {ds}"),
        Cause::Settle { joiner } => write!(text, "settle {joiner}"),
        Cause::Drain { feeder } => write!(text, "drain {feeder}"),
    }
}

fn push_line(text: &mut String, line: &TurnLine) -> Result<(), AllocError> {
    push_cause(text, line.cause)?;
    let TurnLine {
        epoch,
        shift,
        base_r,
        base_s,
        ..
    } = *line;
    let moves = if line.moving { " moving" } else { "" };
    write!(text, ": {epoch} {shift} {base_r} {base_s}{moves};")
}

// The lines of a journal: the cause, epoch, shift, the bases, and whether it moves.
fn push_lines(text: &mut String, journal: &Journal) -> Result<(), AllocError> {
    for line in journal.as_slice() {
        push_line(text, line)?;
    }
    Ok(())
}

fn push_receiver(text: &mut String, to: Actor) -> Result<(), AllocError> {
    match to {
        Actor::Feeder(p) => write!(text, "{p}: "),
        Actor::Joiner(_) => text.push_str("joiner: "),
        Actor::Controller => text.push_str("controller: "),
        Actor::Collector => text.push_str("collector: "),
    }
}

fn push_message(text: &mut String, msg: &Msg) -> Result<(), AllocError> {
    match msg {
        Msg::Feeder(ToFeeder::Order { epoch, shift }) => write!(text, "order {epoch} {shift};"),
        Msg::Feeder(ToFeeder::Grant) => text.push_str("grant;"),
        Msg::Feeder(ToFeeder::Stop) => text.push_str("stop;"),
        _ => text.push_str("other;"),
    }
}

// What was posted.
fn push_posts(text: &mut String, sends: &Sends) -> Result<(), AllocError> {
    for post in sends.as_slice() {
        push_receiver(text, post.to)?;
        push_message(text, &post.msg)?;
    }
    Ok(())
}

fn take_all(
    controller: &mut Controller,
    messages: &[(Actor, ToController)],
    sends: &mut Sends,
) -> Result<(), AllocError> {
    for (from, m) in messages {
        controller.on(*from, *m, sends)?;
    }
    Ok(())
}

// Appends what a controller posts and writes while it takes these messages: the posts, a bar, and its lines.
fn push_all(
    text: &mut String,
    controller: &mut Controller,
    messages: &[(Actor, ToController)],
    sends: &mut Sends,
) -> Result<(), AllocError> {
    take_all(controller, messages, sends)?;
    push_posts(text, sends)?;
    text.push('|')?;
    push_lines(text, controller.journal())
}

// What a controller has posted and written after these messages.
fn after(
    alloc: Global,
    mut controller: Controller,
    messages: &[(Actor, ToController)],
) -> Result<String, AllocError> {
    let mut sends = Sends::new(alloc);
    let mut text = String::new(alloc);
    let pushed = push_all(&mut text, &mut controller, messages, &mut sends);
    drop(controller);
    drop(sends);
    match pushed {
        Ok(()) => Ok(text),
        Err(refused) => {
            drop(text);
            Err(refused)
        }
    }
}

// A controller of 16 joiners that goes on at their middle shift, with 128 rows of R and 64 of S.
fn uneven(alloc: Global, epoch: u32) -> Result<Controller, AllocError>
    requires { epoch ≤ 2 ^ 31 }
{
    let line = TurnLine {
        cause: Cause::Start,
        rows_r: 128,
        rows_s: 64,
        base_r: 128,
        base_s: 64,
        epoch,
        shift: 2,
        goal: 2,
        moving: false,
    };
    Controller::start_at(alloc, 4, 1, None, ONE, line)
}

// A controller of four joiners in a second wave, with eight rows of each side.
fn even(alloc: Global) -> Result<Controller, AllocError> {
    let line = TurnLine {
        cause: Cause::Wave,
        rows_r: 8,
        rows_s: 8,
        base_r: 8,
        base_s: 8,
        epoch: 2,
        shift: 1,
        goal: 1,
        moving: false,
    };
    Controller::start_at(alloc, 2, 1, None, ONE, line)
}

fn ask(p: u32, dr: u32, ds: u32) -> (Actor, ToController) {
    (Actor::Feeder(p), ToController::Ask { dr, ds })
}

fn drained(p: u32) -> (Actor, ToController) {
    (Actor::Feeder(p), ToController::Drained)
}

fn settled(joiner: u32, epoch: u32) -> (Actor, ToController) {
    (Actor::Joiner(joiner), ToController::Settled { epoch })
}

// Posts and lines of a run are those that are wanted.
fn expect(
    rt: &impl Abort,
    alloc: Global,
    controller: Controller,
    messages: &[(Actor, ToController)],
    wanted: (&str, &str),
) -> Result<(), AllocError> {
    let told = after(alloc, controller, messages)?;
    let (posts, lines) = wanted;
    let wanted = format!(in alloc; "{posts}|{lines}")?;
    assert!(rt; told == wanted, "{told}");
    Ok(())
}

#[test]
fn a_decision_is_due_where_a_side_has_doubled(rt: HostRuntime) -> Result<(), Fail> {
    let alloc = rt.alloc();
    let wanted = (
        "0: grant;0: order 1 1;0: grant;",
        "start: 0 2 128 64;count 0 127 0: 0 2 128 64;count 0 1 0: 1 1 256 64 moving;",
    );
    expect(
        &rt,
        alloc,
        uneven(alloc, 0)?,
        &[ask(0, 127, 0), ask(0, 1, 0)],
        wanted,
    )?;
    Ok(())
}

#[test]
fn a_later_beginning_goes_on_from_its_line(rt: HostRuntime) -> Result<(), Fail> {
    let alloc = rt.alloc();
    let wanted = (
        "0: order 4 1;0: grant;",
        "start: 3 2 128 64;count 0 128 0: 4 1 256 64 moving;",
    );
    expect(&rt, alloc, uneven(alloc, 3)?, &[ask(0, 128, 0)], wanted)?;
    Ok(())
}

#[test]
fn rows_of_r_and_then_of_s_make_two_steps(rt: HostRuntime) -> Result<(), Fail> {
    let alloc = rt.alloc();
    let messages = [
        ask(0, 4, 0),
        settled(0, 1),
        settled(1, 1),
        settled(2, 1),
        settled(3, 1),
        ask(0, 4, 0),
        ask(0, 0, 4),
        ask(0, 0, 4),
        drained(0),
        settled(0, 2),
        settled(1, 2),
        settled(2, 2),
        settled(3, 2),
    ];
    let wanted = (
        "0: order 1 0;0: grant;0: grant;0: grant;0: order 2 1;0: grant;0: stop;",
        "start: 0 1 0 0;count 0 4 0: 1 0 4 0 moving;settle 0: 1 0 4 0 moving;settle 1: 1 0 4 0 moving;settle 2: 1 0 4 0 moving;settle 3: 1 0 4 0;count 0 4 0: 1 0 8 0;count 0 0 4: 1 0 8 4;count 0 0 4: 2 1 8 8 moving;drain 0: 2 1 8 8 moving;settle 0: 2 1 8 8 moving;settle 1: 2 1 8 8 moving;settle 2: 2 1 8 8 moving;settle 3: 2 1 8 8;",
    );
    expect(
        &rt,
        alloc,
        Controller::start(alloc, 2, 1, None, ONE)?,
        &messages,
        wanted,
    )?;
    Ok(())
}

#[test]
fn rows_of_a_heavy_side_keep_the_shift(rt: HostRuntime) -> Result<(), Fail> {
    let alloc = rt.alloc();
    let messages = [
        ask(0, 4, 0),
        settled(0, 1),
        settled(1, 1),
        settled(2, 1),
        settled(3, 1),
        ask(0, 4, 0),
        ask(0, 0, 4),
        ask(0, 0, 4),
        drained(0),
    ];
    let wanted = (
        "0: order 1 0;0: grant;0: grant;0: grant;0: grant;0: stop;",
        "start: 0 1 0 0;count 0 4 0: 1 0 4 0 moving;settle 0: 1 0 4 0 moving;settle 1: 1 0 4 0 moving;settle 2: 1 0 4 0 moving;settle 3: 1 0 4 0;count 0 4 0: 1 0 8 0;count 0 0 4: 1 0 8 4;count 0 0 4: 1 0 8 8;drain 0: 1 0 8 8;",
    );
    let heavy = Weights { r: 2, s: 1 };
    expect(
        &rt,
        alloc,
        Controller::start(alloc, 2, 1, None, heavy)?,
        &messages,
        wanted,
    )?;
    Ok(())
}

#[test]
fn a_wave_goes_on_from_the_last_line(rt: HostRuntime) -> Result<(), Fail> {
    let alloc = rt.alloc();
    let messages = [ask(0, 4, 0), ask(0, 4, 0), ask(0, 12, 0), ask(0, 4, 0)];
    let wanted = (
        "0: grant;0: grant;0: grant;0: order 3 0;0: grant;",
        "wave: 2 1 8 8;count 0 4 0: 2 1 8 8;count 0 4 0: 2 1 16 8;count 0 12 0: 2 1 16 8;count 0 4 0: 3 0 32 8 moving;",
    );
    expect(&rt, alloc, even(alloc)?, &messages, wanted)?;
    Ok(())
}

#[test]
fn without_rows_it_stops_at_once(rt: HostRuntime) -> Result<(), Fail> {
    let alloc = rt.alloc();
    let wanted = (
        "0: stop;1: stop;",
        "start: 0 1 0 0;drain 0: 0 1 0 0;drain 1: 0 1 0 0;",
    );
    expect(
        &rt,
        alloc,
        Controller::start(alloc, 2, 2, None, ONE)?,
        &[drained(0), drained(1)],
        wanted,
    )?;
    Ok(())
}

#[test]
fn a_fixed_shift_stays(rt: HostRuntime) -> Result<(), Fail> {
    let alloc = rt.alloc();
    let wanted = (
        "0: grant;0: grant;",
        "start: 0 2 0 0;count 0 4 0: 0 2 0 0;count 0 0 4: 0 2 0 0;",
    );
    expect(
        &rt,
        alloc,
        Controller::start(alloc, 2, 1, Some(2), ONE)?,
        &[ask(0, 4, 0), ask(0, 0, 4)],
        wanted,
    )?;
    Ok(())
}
