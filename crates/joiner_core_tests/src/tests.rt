mod based;
mod early;
mod given;
mod sent;

ghost use Rattle.std.specs.Prelude.{◌≡◌, IfOk};

use epoch_tags::{Actor, Sends, ToJoiner};
use given::{message, number, sender};
use joiner_core::Joiner;
use row_cells::{Bytes, Names};
use sent::sent;
use std::alloc::{AllocError, Global};
use std::process::Abort;
use std::test::Fail;
use theta_pred::{Theta, resolve};
use theta_text::parse;

fn give(
    rt: &impl Abort,
    alloc: Global,
    joiner: &mut Joiner<'_>,
    from: Actor,
    m: ToJoiner,
) -> Result<String, AllocError> {
    let mut sends = Sends::new(alloc);
    assert!(rt; !joiner.is_spent());
    assert!(rt; joiner.hears(from));
    assert!(rt; joiner.fits(&m));
    let given = match joiner.on(from, m, &mut sends) {
        Ok(()) => sent(alloc, &sends),
        Err(refused) => Err(refused),
    };
    drop(sends);
    given
}

fn step(
    rt: &impl Abort,
    alloc: Global,
    joiner: &mut Joiner<'_>,
    line: &str,
) -> Result<String, AllocError> {
    let words: Vec<&str> = line.split_whitespace().collect(alloc)?;
    let m = message(alloc, &words)?;
    let from = match *words {
        [word, ..] => sender(word),
        [] => Actor::Collector,
    };
    give(rt, alloc, joiner, from, m)
}

fn play_one(
    rt: &impl Abort,
    alloc: Global,
    joiner: &mut Joiner<'_>,
    line: &str,
    held: u64,
    wanted: &str,
) -> Result<(), AllocError> {
    let text = step(rt, alloc, joiner, line)?;
    assert!(rt; text.as_str() == wanted, "{line}");
    assert!(rt; joiner.held_count() == held, "{line}");
    Ok(())
}

// Each step is a message, how many are held then, and what is sent.
fn play(
    rt: &impl Abort,
    alloc: Global,
    joiner: &mut Joiner<'_>,
    steps: &[&str],
) -> Result<(), AllocError> {
    for one in steps {
        let Some((line, answer)) = one.split_once(" holds ") else {
            return Err(AllocError);
        };
        let Some((held, wanted)) = answer.split_once(" sends ") else {
            return Err(AllocError);
        };
        play_one(rt, alloc, joiner, line, u64::from(number(held)), wanted)?;
    }
    Ok(())
}

fn resolved(alloc: Global, text: &str, names: &Names) -> Result<Theta, AllocError> {
    let Ok(pred) = parse(alloc, text) else {
        return Err(AllocError);
    };
    let resolved = resolve(alloc, &pred, names, names);
    drop(pred);
    match resolved {
        Ok(theta) => Ok(theta),
        Err(fault) => {
            drop(fault);
            Err(AllocError)
        }
    }
}

// A predicate over tables of one column, `x`.
fn theta(rt: &impl Abort, alloc: Global, text: &str) -> Result<Theta, AllocError>
    ensures r { IfOk result (λ theta. theta.width_r ≡ 1) }
    ensures s { IfOk result (λ theta. theta.width_s ≡ 1) }
{
    let mut names = Names::new(alloc);
    names.push(Bytes::from_slice(alloc, b"x")?)?;
    let theta = resolved(alloc, text, &names);
    drop(names);
    let theta = theta?;
    assert!(rt; theta.width_r() == 1);
    assert!(rt; theta.width_s() == 1);
    Ok(theta)
}

// Joiner 0 at the beginning of a run goes through these steps.
fn run(
    rt: &impl Abort,
    alloc: Global,
    predicate: &str,
    k: u32,
    feeders: u32,
    steps: &[&str],
) -> Result<(), AllocError> {
    let theta = theta(rt, alloc, predicate)?;
    run_over(rt, alloc, &theta, k, feeders, steps)
}

fn run_over(
    rt: &impl Abort,
    alloc: Global,
    theta: &Theta,
    k: u32,
    feeders: u32,
    steps: &[&str],
) -> Result<(), AllocError> {
    let mut joiner = first(alloc, k, feeders, theta)?;
    let played = play(rt, alloc, &mut joiner, steps);
    drop(joiner);
    played
}

fn first<'a>(
    alloc: Global,
    k: u32,
    feeders: u32,
    theta: &'a Theta,
) -> Result<Joiner<'a>, AllocError> {
    if k > 8 || feeders == 0 {
        return Err(AllocError);
    }
    Joiner::start(alloc, k, 0, 0, feeders, theta)
}

#[test]
fn a_step_finds_each_pair_once(rt: HostRuntime) -> Result<(), Fail> {
    let steps = [
        "feeder_0 row R 0 0 0 holds 0 sends ",
        "feeder_0 turn 1 1 holds 0 sends [Joiner(1) moved 1 0]",
        "feeder_1 row S 0 1 0 holds 0 sends [found 0 0]",
        "feeder_0 row S 1 0 1 holds 0 sends [found 0 1]",
        "joiner_1 moved 1 R 1 255 0 holds 0 sends [found 1 1]",
        "feeder_1 turn 1 1 holds 0 sends [Joiner(1) moved_end 1]",
        "joiner_1 moved_end 1 holds 0 sends [settled 1]",
        "feeder_0 end holds 0 sends ",
        "feeder_1 end holds 0 sends [fin 2 1 moved 1]",
    ];
    run(&rt, rt.alloc(), "1 = 1", 1, 2, &steps)?;
    Ok(())
}

#[test]
fn an_early_row_waits_for_its_step(rt: HostRuntime) -> Result<(), Fail> {
    let steps = [
        "feeder_0 row R 0 0 0 holds 0 sends ",
        "joiner_1 moved 1 R 1 255 0 holds 1 sends ",
        "feeder_0 turn 1 1 holds 0 sends [Joiner(1) moved 1 0]",
        "feeder_1 row S 0 1 0 holds 0 sends [found 0 0]",
        "feeder_0 row S 1 0 1 holds 0 sends [found 0 1][found 1 1]",
        "feeder_1 turn 1 1 holds 0 sends [Joiner(1) moved_end 1]",
        "joiner_1 moved_end 1 holds 0 sends [settled 1]",
        "feeder_0 end holds 0 sends ",
        "feeder_1 end holds 0 sends [fin 2 1 moved 1]",
    ];
    run(&rt, rt.alloc(), "1 = 1", 1, 2, &steps)?;
    Ok(())
}

#[test]
fn a_turn_to_the_same_shift_is_held(rt: HostRuntime) -> Result<(), Fail> {
    let steps = [
        "feeder_0 turn 1 0 holds 1 sends ",
        "feeder_0 row R 0 0 0 holds 2 sends ",
    ];
    run(&rt, rt.alloc(), "1 = 1", 0, 1, &steps)?;
    Ok(())
}

#[test]
fn three_steps_are_held_at_once(rt: HostRuntime) -> Result<(), Fail> {
    let steps = [
        "feeder_0 row R 0 0 0 holds 0 sends ",
        "feeder_0 row S 0 0 0 holds 0 sends [found 0 0]",
        "feeder_0 turn 1 1 holds 0 sends [Joiner(1) moved 1 0][Joiner(1) moved_end 1]",
        "feeder_0 row R 1 0 1 holds 0 sends [found 1 0]",
        "feeder_0 turn 2 2 holds 1 sends ",
        "feeder_0 row S 1 0 2 holds 2 sends ",
        "feeder_0 turn 3 1 holds 3 sends ",
        "feeder_0 row S 2 0 3 holds 4 sends ",
        "feeder_0 end holds 5 sends ",
        "joiner_1 moved 1 R 7 0 0 holds 5 sends ",
        "joiner_1 moved_end 1 holds 3 sends [settled 1][Joiner(2) moved 2 0][Joiner(2) moved 2 1][Joiner(2) moved 2 7][Joiner(2) moved_end 2][found 0 1][found 1 1][found 7 1]",
        "joiner_2 moved_end 2 holds 0 sends [settled 2][Joiner(2) moved 3 0][Joiner(2) moved 3 1][Joiner(2) moved_end 3][found 0 2][found 1 2][found 7 2]",
        "joiner_2 moved_end 3 holds 0 sends [settled 3][fin 3 3 moved 1 3 2]",
    ];
    run(&rt, rt.alloc(), "1 = 1", 3, 1, &steps)?;
    Ok(())
}

#[test]
fn a_key_serves_all_stores(rt: HostRuntime) -> Result<(), Fail> {
    let steps = [
        "feeder_0 row R 4 0 0 holds 0 sends ",
        "feeder_0 row S 3 0 0 holds 0 sends ",
        "feeder_0 turn 1 1 holds 0 sends [Joiner(1) moved 1 4][Joiner(1) moved_end 1]",
        "feeder_0 row S 4 0 1 holds 0 sends [found 4 4]",
        "feeder_0 row S 5 0 1 holds 0 sends ",
        "joiner_1 moved 1 R 5 200 0 holds 0 sends [found 5 5]",
        "joiner_1 moved_end 1 holds 0 sends [settled 1]",
        "feeder_0 row R 3 0 1 holds 0 sends [found 3 3]",
        "feeder_0 end holds 0 sends [fin 3 3 moved 1]",
    ];
    run(&rt, rt.alloc(), "r.x = s.x", 1, 1, &steps)?;
    Ok(())
}

#[test]
fn an_access_beside_an_order_serves_all_stores(rt: HostRuntime) -> Result<(), Fail> {
    let steps = [
        "feeder_0 row R 4 0 0 holds 0 sends ",
        "feeder_0 row S 3 0 0 holds 0 sends [found 4 3]",
        "feeder_0 turn 1 1 holds 0 sends [Joiner(1) moved 1 4][Joiner(1) moved_end 1]",
        "feeder_0 row S 5 0 1 holds 0 sends ",
        "joiner_1 moved 1 R 5 200 0 holds 0 sends [found 5 5]",
        "joiner_1 moved_end 1 holds 0 sends [settled 1]",
        "feeder_0 row R 3 0 1 holds 0 sends [found 3 3]",
        "feeder_0 end holds 0 sends [fin 3 2 moved 1]",
    ];
    let predicate = "r.x - r.x = s.x - s.x and s.x <= r.x";
    run(&rt, rt.alloc(), predicate, 1, 1, &steps)?;
    Ok(())
}
