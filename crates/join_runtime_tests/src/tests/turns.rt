// How turns are counted, how many a bout has, and how many bouts a run.

use super::{is, seen, setting};
use epoch_tags::Actor;
use run_inputs::input;
use std::alloc::{AllocError, Global};
use std::process::Abort;
use std::sync::Wait;
use std::sync::atomic::{AtomicU64, Ordering};
use std::test::Fail;
use std::thread::Threads;
use trace_law::Input;
use worker_gate::{Gate, Spot};

// A gate that stands open, and counts the turns of one actor and the bouts.
#[derive(Drop)]
struct TurnsGate {
    actor: Actor,
    turns: AtomicU64,
    // How many of them told another number than that of the turns before.
    wrong: AtomicU64,
    in_bout: AtomicU64,
    most_in_bout: AtomicU64,
    bouts: AtomicU64,
}

impl TurnsGate {
    fn new(actor: Actor) -> TurnsGate {
        TurnsGate {
            actor,
            turns: AtomicU64::new(0),
            wrong: AtomicU64::new(0),
            in_bout: AtomicU64::new(0),
            most_in_bout: AtomicU64::new(0),
            bouts: AtomicU64::new(0),
        }
    }
}

impl Gate for TurnsGate {
    fn pass(&self, spot: Spot) {
        if spot.actor != self.actor {
            return;
        }
        let before = self.turns.fetch_add(1, Ordering::SeqCst);
        if spot.turn != before {
            self.wrong.fetch_add(1, Ordering::SeqCst);
        }
        self.in_bout.fetch_add(1, Ordering::SeqCst);
    }

    fn fed(&self, _sent: u64, _batches: u64) {
        let turns = self.in_bout.load(Ordering::SeqCst);
        self.in_bout.store(0, Ordering::SeqCst);
        if turns > self.most_in_bout.load(Ordering::SeqCst) {
            self.most_in_bout.store(turns, Ordering::SeqCst);
        }
        self.bouts.fetch_add(1, Ordering::SeqCst);
    }
}

// What such a gate has counted, and the bouts that the run tells.
#[derive(Clone, Copy)]
struct TurnsSeen {
    turns: u64,
    wrong: u64,
    most_in_bout: u64,
    bouts: u64,
    told: u64,
}

// 600 rows a side, of which none match.
fn long(alloc: Global) -> Result<Input, AllocError> {
    let ones = [1u8; 600];
    let twos = [2u8; 600];
    let tickets = [77u8; 600];
    input(alloc, "r.x = s.y", (&ones, &tickets), (&twos, &tickets))
}

fn count_turns<R: Threads + Wait + Sync>(
    rt: &R,
    alloc: Global,
    actor: Actor,
) -> Result<TurnsSeen, AllocError> {
    let input = long(alloc)?;
    let gate = TurnsGate::new(actor);
    let seen = seen(rt, alloc, &input, &setting(1, 2), &gate);
    drop(input);
    let seen_turns = TurnsSeen {
        turns: gate.turns.load(Ordering::SeqCst),
        wrong: gate.wrong.load(Ordering::SeqCst),
        most_in_bout: gate.most_in_bout.load(Ordering::SeqCst),
        bouts: gate.bouts.load(Ordering::SeqCst),
        told: seen?.bouts,
    };
    drop(gate);
    Ok(seen_turns)
}

// An actor has more than 1,200 turns, numbered one by one, at most 256 in a bout, and in few bouts.
fn has_its_turns<R: Abort + Threads + Wait + Sync>(
    rt: &R,
    alloc: Global,
    actor: Actor,
) -> Result<(), AllocError> {
    let counted = count_turns(rt, alloc, actor)?;
    is(rt, counted.turns > 1_200, true, "there are so many turns");
    is(rt, counted.wrong, 0, "turns with another number");
    is(
        rt,
        counted.most_in_bout <= 256,
        true,
        "in a bout are 256 at most",
    );
    is(rt, counted.bouts, counted.told, "bouts");
    is(rt, counted.bouts <= 600, true, "there are few bouts");
    Ok(())
}

#[test]
fn turns_of_a_feeder_and_of_the_controller(rt: HostRuntime) -> Result<(), Fail> {
    has_its_turns(&rt, rt.alloc(), Actor::Feeder(0))?;
    has_its_turns(&rt, rt.alloc(), Actor::Controller)?;
    Ok(())
}
