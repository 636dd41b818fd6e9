ghost use Rattle.std.specs.Prelude.{◌<◌};

use epoch_tags::Actor;
use std::alloc::{AllocError, Global};
use std::sync::Arc;
use std::sync::atomic::{AtomicU64, Ordering};
use std::test::*;
use std::thread;
use std::thread::Threads;
use worker_gate::{
    CountingGate, EarlierGate, Gate, LastGate, NoGate, PairGate, ProgressGate, Screen, Spot,
    standing_at,
};

fn spot(actor: Actor, turn: u64) -> Spot {
    Spot { actor, turn }
}

// Two actors pass a gate, each in a thread of its own.
fn pass_side_by_side<R: Threads + Sync, G: Gate + Sync>(rt: &R, gate: &G, a: Actor, b: Actor) {
    thread::join(rt, || gate.pass(spot(a, 0)), || gate.pass(spot(b, 0)));
}

#[test]
fn two_threads_meet(rt: HostRuntime) -> Result<(), Fail> {
    let (a, b) = (Actor::Joiner(0), Actor::Collector);
    let gate = PairGate::new(a, b, 1 << 30);
    pass_side_by_side(&rt, &gate, a, b);
    assert!(rt; gate.met());
    pass_side_by_side(&rt, &NoGate, a, b);
    let gate = CountingGate::new();
    pass_side_by_side(&rt, &gate, a, b);
    assert!(rt; gate.passes() == 2);
    Ok(())
}

#[test]
fn one_thread_does_not_meet_itself(rt: HostRuntime) -> Result<(), Fail> {
    let (a, b) = (Actor::Joiner(0), Actor::Collector);
    let gate = PairGate::new(a, b, 1000);
    for (turn, actor) in [(0, a), (0, b), (1, a), (1, Actor::Joiner(1)), (1, b)] {
        gate.pass(spot(actor, turn));
        assert!(rt; !gate.met(), "at turn {turn} of {actor:?}");
    }
    Ok(())
}

// Whether a gate drops what is let go: whether a value is then held here alone.
fn drops<G: Gate>(alloc: Global, gate: &G) -> Result<bool, AllocError> {
    let mut held = Arc::new(alloc, 7u64)?;
    gate.let_go(Arc::try_clone(&held)?);
    Ok(Arc::get_mut(&mut held).is_some())
}

#[test]
fn what_is_let_go_is_dropped_but_behind_the_last_run(rt: HostRuntime) -> Result<(), Fail> {
    let alloc = rt.alloc();
    assert!(rt; drops(alloc, &NoGate)?, "a gate without a body for it");
    let last = LastGate::new(NoGate);
    assert!(rt; !drops(alloc, &last)?, "behind the last run");
    assert!(rt;
        drops(alloc, &EarlierGate::new(&last))?,
        "behind an earlier one"
    );
    Ok(())
}

#[test]
fn a_gate_over_another_passes_all_on(rt: HostRuntime) -> Result<(), Fail> {
    let counting = CountingGate::new();
    let slip = Slip {
        times: AtomicU64::new(0),
        last: AtomicU64::new(1),
    };
    let progress = ProgressGate::new(&slip);
    LastGate::new(EarlierGate::new(&counting)).pass(spot(Actor::Collector, 0));
    assert!(rt; counting.passes() == 1);
    LastGate::new(EarlierGate::new(&progress)).fed(3, 400);
    assert_eq!(rt; slip.times.load(Ordering::SeqCst), 1);
    Ok(())
}

// A screen that keeps how often something was shown on it, and of what was shown last the two bytes of a percentage.
#[derive(Drop)]
struct Slip {
    times: AtomicU64,
    last: AtomicU64,
}

impl Screen for &Slip {
    fn show(&self, text: &[u8]) {
        self.times.fetch_add(1, Ordering::SeqCst);
        if let [
            b'j',
            b'm',
            b':',
            b' ',
            tens,
            ones,
            b' ',
            b'%',
            b' ',
            b'd',
            b'o',
            b'n',
            b'e',
            b'\r',
        ] = text
        {
            let number = 256 * (*tens as u64) + *ones as u64;
            self.last.store(number, Ordering::SeqCst);
        } else if text == b"             \r".as_slice() {
            self.last.store(0, Ordering::SeqCst);
        } else {
            self.last.store(1, Ordering::SeqCst);
        }
    }
}

#[test]
fn each_percentage_is_shown_once(rt: HostRuntime) -> Result<(), Fail> {
    let slip = Slip {
        times: AtomicU64::new(0),
        last: AtomicU64::new(1),
    };
    let gate = ProgressGate::new(&slip);
    gate.pass(spot(Actor::Feeder(0), 0));
    for (sent, batches, times, tens, ones) in [
        (0, 400, 1, b' ', b'0'),
        (3, 400, 1, b' ', b'0'),
        (4, 400, 2, b' ', b'1'),
        (4, 400, 2, b' ', b'1'),
        (40, 400, 3, b'1', b'0'),
        (399, 400, 4, b'9', b'9'),
        (1 << 63, u64::MAX, 5, b'5', b'0'),
    ] {
        gate.fed(sent, batches);
        let number = 256 * (tens as u64) + ones as u64;
        assert!(rt;
            slip.times.load(Ordering::SeqCst) == times,
            "after {sent} of {batches}"
        );
        assert!(rt;
            slip.last.load(Ordering::SeqCst) == number,
            "after {sent} of {batches}"
        );
    }
    for (sent, batches) in [(400, 400), (0, 0), (401, 400)] {
        gate.fed(sent, batches);
        assert_eq!(rt; slip.times.load(Ordering::SeqCst), 6);
        assert_eq!(rt; slip.last.load(Ordering::SeqCst), 0);
    }
    Ok(())
}

// The numbers of up to eight seats as digits, as they stand when all are dealt to chunks of this size.
fn dealt(count: usize, size: usize) -> u64
    requires { 0 < size }
{
    let mut seats = [0u64, 1, 2, 3, 4, 5, 6, 7];
    for place in 0..count.min(8) {
        let from = standing_at(place, count, size);
        if from < 8 {
            seats.swap(place, from);
        }
    }
    let mut number = 0u64;
    for seat in seats {
        number = number.wrapping_mul(10).wrapping_add(seat);
    }
    number
}

#[test]
fn seats_are_dealt_in_turn(rt: HostRuntime) -> Result<(), Fail> {
    for (count, size, wanted) in [
        (8usize, 2usize, 04_15_26_37u64),
        (8, 1, 0_1_2_3_4_5_6_7),
        (8, 8, 01234567),
        (8, 3, 036_147_25),
        (7, 4, 0246_135_7),
    ] {
        let seats = if size > 0 { dealt(count, size) } else { 0 };
        assert!(rt; seats == wanted, "{count} seats, chunks of {size}");
    }
    Ok(())
}
