// Rounds of a pool of threads, with next to nothing to do in each: what a bout of a run costs beside its turns.

use kept_threads::{Pool, Signals, Task};
use std::alloc::{AllocError, Global};
use std::marker::Sync;
use std::sync::Wait;
use std::thread;
use std::thread::Threads;

// Adds one.
#[derive(Drop)]
struct AddOne;

impl Task<u64> for AddOne {
    ghost use Rattle.std.specs.Prelude.{⊤};

    ghost changes = { λ old new. ⊤ };

    fn run(&self, item: &mut u64) {
        *item = item.wrapping_add(1);
    }
}

// So many zeros.
fn zeros(alloc: Global, count: u32) -> Result<Vec<u64>, AllocError> {
    let mut numbers = Vec::new(alloc);
    for _ in 0..count {
        numbers.push(0)?;
    }
    Ok(numbers)
}

// Signals for so many threads.
fn signals(alloc: Global, count: u32) -> Result<Vec<Signals>, AllocError> {
    let mut signals = Vec::new(alloc);
    for _ in 0..count {
        signals.push(Signals::new())?;
    }
    Ok(signals)
}

// The sum of these numbers after so many rounds.
fn sum_after<R: Wait, W: Task<u64>>(
    rt: &R,
    pool: Pool<u64, W>,
    items: Vec<u64>,
    rounds: u32,
) -> u64 {
    let mut pool = pool;
    let mut items = items;
    for _ in 0..rounds {
        items = pool.work(rt, items);
    }
    pool.end();
    let mut sum = 0u64;
    for item in &items {
        sum = sum.wrapping_add(*item);
    }
    sum
}

// The sum of these numbers after so many rounds by the caller and a thread for each of the signals.
fn sum_by<R: Threads + Wait + Sync, W: Task<u64> + Sync>(
    rt: &R,
    alloc: Global,
    items: Vec<u64>,
    signals: &[Signals],
    task: &W,
    rounds: u32,
) -> u64 {
    thread::scope(thread::scope_env(), rt, move |scope| {
        sum_after(
            rt,
            Pool::start(rt, alloc, scope, signals, task),
            items,
            rounds,
        )
    })
}

/// How often a number was made one greater in so many rounds of so many threads, of which each has one number.
pub fn added<R: Threads + Wait + Sync>(
    rt: &R,
    alloc: Global,
    threads: u32,
    rounds: u32,
) -> Result<u64, AllocError> {
    let items = zeros(alloc, threads)?;
    let signals = signals(alloc, threads.saturating_sub(1))?;
    Ok(sum_by(rt, alloc, items, signals.as_slice(), &AddOne, rounds))
}
