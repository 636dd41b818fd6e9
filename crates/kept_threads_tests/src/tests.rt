ghost use Rattle.std.specs.Prelude.{◌≡◌, ◌+◌, ◌%◌, ◌^◌};

use kept_threads::{Pool, Signals, Task};
use std::alloc::{AllocError, Global};
use std::marker::Sync;
use std::sync::{Barrier, Wait};
use std::thread;
use std::thread::Threads;

// Adds one.
#[derive(Drop)]
struct AddOne;

impl Task<u64> for AddOne {
    ghost changes = { λ old new. new ≡ (old + 1) % 2 ^ 64 };

    fn run(&self, item: &mut u64) {
        *item = item.wrapping_add(1);
    }
}

// Waits until as many others are at work as the barrier wants, and adds one.
#[derive(Drop)]
struct Meet<'a, R> {
    rt: &'a R,
    barrier: &'a Barrier,
}

impl<'a, R: Wait + Sync> Task<u64> for Meet<'a, R> {
    ghost changes = { λ old new. new ≡ (old + 1) % 2 ^ 64 };

    fn run(&self, item: &mut u64) {
        self.barrier.wait(self.rt);
        *item = item.wrapping_add(1);
    }
}

fn numbers(alloc: Global, count: u64) -> Result<Vec<u64>, AllocError> {
    let mut numbers = Vec::new(alloc);
    for number in 0..count {
        numbers.push(number)?;
    }
    Ok(numbers)
}

fn signals(alloc: Global, count: u32) -> Result<Vec<Signals>, AllocError> {
    let mut signals = Vec::new(alloc);
    for _ in 0..count {
        signals.push(Signals::new())?;
    }
    Ok(signals)
}

fn rounds_of<R: Wait, W: Task<u64>>(
    rt: &R,
    pool: Pool<u64, W>,
    items: Vec<u64>,
    rounds: u32,
) -> (Vec<u64>, usize) {
    let mut pool = pool;
    let mut items = items;
    for _ in 0..rounds {
        items = pool.work(rt, items);
    }
    let threads = pool.threads();
    pool.end();
    (items, threads)
}

// So many rounds of work on these numbers, by the caller and a thread for each of the signals; and how many threads did
// it.
fn worked<R: Threads + Wait + Sync, W: Task<u64> + Sync>(
    rt: &R,
    alloc: Global,
    items: Vec<u64>,
    signals: &[Signals],
    task: &W,
    rounds: u32,
) -> (Vec<u64>, usize) {
    thread::scope(thread::scope_env(), rt, move |scope| {
        rounds_of(
            rt,
            Pool::start(rt, alloc, scope, signals, task),
            items,
            rounds,
        )
    })
}

fn all_are(items: &[u64], count: u64, more: u64) -> bool {
    let mut place = 0u64;
    for item in items {
        if *item != place.wrapping_add(more) {
            return false;
        }
        place = place.wrapping_add(1);
    }
    place == count
}

// Whether so many numbers come back from 1,000 rounds of so many threads, each in its place and 1,000 greater.
fn counts<R: Threads + Wait + Sync>(
    rt: &R,
    alloc: Global,
    count: u64,
    threads: u32,
) -> Result<bool, AllocError> {
    let signals = signals(alloc, threads.saturating_sub(1))?;
    let items = numbers(alloc, count)?;
    let (items, at_work) = worked(rt, alloc, items, signals.as_slice(), &AddOne, 1000);
    Ok(all_are(items.as_slice(), count, 1000) && at_work == threads as usize)
}

#[test]
fn each_number_comes_back_in_its_place(rt: HostRuntime) -> Result<(), AllocError> {
    for threads in 1..5 {
        for count in [0, 1, 2, 3, 4, 5, 10, 100] {
            assert!(&rt;
                counts(&rt, rt.alloc(), count, threads)?,
                "{count} by {threads}"
            );
        }
    }
    Ok(())
}

// Two items that wait for each other get on only where two threads are at work at one time.
#[test]
fn two_items_meet(rt: HostRuntime) -> Result<(), AllocError> {
    let alloc = rt.alloc();
    let barrier = Barrier::new(2);
    let signals = signals(alloc, 1)?;
    let meet = Meet {
        rt: &rt,
        barrier: &barrier,
    };
    let items = numbers(alloc, 2)?;
    let (items, _) = worked(&rt, alloc, items, signals.as_slice(), &meet, 1000);
    assert!(&rt; all_are(items.as_slice(), 2, 1000));
    Ok(())
}
