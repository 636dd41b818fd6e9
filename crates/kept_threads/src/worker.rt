// A thread of a pool: the loop that it runs, and the end by which the pool's owner gives it jobs.

ghost use Rattle.std.specs.Prelude.{List};
ghost use Rattle.kept_threads.specs.Changes.{AllChanged};
ghost use Rattle.kept_threads.specs.Gifts.{IsGiven};

use crate::job::{Awaited, Job, answer, ask};
use crate::signal::Signals;
use crate::task::{Task, run_on_each};
use rtrb::{Consumer, Producer, PushError};
use std::alloc::Global;
use std::hint::spin_loop;
use std::sync::Wait;

// How often a thread looks before it sleeps.
const LOOKS: u32 = 100;

// The end by which jobs are given to a thread. Once it is dropped, the thread ends.
pub(crate) struct Worker<'s, T, W: Task<T>> {
    pub(crate) jobs: Producer<Job<T, W>>,
    pub(crate) signals: &'s Signals,
}

impl<T: Drop, W: Task<T>> Drop for Worker<'_, T, W> {
    fn drop(self) {
        let Worker { jobs, signals } = self;
        drop(jobs);
        signals.job.wake();
    }
}

fn look<T: Drop, W: Task<T>>(jobs: &mut Consumer<Job<T, W>>) -> Option<Job<T, W>> {
    for _ in 0..LOOKS {
        if let Ok(job) = jobs.pop() {
            return Some(job);
        }
        spin_loop();
    }
    None
}

// The next job; none once there will be no more.
fn next_job<R: Wait, T: Drop, W: Task<T>>(
    rt: &R,
    jobs: &mut Consumer<Job<T, W>>,
    signals: &Signals,
) -> Option<Job<T, W>> {
    for _ in rt.forever() {
        if let Some(job) = look(jobs) {
            return Some(job);
        }
        signals.job.announce();
        if let Ok(job) = jobs.pop() {
            return Some(job);
        }
        if jobs.is_abandoned() {
            return None;
        }
        signals.job.sleep(rt);
    }
    unreachable!()
}

// What a thread of a pool does.
pub(crate) fn do_jobs<R: Wait, T: Drop, W: Task<T>>(
    rt: &R,
    task: &W,
    mut jobs: Consumer<Job<T, W>>,
    signals: &Signals,
) {
    for _ in rt.forever() {
        let Some(job) = next_job(rt, &mut jobs, signals) else {
            return;
        };
        answer(job, task);
        signals.done.wake();
    }
}

// Waits until the items are back.
fn wait_back<R: Wait, T: Drop, W: Task<T>>(
    rt: &R,
    awaited: Awaited<T, W>,
    signals: &Signals,
) -> Vec<T>
    ensures { AllChanged W.changes awaited.asked.value.items result.items }
{
    let mut awaited = awaited;
    let mut looks = 0;
    for _ in rt.forever() {
        match awaited.back() {
            Ok(items) => return items,
            Err(same) => awaited = same,
        }
        if looks < LOOKS {
            looks += 1;
            spin_loop();
        } else {
            looks = 0;
            signals.done.announce();
            match awaited.back() {
                Ok(items) => return items,
                Err(same) => awaited = same,
            }
            signals.done.sleep(rt);
        }
    }
    unreachable!()
}

// Items that were given to a thread, or that stayed here.
pub(crate) enum Given<T, W: Task<T>> {
    There(Awaited<T, W>),
    Here(Vec<T>),
}

impl<T: Drop, W: Task<T>> Worker<'_, T, W> {
    // Gives it these items, if there is memory for a ring and it has none yet.
    pub(crate) fn give(&mut self, alloc: Global, items: Vec<T>) -> Given<T, W>
        ensures { IsGiven items.items result }
    {
        match ask(alloc, items) {
            Ok((job, awaited)) => match self.jobs.push(job) {
                Ok(()) => {
                    self.signals.job.wake();
                    Given::There(awaited)
                }
                Err(PushError::Full(job)) => Given::Here(job.withdrawn()),
            },
            Err(items) => Given::Here(items),
        }
    }

    // The items, worked on: there, or else now.
    pub(crate) fn back<R: Wait>(&self, rt: &R, task: &W, given: Given<T, W>) -> Vec<T>
        ensures { (asked : List T) → IsGiven asked given → AllChanged W.changes asked result.items }
    {
        match given {
            Given::There(awaited) => wait_back(rt, awaited, self.signals),
            Given::Here(mut items) => {
                run_on_each(task, items.as_mut_slice());
                items
            }
        }
    }
}
