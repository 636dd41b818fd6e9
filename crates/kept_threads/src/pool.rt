// All threads of a pool, and a round of work.

ghost use Rattle.std.specs.Prelude.{◌≡◌, ◌<◌, ◌≤◌, length, vec_capacity};
ghost use Rattle.kept_threads.specs.Changes.{AllChanged, EachChanged};

use crate::signal::Signals;
use crate::task::{Task, run_on_each};
use crate::worker::{Worker, do_jobs};
use rtrb::RingBuffer;
use std::alloc::Global;
use std::marker::{Send, Sync};
use std::sync::Wait;
use std::thread::Scope;

/// Threads that are kept between rounds of work on items of one type. Once it is dropped, they end.
#[derive(Drop)]
pub struct Pool<'s, T, W: Task<T>> {
    alloc: Global,
    task: &'s W,
    workers: Vec<Worker<'s, T, W>>,
}

// Works on these items, in chunks of this size: the first worker has the last chunk, and the others the rest.
fn work_by<R: Wait, T: Drop, W: Task<T>>(
    rt: &R,
    alloc: Global,
    task: &W,
    workers: &mut [Worker<T, W>],
    size: usize,
    mut items: Vec<T>,
) -> Vec<T>
    requires { 0 < size }
    ensures changed { AllChanged W.changes items.items result.items }
    ensures room { vec_capacity items ≤ vec_capacity result }
{
    let count = items.len();
    let Some((worker, others)) = workers.split_first_mut() else {
        run_on_each(task, items.as_mut_slice());
        return items;
    };
    if count <= size {
        run_on_each(task, items.as_mut_slice());
        return items;
    }
    let Ok(last) = items.split_off((count - 1) / size * size) else {
        run_on_each(task, items.as_mut_slice());
        return items;
    };
    let given = worker.give(alloc, last);
    let mut done = work_by(rt, alloc, task, others, size, items);
    let mut back = worker.back(rt, task, given);
    match done.append(&mut back) {
        Ok(()) => done,
        Err(_) => unreachable!(),
    }
}

impl<'s, T: Send + Drop + 's, W: Task<T> + Sync> Pool<'s, T, W> {
    /// Starts a thread for each of the signals, as far as the system and memory allow; with none it starts no thread.
    /// The scope waits until all have ended, so the pool is to be ended in it.
    pub fn start<E, R: Wait + Sync>(
        rt: &'s R,
        alloc: Global,
        scope: &'s Scope<'s, E>,
        signals: &'s [Signals],
        task: &'s W,
    ) -> Pool<'s, T, W> {
        let mut workers = Vec::new(alloc);
        for signals in signals {
            let Ok((jobs, theirs)) = RingBuffer::new(alloc, 1) else {
                break;
            };
            if scope
                .spawn(move || do_jobs(rt, task, theirs, signals))
                .is_ok()
            {
                let _ = workers.push(Worker { jobs, signals });
            }
        }
        Pool {
            alloc,
            task,
            workers,
        }
    }
}

impl<T: Drop, W: Task<T>> Pool<'_, T, W> {
    /// One round: does the task to each item, in at most as many chunks side by side as there are threads, the caller's
    /// own among them, and the items in their order within a chunk. It can't fail: what no thread can take for want of
    /// memory, the caller does. What it promises holds if it returns.
    pub fn work<R: Wait>(&mut self, rt: &R, items: Vec<T>) -> Vec<T>
        ensures len { length result.items ≡ length items.items }
        ensures changed { EachChanged W.changes items.items result.items }
    {
        let size = items.len().div_ceil(self.threads()).max(1);
        work_by(
            rt,
            self.alloc,
            self.task,
            self.workers.as_mut_slice(),
            size,
            items,
        )
    }

    /// How many threads do the work of a round, the caller's own among them.
    pub fn threads(&self) -> usize
        ensures { 0 < result }
    {
        self.workers.len() + 1
    }

    /// Lets the threads end, as a drop does. It is for callers with a task that has type parameters of theirs: there
    /// the check doesn't find the lifetimes that a drop at a block's end asks for.
    pub fn end(self) {
        drop(self);
    }
}
