// A word on which one thread sleeps until another wakes it.

use crossbeam_utils::CachePadded;
use std::sync::Wait;
use std::sync::atomic::AtomicU64;
use std::sync::atomic::Ordering::SeqCst;

const AWAKE: u64 = 0;

const ASLEEP: u64 = 1;

#[derive(Drop)]
pub(crate) struct Signal {
    word: CachePadded<AtomicU64>,
}

impl Signal {
    fn new() -> Signal {
        Signal {
            word: CachePadded::new(AtomicU64::new(AWAKE)),
        }
    }

    // Says that its thread is about to sleep. Whoever hands something over behind this wakes it.
    pub(crate) fn announce(&self) {
        let _ = self.word.swap(ASLEEP, SeqCst);
    }

    // Sleeps until it is woken, or not so long.
    pub(crate) fn sleep<R: Wait>(&self, rt: &R) {
        self.word.park(rt, ASLEEP as u32);
    }

    // Wakes its thread, if that sleeps or is about to.
    pub(crate) fn wake(&self) {
        if self.word.swap(AWAKE, SeqCst) == ASLEEP {
            self.word.wake_all();
        }
    }
}

/// What one thread of a pool and the pool's owner sleep on while they have nothing to do. A pool borrows it, so that it
/// is made before the scope of the pool's threads. It takes no memory of its own.
#[derive(Drop)]
pub struct Signals {
    // The thread sleeps on it until it has a job.
    pub(crate) job: Signal,
    // The owner sleeps on it until the job is done.
    pub(crate) done: Signal,
}

impl Signals {
    /// Signals on which nobody sleeps.
    pub fn new() -> Signals {
        Signals {
            job: Signal::new(),
            done: Signal::new(),
        }
    }
}
