// A job, and what goes through the ring that brings its answer.

ghost use Rattle.std.specs.Prelude.{◌≡◌, ◌<◌, IfOk, IfErr};
ghost use Rattle.rtrb.specs.Ring.{sent, received, known_free};
ghost use Rattle.kept_threads.specs.Changes.{AllChanged};
ghost use Rattle.kept_threads.specs.Notes.{Answers, Asks};

use crate::task::{Task, run_on_each};
use rtrb::{Consumer, Producer, Protocol, RingBuffer};
use std::alloc::Global;
use std::marker::PhantomData;
use std::snapshot::Snapshot;

// The first note through a ring shows what is asked, and has no items; the second has the items as the task left them.
#[derive(Drop)]
pub(crate) struct Note<T> {
    pub(crate) asked: Snapshot<Vec<T>>,
    pub(crate) items: Vec<T>,
}

// The rule of such a ring.
pub(crate) struct Answered<W> {
    task: PhantomData<W>,
}

impl<T, W: Task<T>> Protocol<Note<T>> for Answered<W> {
    ghost allows = { Answers W.changes };
}

// Items to work on, with the end of the ring into which they go back.
#[derive(Drop)]
pub(crate) struct Job<T, W: Task<T>> {
    items: Vec<T>,
    answers: Producer<Note<T>, Global, Answered<W>>,
    ghost asked: { Asks items.items (sent answers) },
    ghost room: { 0 < known_free answers },
}

// The end of the ring out of which they come, and what they were.
#[derive(Drop)]
pub(crate) struct Awaited<T, W: Task<T>> {
    asked: Snapshot<Vec<T>>,
    answers: Consumer<Note<T>, Global, Answered<W>>,
    ghost known: { Asks asked.value.items (received answers) },
}

// A job of these items. It hands them back where there is no memory for a ring.
pub(crate) fn ask<T: Drop, W: Task<T>>(
    alloc: Global,
    items: Vec<T>,
) -> Result<(Job<T, W>, Awaited<T, W>), Vec<T>>
    ensures job { IfOk result (λ r. r.0.items ≡ items) }
    ensures asked { IfOk result (λ r. r.1.asked.value ≡ items) }
    ensures back { IfErr result (λ back. back ≡ items) }
{
    let Ok((mut producer, mut consumer)) = RingBuffer::with_protocol::<Global, Answered<W>>(
        alloc, 2,
    ) else {
        return Err(items);
    };
    producer.push_reserved(Note {
        asked: Snapshot::of(&items),
        items: Vec::new(alloc),
    });
    consumer.slots_beside(&mut producer);
    let first = consumer.pop_known();
    let Note { asked, items: none } = first;
    drop(none);
    Ok((
        Job {
            items,
            answers: producer,
        },
        Awaited {
            asked,
            answers: consumer,
        },
    ))
}

impl<T: Drop, W: Task<T>> Job<T, W> {
    // Its items, on which nobody worked.
    pub(crate) fn withdrawn(self) -> Vec<T>
        ensures { result ≡ self.items }
    {
        let Job { items, answers } = self;
        drop(answers);
        items
    }
}

// Does a job.
pub(crate) fn answer<T: Drop, W: Task<T>>(job: Job<T, W>, task: &W) {
    let Job {
        mut items,
        mut answers,
    } = job;
    let asked = Snapshot::of(&items);
    run_on_each(task, items.as_mut_slice());
    answers.push_reserved(Note { asked, items });
}

impl<T: Drop, W: Task<T>> Awaited<T, W> {
    // The items, once they are back.
    pub(crate) fn back(self) -> Result<Vec<T>, Awaited<T, W>>
        ensures ok { IfOk result (λ items.
            AllChanged W.changes self.asked.value.items items.items) }
        ensures not_yet { IfErr result (λ same. same.asked.value ≡ self.asked.value) }
    {
        let Awaited { asked, mut answers } = self;
        match answers.pop() {
            Ok(note) => {
                let Note { asked: _, items } = note;
                Ok(items)
            }
            Err(_) => Err(Awaited { asked, answers }),
        }
    }
}
