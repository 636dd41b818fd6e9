// What finished seats leave.

ghost use Rattle.std.specs.Prelude.{◌≡◌, true, false, IfOk, map};
ghost use Rattle.epoch_tags.specs.declared.actor.Actor.{Actor as Actor'};
ghost use Rattle.actor_core.specs.Families.{AreFronts};
ghost use Rattle.actor_core.specs.Players.{IsFinishedFamily};
ghost use Rattle.actor_core.specs.Tasks.{IsRun, IsTask, Task};
ghost use Rattle.ring_runtime.specs.Bouts.{StandsFor, is_collected, journal_in, lists_in};
ghost use Rattle.ring_runtime.specs.Endings.{end_of, lists_left};

use crate::bouts::RingSeats;
use crate::inlets::Inlets;
use crate::outlets::Outlets;
use crate::seat::RingSeat;
use actor_core::{Cast, Core, answer, last_two};
use std::alloc::{AllocError, Global};
use std::marker::Model;
use trace_law::{Run, complete_is_finished, finished_answers};

/// What an actor's finished seat leaves: its ends of rings and its outlets.
#[derive(Drop)]
pub struct RingEnd {
    pub(crate) cast: Cast,
    pub(crate) ins: Inlets,
    pub(crate) outs: Outlets,
}

impl Model for RingEnd {
    ghost use Rattle.ring_runtime.specs.Endings.{RingEndView};

    ghost Value = { RingEndView };

    ghost view = { λ end. record {
      cast = end.cast;
      ins = end.ins;
      outs = end.outs;
    } };
}

/// What the finished seats of a run leave, by the numbers of actors: all ends of rings, and all outlets with what waits
/// in them.
#[derive(Drop)]
pub struct RingEnds {
    cast: Cast,
    ends: Vec<RingEnd>,
}

impl Model for RingEnds {
    ghost use Rattle.ring_runtime.specs.Endings.{RingEndsView};

    ghost Value = { RingEndsView };

    ghost view = { λ ends. record {
      cast = ends.cast;
      ends = ends.ends.items;
    } };
}

/// The answer of a run over rings, and what its seats leave.
#[derive(Drop)]
pub struct RingRun {
    pub run: Run,
    pub ends: RingEnds,
    /// Whether the input was finished in another way, since no message could move. It never is.
    pub fallen: bool,
}

// The machines of seats, and what else they leave.
fn parts<'a>(
    alloc: Global,
    seats: Vec<RingSeat<'a>>,
) -> Result<(Vec<Core<'a>>, Vec<RingEnd>), AllocError>
    ensures cores { IfOk result (λ parts. parts.0.items ≡ map (λ s. s.core) seats.entry.items) }
    ensures ends { IfOk result (λ parts. parts.1.items ≡ map end_of seats.entry.items) }
{
    let mut cores = Vec::new(alloc);
    let mut ends = Vec::new(alloc);
    for seat in seats {
        let (core, end) = seat.into_parts();
        cores.push(core)?;
        ends.push(end)?;
    }
    Ok((cores, ends))
}

impl<'a> RingSeats<'a> {
    /// Whether the collector is complete. It takes no memory.
    pub fn complete(&self) -> bool
        ensures { result ≡ is_collected self.now }
    {
        match self.seats.as_slice().last() {
            Some(seat) => seat.is_complete(),
            None => false,
        }
    }

    /// The answer of seats whose collector is complete, with so many bouts, and what they leave. Spent seats answer
    /// `AllocError` too, and after it the seats are gone.
    pub fn finish(self, bouts: u64) -> Result<RingRun, AllocError>
        requires { is_collected self ≡ true }
        ensures family { IfOk result (λ told.
            (task : Task) → IsTask task → StandsFor task self.entry
            → AreFronts (lists_in self.entry)
            → IsFinishedFamily task told.run.journal (lists_left told.ends)) }
        ensures run { IfOk result (λ told.
            (task : Task) → IsTask task → StandsFor task self.entry
            → AreFronts (lists_in self.entry)
            → IsRun task told.run.journal told.run) }
        ensures ends { IfOk result (λ told.
            (a : Actor') → lists_left told.ends a ≡ lists_in self.entry a) }
        ensures journal { IfOk result (λ told. told.run.journal ≡ journal_in self.entry) }
        ensures bouts { IfOk result (λ told. told.run.bouts ≡ bouts) }
        ensures fallen { IfOk result (λ told. told.fallen ≡ false) }
    {
        complete_is_finished();
        finished_answers();
        let RingSeats {
            alloc,
            cast,
            seats,
            spent,
        } = self;
        if spent {
            drop(seats);
            return Err(AllocError);
        }
        let (cores, ends) = parts(alloc, seats)?;
        let (controller, collector) = last_two(cores);
        let run = answer(alloc, &controller, collector, bouts)?;
        Ok(RingRun {
            run,
            ends: RingEnds { cast, ends },
            fallen: false,
        })
    }
}
