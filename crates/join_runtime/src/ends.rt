// What finished seats leave.

ghost use Rattle.std.specs.Prelude.{◌≡◌, ◌++◌, ◌∷◌, [], true, IfOk, OnOk, map};
ghost use Rattle.epoch_tags.specs.declared.actor.Actor.{Actor as Actor'};
ghost use Rattle.actor_core.specs.Families.{AreFronts};
ghost use Rattle.actor_core.specs.Players.{IsFinishedFamily};
ghost use Rattle.actor_core.specs.Rests.{IsRestOf};
ghost use Rattle.actor_core.specs.Tasks.{IsRun, IsTask, Task};
ghost use Rattle.load_controller.specs.Journal.{last_line};
ghost use Rattle.load_controller.specs.declared.line.TurnLine.{TurnLine as TurnLine'};
ghost use Rattle.join_runtime.specs.Bouts.{AllJoinBy, StandsFor, lists_in};
ghost use Rattle.join_runtime.specs.Endings.{end_of, is_collected, journal_in, lists_left};

use crate::bouts::Seats;
use crate::seat::Seat;
use actor_core::{Cast, Core, WaveRun, answer, last_two, machines_left, wave_run};
use row_cells::Items;
use ruled_links::{Inbox, Mouth};
use std::alloc::{AllocError, Global};
use std::marker::Model;
use trace_law::{Run, answers_in_the_end, complete_is_finished, finished_answers};

/// What an actor's finished seat leaves: its inbox and its mouths.
#[derive(Drop)]
pub struct End {
    pub(crate) cast: Cast,
    pub(crate) inbox: Inbox,
    pub(crate) mouths: Vec<Option<Mouth>>,
}

impl Model for End {
    ghost use Rattle.join_runtime.specs.Endings.{EndView};

    ghost Value = { EndView };

    ghost view = { λ end. record {
      cast = end.cast;
      inbox = end.inbox;
      mouths = end.mouths.items;
    } };
}

/// What the finished seats of a run leave, by the numbers of actors.
#[derive(Drop)]
pub struct Ends {
    cast: Cast,
    ends: Vec<End>,
}

impl Model for Ends {
    ghost use Rattle.join_runtime.specs.Endings.{EndsView};

    ghost Value = { EndsView };

    ghost view = { λ ends. record {
      cast = ends.cast;
      ends = ends.ends.items;
    } };
}

/// The answer of a run, and what its seats leave.
#[derive(Drop)]
pub struct Told {
    pub run: Run,
    pub ends: Ends,
}

/// What a wave answers and leaves for the next, and what its seats leave.
#[derive(Drop)]
pub struct WaveTold {
    pub wave: WaveRun,
    pub ends: Ends,
}

/// What several runs leave.
pub type Trail = Items<Ends>;

// Appends a seat's machine, and what else it leaves.
fn add_parts<'a>(
    seat: Seat<'a>,
    cores: &mut Vec<Core<'a>>,
    ends: &mut Vec<End>,
) -> Result<(), AllocError>
    ensures cores { OnOk result (cores.new.items ≡ cores.old.items ++ seat.entry.core ∷ []) }
    ensures ends { OnOk result (ends.new.items ≡ ends.old.items ++ end_of seat.entry ∷ []) }
{
    let (core, end) = seat.into_parts();
    match cores.push(core) {
        Ok(()) => {
            ends.push(end)?;
            Ok(())
        }
        Err(refused) => {
            drop(refused);
            drop(end);
            Err(AllocError)
        }
    }
}

// The machines of seats, and what else they leave.
fn parts<'a>(alloc: Global, seats: Vec<Seat<'a>>) -> Result<(Vec<Core<'a>>, Vec<End>), AllocError>
    ensures cores { IfOk result (λ parts. parts.0.items ≡ map (λ s. s.core) seats.entry.items) }
    ensures ends { IfOk result (λ parts. parts.1.items ≡ map end_of seats.entry.items) }
{
    let mut cores = Vec::new(alloc);
    let mut ends = Vec::new(alloc);
    for seat in seats {
        add_parts(seat, &mut cores, &mut ends)?;
    }
    Ok((cores, ends))
}

impl<'a> Seats<'a> {
    /// Whether the collector is complete. It takes no memory.
    pub fn complete(&self) -> bool
        ensures { result ≡ is_collected self.now }
    {
        match self.seats.as_slice().last() {
            Some(seat) => seat.is_complete(),
            None => false,
        }
    }

    /// The answer of seats whose collector is complete, with so many bouts, and what they leave. Spent seats answer
    /// `AllocError` too, and after it the seats are gone.
    pub fn finish(self, bouts: u64) -> Result<Told, AllocError>
        requires { is_collected self ≡ true }
        ensures family { IfOk result (λ told. (task : Task) → IsTask task
            → StandsFor task self.entry → AreFronts (lists_in self.entry)
            → IsFinishedFamily task told.run.journal (lists_left told.ends)) }
        ensures run { IfOk result (λ told. (task : Task) → IsTask task
            → StandsFor task self.entry → AreFronts (lists_in self.entry)
            → IsRun task told.run.journal told.run) }
        ensures ends { IfOk result (λ told.
            (a : Actor') → lists_left told.ends a ≡ lists_in self.entry a) }
        ensures journal { IfOk result (λ told. told.run.journal ≡ journal_in self.entry) }
        ensures bouts { IfOk result (λ told. told.run.bouts ≡ bouts) }
    {
        complete_is_finished();
        finished_answers();
        let Seats {
            alloc,
            cast,
            seats,
            spent,
        } = self;
        if spent {
            drop(seats);
            return Err(AllocError);
        }
        let (cores, ends) = parts(alloc, seats)?;
        let (controller, collector) = last_two(cores);
        let run = answer(alloc, &controller, collector, bouts)?;
        Ok(Told {
            run,
            ends: Ends { cast, ends },
        })
    }

    /// The answer of a wave whose collector is complete, with so many bouts, what it leaves for the next, and what its
    /// seats leave. After `AllocError` the seats are gone.
    pub fn finish_wave(self, bouts: u64) -> Result<WaveTold, AllocError>
        requires { is_collected self ≡ true }
        ensures family { IfOk result (λ told. (task : Task) → IsTask task
            → StandsFor task self.entry → AreFronts (lists_in self.entry)
            → IsFinishedFamily task told.wave.run.journal (lists_left told.ends)) }
        ensures run { IfOk result (λ told. (task : Task) → IsTask task
            → StandsFor task self.entry → AreFronts (lists_in self.entry)
            → IsRun task told.wave.run.journal told.wave.run) }
        ensures rest { IfOk result (λ told. (task : Task) → IsTask task
            → StandsFor task self.entry → AreFronts (lists_in self.entry)
            → AllJoinBy task.input.theta self.entry
            → IsRestOf task.input task.setting told.wave.rest) }
        ensures line { IfOk result (λ told. (first : TurnLine')
            → told.wave.rest.line ≡ last_line first told.wave.run.journal) }
        ensures ends { IfOk result (λ told.
            (a : Actor') → lists_left told.ends a ≡ lists_in self.entry a) }
        ensures journal { IfOk result (λ told. told.wave.run.journal ≡ journal_in self.entry) }
        ensures bouts { IfOk result (λ told. told.wave.run.bouts ≡ bouts) }
    {
        complete_is_finished();
        finished_answers();
        answers_in_the_end();
        let Seats {
            alloc,
            cast,
            seats,
            ..
        } = self;
        let (cores, ends) = parts(alloc, seats)?;
        let left = machines_left(alloc, cast.feeders, cores)?;
        let (stores, controller, collector) = left;
        let wave = wave_run(alloc, cast.joiners, stores, &controller, collector, bouts)?;
        Ok(WaveTold {
            wave,
            ends: Ends { cast, ends },
        })
    }
}
