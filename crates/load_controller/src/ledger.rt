// The machine's parts, and how it counts a message.

ghost use Rattle.std.specs.Prelude.{◌≡◌, ◌+◌, ◌^◌, ◌<◌, ◌≤◌, length, IfOk, OnOk, OnErr};
ghost use Rattle.grid_map.specs.Load.{AreWeights};
ghost use Rattle.load_controller.specs.Journal.{IsFirst, Fits};
ghost use Rattle.load_controller.specs.Standing.{rules_with};
ghost use Rattle.load_controller.specs.Machine.{Begins, IsSound, CauseFits, IsOfGrid, opens_of, Notes, CountsCause};

use crate::decisions::next_line;
use crate::line::{Cause, Journal, TurnLine};
use crate::marks::{note_drain, note_settle};
use crate::post::post_line;
use crate::stop::is_over;
use epoch_tags::{Held, Sends, all_down};
use grid_map::Weights;
use std::alloc::{AllocError, Global};

// How many joiners there are.
pub(crate) fn joiners(k: u32) -> u32
    requires { k ≤ 8 }
    ensures { result ≡ 2 ^ k }
{
    1 << k
}

#[derive(Drop)]
pub(crate) struct Ledger {
    pub(crate) k: u32,
    pub(crate) feeders: u32,
    pub(crate) fixed: Option<u32>,
    pub(crate) weights: Weights,
    pub(crate) journal: Journal,
    // The journal's last line.
    pub(crate) line: TurnLine,
    // The feeders that have drained.
    pub(crate) drained: Vec<bool>,
    // The joiners that have settled in the current epoch, and how many they are.
    pub(crate) settled: Vec<bool>,
    pub(crate) settled_count: u32,
    // All is over: `Stop` was sent.
    pub(crate) over: bool,
    // Epochs that joiners said they have settled, and that wait.
    pub(crate) held: Held<u32>,
}

impl Ledger {
    // A beginning at this line, with nothing held.
    pub(crate) fn start_at(
        alloc: Global,
        k: u32,
        feeders: u32,
        fixed: Option<u32>,
        weights: Weights,
        line: TurnLine,
    ) -> Result<Ledger, AllocError>
        requires k { k ≤ 8 }
        requires weights { AreWeights weights }
        requires fits { Fits (rules_with k feeders fixed weights) line }
        requires cause { IsFirst line.cause }
        requires epoch { line.epoch ≤ 2 ^ 31 }
        ensures { IfOk result (λ ledger. Begins (rules_with k feeders fixed weights) line ledger) }
    {
        let joiners = joiners(k);
        let mut journal = Journal::new(alloc);
        journal.push(line)?;
        Ok(Ledger {
            k,
            feeders,
            fixed,
            weights,
            journal,
            line,
            drained: all_down(alloc, feeders)?,
            settled: all_down(alloc, joiners)?,
            settled_count: 0,
            over: feeders == 0,
            held: Held::start(alloc, joiners)?,
        })
    }

    // Whether a step is open after a line of this cause.
    fn keeps_open(&self, cause: Cause) -> bool
        requires { self.now.settled_count + 1 < 2 ^ 32 }
        ensures { result ≡ opens_of self.now cause }
    {
        let ends = match cause {
            Cause::Start => false,
            Cause::Wave => false,
            Cause::Count { .. } => false,
            Cause::Settle { .. } => self.settled_count as usize + 1 == self.settled.len(),
            Cause::Drain { .. } => false,
        };
        self.line.moving && !ends
    }

    // Adds the line to the journal. On an error nothing is changed.
    fn note(&mut self, line: TurnLine) -> Result<(), AllocError>
        requires grid { IsOfGrid (length self.old.drained.items)
            (length self.old.settled.items) line.cause }
        requires count { self.old.settled_count + 1 < 2 ^ 32 }
        ensures ok { OnOk result (Notes line self.old self.new) }
        ensures err { OnErr result (self.new ≡ self.old) }
    {
        self.journal.push(line)?;
        let stays = line.epoch == self.line.epoch;
        note_drain(&mut self.drained, line.cause);
        self.settled_count = note_settle(&mut self.settled, self.settled_count, stays, line.cause);
        self.line = line;
        self.over = self.over || is_over(line, &self.drained);
        Ok(())
    }

    // Counts a message of this cause, and sends what its line sends.
    pub(crate) fn count(&mut self, cause: Cause, sends: &mut Sends) -> Result<(), AllocError>
        requires sound { IsSound self.old }
        requires fits { CauseFits self.old cause }
        ensures sound { IsSound self.new }
        ensures took { OnOk result (CountsCause cause self.old self.new sends.old sends.new) }
    {
        let before = self.line;
        let was_over = self.over;
        let opens = self.keeps_open(cause);
        let line = next_line(self.k, self.fixed, self.weights, before, opens, cause);
        self.note(line)?;
        post_line(self.feeders, before, line, !was_over && self.over, sends)?;
        Ok(())
    }
}
