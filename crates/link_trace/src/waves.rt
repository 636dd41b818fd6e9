// A wave on one thread: the end of its world, and what it leaves for the next.

ghost use Rattle.std.specs.Prelude.{◌≡◌, ◌≤◌, ◌^◌, IfOk, OnOk, false};
ghost use Rattle.epoch_tags.specs.declared.actor.Actor.{Actor as Actor'};
ghost use Rattle.load_controller.specs.Journal.{last_line};
ghost use Rattle.load_controller.specs.declared.line.TurnLine.{TurnLine as TurnLine'};
ghost use Rattle.trace_law.specs.Validity.{IsValidInput, IsValidSetting};
ghost use Rattle.trace_law.specs.Family.{migrations};
ghost use Rattle.trace_law.specs.Runs.{IsRunOf};
ghost use Rattle.trace_law.specs.MostEvents.{most_events};
ghost use Rattle.actor_core.specs.Elements.{IsAllAt};
ghost use Rattle.actor_core.specs.Lists.{ActorLists};
ghost use Rattle.actor_core.specs.Rests.{IsRestOf, IsUpto, task_upto, upto};
ghost use Rattle.actor_core.specs.Standing.{IsOver};
ghost use Rattle.actor_core.specs.Tasks.{Task, IsTask, IsRun};
ghost use Rattle.link_trace.specs.Order.{IsReplay};
ghost use Rattle.link_trace.specs.States.{state_of};
ghost use Rattle.link_trace.specs.Worlds.{AllJoinBy, StandsFor, journal_in};

use crate::places::machines;
use crate::replays::drive;
use crate::world::World;
use actor_core::{Rest, Upto, WaveRun, machines_left, wave_run};
use std::alloc::{AllocError, Global};
use std::sync::Wait;
use trace_law::{Input, Run, Setting, answers_in_the_end, events_are_few, finished_answers};

impl<'a> World<'a> {
    /// The answer of a wave that is done, with so many rounds, and what it leaves for the next. After `AllocError` the
    /// world is gone; a spent world answers it too.
    pub fn finish_wave(self, bouts: u64) -> Result<WaveRun, AllocError>
        requires { IsAllAt IsOver (state_of self).cores }
        ensures run { IfOk result (λ wave. (task : Task) (lists : Actor' → ActorLists)
            → IsTask task → StandsFor task (state_of self.entry) lists
            → IsRun task wave.run.journal wave.run) }
        ensures rest { IfOk result (λ wave. (task : Task) (lists : Actor' → ActorLists)
            → IsTask task → StandsFor task (state_of self.entry) lists
            → AllJoinBy task.input.theta (state_of self.entry)
            → IsRestOf task.input task.setting wave.rest) }
        ensures journal { IfOk result (λ wave.
            wave.run.journal ≡ journal_in (state_of self.entry)) }
        ensures line { IfOk result (λ wave. (first : TurnLine')
            → wave.rest.line ≡ last_line first wave.run.journal) }
        ensures bouts { IfOk result (λ wave. wave.run.bouts ≡ bouts) }
        ensures at_work { OnOk result (self.entry.spent ≡ false) }
    {
        finished_answers();
        answers_in_the_end();
        if self.spent {
            return Err(AllocError);
        }
        let World {
            alloc,
            cast,
            places,
            ..
        } = self;
        let cores = machines(alloc, places)?;
        let left = machines_left(alloc, cast.feeders, cores)?;
        let (stores, controller, collector) = left;
        wave_run(alloc, cast.joiners, stores, &controller, collector, bouts)
    }
}

/// Runs a world of the wave that goes on from this rest and ends there, until it is done, in the order of `replay`.
/// What it promises holds if it returns.
pub fn replay_wave<R: Wait>(
    rt: &R,
    alloc: Global,
    rest: Rest,
    input: &Input,
    setting: &Setting,
    end: Upto,
    seed: u64,
) -> Result<WaveRun, AllocError>
    requires input { IsValidInput input.now }
    requires setting { IsValidSetting setting.now }
    requires end { IsUpto rest.line end input.now }
    requires rest { IsRestOf input.now setting.now rest }
    requires epoch { rest.line.epoch ≤ 2 ^ 31 }
    ensures run { IfOk result (λ wave. IsRunOf (upto end input.now) setting.now
        rest.line wave.run.journal wave.run) }
    ensures rest { IfOk result (λ wave. IsRestOf input.now setting.now wave.rest) }
    ensures line { IfOk result (λ wave. wave.rest.line ≡ last_line rest.line wave.run.journal) }
    ensures order { IfOk result (λ wave.
        IsReplay (task_upto end input.now setting.now rest) seed wave.run) }
    ensures bound { IfOk result (λ wave. wave.run.bouts ≤ most_events (upto end input.now)
        setting.now (migrations rest.line wave.run.journal)) }
{
    events_are_few();
    let mut world = World::start_at(alloc, rest, input, setting, end)?;
    let events = drive(rt, alloc, &mut world, setting, seed)?;
    world.finish_wave(events)
}
