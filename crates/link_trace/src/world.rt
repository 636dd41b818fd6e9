// All machines of a run on one thread, and what is under way between them.

ghost use Rattle.std.specs.Prelude.{◌≡◌, ◌≤◌, ◌^◌, ℕ, [], Ok, Some, None, IfOk, IfSome, OnOk, OnErr, IsTrue, ◌↔◌, true, false};
ghost use Rattle.epoch_tags.specs.Links.{HasLink};
ghost use Rattle.epoch_tags.specs.declared.actor.Actor.TheVariants.{Feeder as Feeder'};
ghost use Rattle.epoch_tags.specs.declared.actor.Actor.{Actor as Actor'};
ghost use Rattle.trace_law.specs.Validity.{IsValidInput, IsValidSetting};
ghost use Rattle.actor_core.specs.declared.step.Step.TheVariants.{Took as Took', Idle as Idle'};
ghost use Rattle.actor_core.specs.Lists.{Began, ActorLists, no_lists};
ghost use Rattle.actor_core.specs.Standing.{IsOver, GoesOn, Waits};
ghost use Rattle.actor_core.specs.declared.machines.Core.{Core as Core'};
ghost use Rattle.actor_core.specs.Numbers.{count_of, number as number'};
ghost use Rattle.actor_core.specs.Rests.{task_upto, IsRestOf, IsUpto};
ghost use Rattle.actor_core.specs.Tasks.{Task, IsTask, IsRun, task_of};
ghost use Rattle.actor_core.specs.Elements.{IsAllAt, IsSomeAt};
ghost use Rattle.link_trace.specs.FirstWorlds.{AreNewForSome, IsFirstWorld, new_world};
ghost use Rattle.link_trace.specs.Worlds.{state_among, waiting_of, left_of, core_of, journal_in, StandsFor, StandsForSome, AllJoinBy, IsSquare, IsStill, Delivers, MakesEvent};

use crate::first_machines::first_cores;
use crate::places::{Place, all_are_over, begin, hand, machines, places_of, take};
use crate::sending::send_all;
use actor_core::{Cast, Core, Rest, Step, Upto, answer, cores_in_wave, last_two};
use epoch_tags::{Actor, Sends};
use std::alloc::{AllocError, Global};
use trace_law::{Input, Run, Setting, finished_answers, quiet_is_finished};

/// The machines of all actors of a run, and the messages that are left on each link. As long as it isn't spent, a
/// list waits at each actor for each, and it is a world of some task.
#[derive(Drop)]
pub struct World<'a> {
    pub(crate) alloc: Global,
    pub(crate) cast: Cast,
    pub(crate) places: Vec<Place<'a>>,
    pub(crate) spent: bool,
    ghost square: { spent ≡ false → IsSquare (count_of cast) (waiting_of places.items) },
    ghost stands: { spent ≡ false → ∥ StandsForSome (state_among cast places.items) ∥₁ },
}

impl<'a> World<'a> {
    ghost use Rattle.link_trace.specs.States.{state_of};

    /// All actors of a run before its first event. The world borrows the input.
    pub fn start(
        alloc: Global,
        input: &'a Input,
        setting: &Setting,
    ) -> Result<World<'a>, AllocError>
        requires input { IsValidInput input.now }
        requires setting { IsValidSetting setting.now }
        ensures fresh { IfOk result (λ world.
            StandsFor (task_of input.now setting.now) (state_of world) (λ actor. no_lists)) }
        ensures at_work { IfOk result (λ world. world.spent ≡ false) }
        // all of it is determined by the input and the setting
        ensures first { IfOk result (λ world.
            IsFirstWorld (task_of input.now setting.now) (state_of world)) }
    {
        let cast = Cast::of(setting);
        let count = cast.count();
        let cores = first_cores(alloc, input, setting, count)?;
        World::of_cores(alloc, cast, count, cores)
    }

    /// All actors of a wave before its first event, which goes on from this rest and ends there. The world borrows the
    /// input.
    pub fn start_at(
        alloc: Global,
        rest: Rest,
        input: &'a Input,
        setting: &Setting,
        end: Upto,
    ) -> Result<World<'a>, AllocError>
        requires input { IsValidInput input.now }
        requires setting { IsValidSetting setting.now }
        requires end { IsUpto rest.line end input.now }
        requires rest { IsRestOf input.now setting.now rest }
        requires epoch { rest.line.epoch ≤ 2 ^ 31 }
        ensures fresh { IfOk result (λ world. StandsFor
            (task_upto end input.now setting.now rest) (state_of world) (λ actor. no_lists)) }
        ensures joins { IfOk result (λ world. AllJoinBy input.now.theta (state_of world)) }
        ensures at_work { IfOk result (λ world. world.spent ≡ false) }
    {
        let cast = Cast::of(setting);
        let cores = cores_in_wave(alloc, rest, input, setting, end)?;
        World::of_cores(alloc, cast, cast.count(), cores)
    }

    // The world of these machines, where nothing waits.
    fn of_cores(
        alloc: Global,
        cast: Cast,
        count: u32,
        cores: Vec<Core<'a>>,
    ) -> Result<World<'a>, AllocError>
        requires count { count ≡ count_of cast }
        requires new { AreNewForSome cast cores.items }
        ensures state { IfOk result (λ world. state_of world ≡ new_world cast cores.entry.items) }
        ensures at_work { IfOk result (λ world. world.spent ≡ false) }
    {
        let places = places_of(alloc, cores, count)?;
        Ok(World {
            alloc,
            cast,
            places,
            spent: false,
        })
    }

    /// Whether the run has a link from one actor to the other, also after an error. It takes no memory.
    pub fn has(&self, from: Actor, to: Actor) -> bool
        ensures of_actors { (k : ℕ) → (state_of self.now).cast.joiners ≡ 2 ^ k
            → (IsTrue result ↔ HasLink k (state_of self.now).cast.feeders from to) }
        ensures of_run { (task : Task) (lists : Actor' → ActorLists)
            → StandsFor task (state_of self.now) lists
            → (IsTrue result ↔ HasLink task.setting.k task.setting.feeders from to) }
    {
        self.cast.has_link(from, to)
    }

    /// The machine of an actor. It takes no memory.
    pub fn machine(&self, actor: Actor) -> Option<&Core<'a>>
        ensures some { IfSome result
            (λ core. core_of (state_of self.now) actor ≡ Some core.now) }
        ensures none { result ≡ None → core_of (state_of self.now) actor ≡ None }
    {
        let at = self.cast.number(actor)?;
        let place = self.places.get(at)?;
        Some(&place.core)
    }

    /// Whether each feeder has stopped, each joiner is finished and the collector is complete. It takes no memory.
    pub fn done(&self) -> bool
        ensures done { result ≡ true → IsAllAt IsOver (state_of self.now).cores }
        ensures goes_on { result ≡ false → IsSomeAt GoesOn (state_of self.now).cores }
        ensures still { (task : Task) (lists : Actor' → ActorLists)
            → IsTask task → StandsFor task (state_of self.now) lists
            → IsStill task.setting (state_of self.now) → result ≡ true }
    {
        quiet_is_finished();
        all_are_over(&self.places)
    }

    /// The answer of a run that is done, with so many rounds. After `AllocError` the world is gone; a spent world
    /// answers it too.
    pub fn finish(self, bouts: u64) -> Result<Run, AllocError>
        requires { IsAllAt IsOver (state_of self).cores }
        ensures run { IfOk result (λ run. (task : Task) (lists : Actor' → ActorLists)
            → IsTask task → StandsFor task (state_of self.entry) lists
            → IsRun task run.journal run) }
        ensures journal { IfOk result (λ run. run.journal ≡ journal_in (state_of self.entry)) }
        ensures bouts { IfOk result (λ run. run.bouts ≡ bouts) }
        ensures at_work { OnOk result (self.entry.spent ≡ false) }
    {
        finished_answers();
        if self.spent {
            return Err(AllocError);
        }
        let World { alloc, places, .. } = self;
        let cores = machines(alloc, places)?;
        let (controller, collector) = last_two(cores);
        answer(alloc, &controller, collector, bouts)
    }

    /// Hands the first message of the link to its receiver, and puts what that sends on its links.
    /// `Idle`: nothing is left there.
    pub fn deliver(&mut self, from: Actor, to: Actor) -> Result<Step, AllocError>
        ensures took { result ≡ Ok Took'
            → Delivers from to (state_of self.old) (state_of self.new) }
        ensures idle { result ≡ Ok Idle' → (left_of (state_of self.old) from to ≡ [])
            × (state_of self.new ≡ state_of self.old) }
        ensures goes_on { OnOk result ((self.old.spent ≡ false) × (self.new.spent ≡ false)) }
        ensures fails { OnErr result (self.new.spent ≡ true) }
        ensures spent { self.old.spent ≡ true → self.new ≡ self.old }
    {
        if self.spent {
            return Err(AllocError);
        }
        match (self.cast.number(from), self.cast.number(to)) {
            (Some(sender), Some(receiver)) => self.deliver_at(from, to, sender, receiver),
            _ => Ok(Step::Idle),
        }
    }

    fn deliver_at(
        &mut self,
        from: Actor,
        to: Actor,
        sender: usize,
        receiver: usize,
    ) -> Result<Step, AllocError>
        requires sender { number' self.old.cast from ≡ Some sender }
        requires receiver { number' self.old.cast to ≡ Some receiver }
        requires going { self.old.spent ≡ false }
        ensures took { result ≡ Ok Took'
            → Delivers from to (state_of self.old) (state_of self.new) }
        ensures idle { result ≡ Ok Idle' → (left_of (state_of self.old) from to ≡ [])
            × (state_of self.new ≡ state_of self.old) }
        ensures goes_on { OnOk result (self.new.spent ≡ false) }
        ensures fails { OnErr result (self.new.spent ≡ true) }
    {
        let Some(msg) = take(&mut self.places, receiver, sender) else {
            return Ok(Step::Idle);
        };
        self.spent = true;
        let mut sends = Sends::new(self.alloc);
        hand(&mut self.places, receiver, from, msg, &mut sends)?;
        send_all(&mut self.places, self.cast, to, sends)?;
        self.spent = false;
        Ok(Step::Took)
    }

    /// Lets feeder `p`, counted from 0, ask for its next batch, or say that it has drained. `Idle`: the
    /// last batch that it asked for isn't granted, or it has drained.
    pub fn begin(&mut self, p: u32) -> Result<Step, AllocError>
        ensures took { result ≡ Ok Took'
            → MakesEvent (Feeder' p) Began (state_of self.old) (state_of self.new) }
        ensures idle { result ≡ Ok Idle' → state_of self.new ≡ state_of self.old }
        ensures waits { result ≡ Ok Idle' → (core : Core')
            → core_of (state_of self.old) (Feeder' p) ≡ Some core → Waits core }
        ensures free { result ≡ Ok Took' → (core : Core')
            → core_of (state_of self.old) (Feeder' p) ≡ Some core → ¬ Waits core }
        ensures goes_on { OnOk result ((self.old.spent ≡ false) × (self.new.spent ≡ false)) }
        ensures fails { OnErr result (self.new.spent ≡ true) }
        ensures spent { self.old.spent ≡ true → self.new ≡ self.old }
    {
        if self.spent {
            return Err(AllocError);
        }
        match self.cast.number(Actor::Feeder(p)) {
            Some(at) => self.begin_at(p, at),
            None => Ok(Step::Idle),
        }
    }

    fn begin_at(&mut self, p: u32, at: usize) -> Result<Step, AllocError>
        requires at { number' self.old.cast (Feeder' p) ≡ Some at }
        requires going { self.old.spent ≡ false }
        ensures took { result ≡ Ok Took'
            → MakesEvent (Feeder' p) Began (state_of self.old) (state_of self.new) }
        ensures idle { result ≡ Ok Idle' → state_of self.new ≡ state_of self.old }
        ensures waits { result ≡ Ok Idle' → (core : Core')
            → core_of (state_of self.old) (Feeder' p) ≡ Some core → Waits core }
        ensures free { result ≡ Ok Took' → (core : Core')
            → core_of (state_of self.old) (Feeder' p) ≡ Some core → ¬ Waits core }
        ensures goes_on { OnOk result (self.new.spent ≡ false) }
        ensures fails { OnErr result (self.new.spent ≡ true) }
    {
        self.spent = true;
        let mut sends = Sends::new(self.alloc);
        let begun = begin(&mut self.places, at, &mut sends)?;
        if !begun {
            self.spent = false;
            return Ok(Step::Idle);
        }
        send_all(&mut self.places, self.cast, Actor::Feeder(p), sends)?;
        self.spent = false;
        Ok(Step::Took)
    }
}
