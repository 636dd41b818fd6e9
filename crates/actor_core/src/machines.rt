// The machines behind one enum.
ghost use Rattle.std.specs.Prelude.{◌≡◌, Ok, true, false, IfSome, IfNone, OnOk};
ghost use Rattle.load_controller.specs.Standing.{ControllerState};
ghost use Rattle.pair_collector.specs.Standing.{CollectorState};
ghost use Rattle.actor_core.specs.declared.machines.Core.TheVariants.{Controller as TheController, Collector as TheCollector};
ghost use Rattle.row_cells.specs.Lists.{IsPrefix};
ghost use Rattle.actor_core.specs.Families.{journal_of};
ghost use Rattle.actor_core.specs.Lists.{Took, Began};
ghost use Rattle.actor_core.specs.Standing.{Occurs, IsOver, GoesOn, Waits, IsLive, given_by};

use epoch_tags::{Actor, Msg, Sends};
use joiner_core::Joiner;
use load_controller::Controller;
use pair_collector::Collector;
use reshuffler_core::Feeder;
use std::alloc::AllocError;

/// An actor's machine.
#[derive(Drop)]
pub enum Core<'a> {
    Feeder(Feeder),
    Joiner(Joiner<'a>),
    Controller(Controller),
    Collector(Collector),
}

// Lets go of what a machine doesn't take.
fn refused<T: Drop>(message: T) -> Result<(), AllocError>
    ensures { OnOk result ⊥ }
{
    drop(message);
    Err(AllocError)
}

impl<'a> Core<'a> {
    /// Takes a message and appends what it sends. A strange message answers the error too.
    pub fn on(&mut self, from: Actor, msg: Msg, sends: &mut Sends) -> Result<(), AllocError>
        ensures occurs { OnOk result
            (Occurs (Took from msg) self.old self.new sends.old sends.new) }
        ensures live { OnOk result (IsLive self.new) }
        ensures given { given_by self.new ≡ given_by self.old }
        ensures grows { OnOk result (IsPrefix (journal_of self.old) (journal_of self.new)) }
    {
        match self {
            Core::Feeder(feeder) => match (from, msg) {
                (Actor::Controller, Msg::Feeder(m)) => feeder.on(m, sends),
                strange => refused(strange),
            },
            Core::Joiner(joiner) => match msg {
                Msg::Joiner(m) => {
                    if joiner.is_spent() || !joiner.hears(from) || !joiner.fits(&m) {
                        return refused(m);
                    }
                    joiner.on(from, m, sends)
                }
                strange => refused(strange),
            },
            Core::Controller(controller) => match msg {
                Msg::Controller(m) => controller.on(from, m, sends),
                strange => refused(strange),
            },
            Core::Collector(collector) => match msg {
                Msg::Collector(m) => collector.on(from, m),
                strange => refused(strange),
            },
        }
    }

    /// Lets a feeder begin. `Ok(false)`: nothing was done.
    pub fn begin(&mut self, sends: &mut Sends) -> Result<bool, AllocError>
        ensures begins { result ≡ Ok true → Occurs Began self.old self.new sends.old sends.new }
        ensures waits { result ≡ Ok false → (self.new ≡ self.old) × (sends.new ≡ sends.old) }
        ensures idle { result ≡ Ok false → Waits self.old }
        ensures free { result ≡ Ok true → ¬ Waits self.old }
        ensures live { OnOk result (IsLive self.new) }
        ensures given { given_by self.new ≡ given_by self.old }
        ensures grows { OnOk result (IsPrefix (journal_of self.old) (journal_of self.new)) }
    {
        match self {
            Core::Feeder(feeder) => feeder.begin(sends),
            Core::Joiner(_) => Ok(false),
            Core::Controller(_) => Ok(false),
            Core::Collector(_) => Ok(false),
        }
    }

    /// Whether its work is over: a feeder has stopped, a joiner is finished, the collector is complete. The
    /// controller has no end of its own.
    pub fn is_over(&self) -> bool
        ensures over { result ≡ true → IsOver self.now }
        ensures goes_on { result ≡ false → GoesOn self.now }
    {
        match self {
            Core::Feeder(feeder) => feeder.stopped(),
            Core::Joiner(joiner) => joiner.finished(),
            Core::Controller(_) => true,
            Core::Collector(collector) => collector.complete(),
        }
    }

    /// Whether [`Core::begin`] would not answer `Ok(false)`. It takes no memory.
    pub fn can_begin(&self) -> bool
        ensures waits { result ≡ false → Waits self.now }
        ensures free { result ≡ true → IsLive self.now → ¬ Waits self.now }
    {
        match self {
            Core::Feeder(feeder) => feeder.can_begin(),
            _ => false,
        }
    }

    /// The controller's machine, if it is that one.
    pub fn into_controller(self) -> Option<Controller>
        ensures some { IfSome result (λ controller. self.entry ≡ TheController controller) }
        ensures none { IfNone result
            ((controller : ControllerState) → self.entry ≡ TheController controller → ⊥) }
    {
        match self {
            Core::Controller(controller) => Some(controller),
            other => {
                drop(other);
                None
            }
        }
    }

    /// The collector's machine, if it is that one.
    pub fn into_collector(self) -> Option<Collector>
        ensures some { IfSome result (λ collector. self.entry ≡ TheCollector collector) }
        ensures none { IfNone result
            ((collector : CollectorState) → self.entry ≡ TheCollector collector → ⊥) }
    {
        match self {
            Core::Collector(collector) => Some(collector),
            other => {
                drop(other);
                None
            }
        }
    }
}
