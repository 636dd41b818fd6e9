// The last two of a run's machines.

ghost use Rattle.actor_core.specs.Endings.{AreLast, HaveLast};

use crate::machines::Core;
use load_controller::Controller;
use pair_collector::Collector;

/// The controller's machine and the collector's, which are the last two of a run. It takes no memory.
pub fn last_two<'a>(mut cores: Vec<Core<'a>>) -> (Controller, Collector)
    requires { ∥ HaveLast cores.items ∥₁ }
    ensures { AreLast cores.entry.items result.0 result.1 }
{
    let Some(last) = cores.pop() else {
        unreachable!()
    };
    let Some(before) = cores.pop() else {
        unreachable!()
    };
    let Some(collector) = last.into_collector() else {
        unreachable!()
    };
    let Some(controller) = before.into_controller() else {
        unreachable!()
    };
    (controller, collector)
}
