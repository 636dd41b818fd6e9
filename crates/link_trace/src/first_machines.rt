// The machines of a run before its first event.

ghost use Rattle.std.specs.Prelude.{IfOk};
ghost use Rattle.trace_law.specs.Validity.{IsValidInput, IsValidSetting};
ghost use Rattle.actor_core.specs.Tasks.{task_of};
ghost use Rattle.link_trace.specs.FirstWorlds.{AreNew, HaveBegun};

use actor_core::{Core, core_at};
use std::alloc::{AllocError, Global};
use trace_law::{Input, Setting};

// The machines of the first so many actors of a run, by their numbers.
pub(crate) fn first_cores<'a>(
    alloc: Global,
    input: &'a Input,
    setting: &Setting,
    count: u32,
) -> Result<Vec<Core<'a>>, AllocError>
    requires input { IsValidInput input.now }
    requires setting { IsValidSetting setting.now }
    ensures new { IfOk result (λ cores.
        AreNew (task_of input.now setting.now) count cores.items) }
    ensures begun { IfOk result (λ cores.
        HaveBegun (task_of input.now setting.now) count cores.items) }
{
    let mut cores = Vec::new(alloc);
    for n in 0..count {
        let core = core_at(alloc, input, setting, n)?;
        cores.push(core)?;
    }
    Ok(cores)
}
