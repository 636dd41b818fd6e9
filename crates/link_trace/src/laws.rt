// Laws of worlds. Each is the contract of a function that does nothing, so that calls above can cite it.

ghost use Rattle.link_trace.specs.FirstWorlds.{FirstWorldsAreOne};
ghost use Rattle.link_trace.specs.Worlds.{WorldAgrees};
ghost use Rattle.link_trace.specs.Order.{ReplaysAreOne, RunsAreOne, WaveRunsAreOne};

/// The lists for which a world stands are an agreeing family of its task.
pub fn world_agrees()
    ensures { WorldAgrees }
{}

/// Two replays in the order of one seed that begin with one world, and end where the work of all is over, have as many
/// events and end with one world.
pub fn replays_are_one()
    ensures { ReplaysAreOne }
{}

/// Two worlds that `World::start` makes of one input and setting are one.
pub fn first_worlds_are_one()
    ensures { FirstWorldsAreOne }
{}

/// So two replays of one task and seed that began with one world have as many bouts and one journal.
pub fn wave_runs_are_one()
    ensures { WaveRunsAreOne }
{}

/// And so have two runs that `replay` makes of one input, setting and seed, since they began with one world.
pub fn runs_are_one()
    ensures { RunsAreOne }
{}
