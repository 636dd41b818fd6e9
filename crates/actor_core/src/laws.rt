// Laws of a run's lists. Each is the contract of a function that does nothing, so that calls above can cite it.

ghost use Rattle.actor_core.specs.Counts.{EventsFit};
ghost use Rattle.actor_core.specs.FirstCores.{FirstCoresAreOne};
ghost use Rattle.actor_core.specs.Rests.{StandsBeyond, StandsUpto};

use trace_law::{keeps_a_lawful_journal, lawful_is_bounded};

/// A `u64` counts the events of a wave, by the bound on them over its migrations.
pub fn events_fit()
    ensures { EventsFit }
{
    keeps_a_lawful_journal();
    lawful_is_bounded();
}

/// A rest that stands for an input stands for it up to where a wave can end.
pub fn stands_upto()
    ensures { StandsUpto }
{}

/// A rest that stands for an input up to an end stands for all of it.
pub fn stands_beyond()
    ensures { StandsBeyond }
{}

/// Two machines that have just begun alike are one.
pub fn first_cores_are_one()
    ensures { FirstCoresAreOne }
{}
