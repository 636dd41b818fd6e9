// Which actors of a run are joined by a link.

ghost use Rattle.std.specs.Prelude.{◌≡◌, true, false};
ghost use Rattle.actor_core.specs.Numbers.{DifferInOneBit, AreJoined};

use epoch_tags::Actor;

// Whether the ids differ in one bit, which is below the number of joiners.
fn differ_in_one_bit(joiners: u32, from: u32, to: u32) -> bool
    ensures up { result ≡ true → DifferInOneBit joiners from to }
    ensures down { result ≡ false → ¬ DifferInOneBit joiners from to }
{
    for low in 0..32u32 {
        let bit = 1u32 << low;
        if bit < joiners && from ^ bit == to {
            return true;
        }
    }
    false
}

// Whether an actor sends to another, in a run with so many joiners and feeders.
pub(crate) fn are_joined(joiners: u32, feeders: u32, from: Actor, to: Actor) -> bool
    ensures up { result ≡ true → AreJoined joiners feeders from to }
    ensures down { result ≡ false → ¬ AreJoined joiners feeders from to }
{
    match from {
        Actor::Feeder(p) => match to {
            Actor::Feeder(_) => false,
            Actor::Joiner(j) => p < feeders && j < joiners,
            Actor::Controller => p < feeders,
            Actor::Collector => false,
        },
        Actor::Joiner(i) => match to {
            Actor::Feeder(_) => false,
            Actor::Joiner(j) => i < joiners && differ_in_one_bit(joiners, i, j),
            Actor::Controller => i < joiners,
            Actor::Collector => i < joiners,
        },
        Actor::Controller => match to {
            Actor::Feeder(p) => p < feeders,
            Actor::Joiner(_) => false,
            Actor::Controller => false,
            Actor::Collector => false,
        },
        Actor::Collector => false,
    }
}
