// Who takes part in a run, and the numbers of its actors: feeders first, then joiners, the controller, the collector.

ghost use Rattle.std.specs.Prelude.{◌≡◌, ◌<◌, ◌^◌, ◌↔◌, ℕ, IsTrue};
ghost use Rattle.epoch_tags.specs.Links.{HasLink};
ghost use Rattle.trace_law.specs.Validity.{IsValidSetting};
ghost use Rattle.actor_core.specs.Numbers as numbers;
ghost use Rattle.actor_core.specs.Numbers.{cast_of, count_of};

use crate::links::are_joined;
use crate::start::joiners_of;
use epoch_tags::Actor;
use trace_law::Setting;

/// Who takes part in a run: so many joiners and feeders, one controller and one collector.
#[derive(Clone, Copy, Debug, PartialEq, Eq)]
pub struct Cast {
    pub joiners: u32,
    pub feeders: u32,
}

impl Cast {
    /// Those of a run of this setting. It takes no memory.
    pub fn of(setting: &Setting) -> Cast
        requires { IsValidSetting setting.now }
        ensures of { result ≡ cast_of setting.now }
        ensures few { count_of result < 2 ^ 32 }
    {
        Cast {
            joiners: joiners_of(setting),
            feeders: setting.feeders,
        }
    }

    /// How many they are. It takes no memory.
    pub fn count(self) -> u32
        requires { count_of self < 2 ^ 32 }
        ensures { result ≡ count_of self }
    {
        self.feeders + self.joiners + 2
    }

    /// The number of an actor, or none where it doesn't take part. It takes no memory.
    pub fn number(self, actor: Actor) -> Option<usize>
        ensures { result ≡ numbers.number self actor }
    {
        let joiners = self.joiners as usize;
        let feeders = self.feeders as usize;
        match actor {
            Actor::Feeder(p) => {
                if p < self.feeders {
                    Some(p as usize)
                } else {
                    None
                }
            }
            Actor::Joiner(j) => {
                if j < self.joiners {
                    Some(feeders + j as usize)
                } else {
                    None
                }
            }
            Actor::Controller => Some(feeders + joiners),
            Actor::Collector => Some(feeders + joiners + 1),
        }
    }

    /// The actor of a number, as [`Cast::number`] counts them. It takes no memory.
    pub fn actor_at(self, n: u32) -> Actor
        requires { count_of self < 2 ^ 32 }
        ensures { result ≡ numbers.actor_at self n }
    {
        if n < self.feeders {
            Actor::Feeder(n)
        } else if n < self.feeders + self.joiners {
            Actor::Joiner(n - self.feeders)
        } else if n == self.feeders + self.joiners {
            Actor::Controller
        } else {
            Actor::Collector
        }
    }

    /// Whether there is a link from one actor to the other. It takes no memory.
    pub fn has_link(self, from: Actor, to: Actor) -> bool
        ensures { (k : ℕ) → self.joiners ≡ 2 ^ k
            → (IsTrue result ↔ HasLink k self.feeders from to) }
    {
        are_joined(self.joiners, self.feeders, from, to)
    }
}
