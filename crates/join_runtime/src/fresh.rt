// The pairs that came since the collector last gave some.

ghost use Rattle.std.specs.Prelude.{◌≡◌, ◌^◌, false, IfOk, OnErr, OnOk, IsPermutation};
ghost use Rattle.epoch_tags.specs.declared.actor.Actor.{Actor as Actor'};
ghost use Rattle.pair_collector.specs.Law.{CollectorLists};
ghost use Rattle.pair_collector.specs.Fresh.{pairs_since};
ghost use Rattle.actor_core.specs.Tasks.{Task};
ghost use Rattle.join_runtime.specs.Bouts.{StandsFor, lists_in};
ghost use Rattle.join_runtime.specs.Early.{AreGiven, collected_in, given_in};

use crate::bouts::Seats;
use epoch_tags::Pairs;
use std::alloc::AllocError;

impl<'a> Seats<'a> {
    // The pairs that the collector took since the last call of this that answered `Ok`. No list changes.
    pub(crate) fn fresh(&mut self) -> Result<Pairs, AllocError>
        requires { self.old.spent ≡ false }
        ensures gives { IfOk result (λ pairs.
            (task : Task) (earlier : CollectorLists) → StandsFor task self.old
            → AreGiven (2 ^ task.setting.k) earlier (given_in self.old)
            → IsPermutation (pairs_since (2 ^ task.setting.k) earlier (collected_in self.old))
            pairs) }
        ensures given { OnOk result ((task : Task) → StandsFor task self.old
            → AreGiven (2 ^ task.setting.k) (collected_in self.old) (given_in self.new)) }
        ensures stands { (task : Task) → StandsFor task self.old → StandsFor task self.new }
        ensures lists { (a : Actor') → lists_in self.new a ≡ lists_in self.old a }
        ensures fails { OnErr result (self.new ≡ self.old) }
    {
        let count = self.seats.len();
        self.seats[count - 1].fresh()
    }
}
