// How a run of `jm` ends.

ghost use Rattle.std.specs.Prelude.{◌≡◌};
ghost use Rattle.join_cli.specs.Outcomes.{outcome_of};

use join_plan::{InputFault, LimitFault, Refusal, TextFault};
use join_runtime::Trail;
use join_words::WordsFault;
use load_controller::Journal;
use ring_runtime::RingEnds;
use row_cells::Items;

/// The journals of several runs.
pub type Journals = Items<Journal>;

/// How a run ended.
#[derive(Drop)]
pub enum Outcome {
    /// The output was written whole; the journal is that of the run's controller. The trail has
    /// what the seats of a run in threads left, and is empty after a replay.
    Done {
        journal: Journal,
        trail: Trail,
    },
    /// The output was written whole, over joiners in groups: of each group, from the greatest on, the journal of
    /// its controller, and what its seats left.
    DoneGroups {
        journals: Journals,
        trail: Trail,
    },
    /// The output was written whole, of a second join behind the first: the journals of both controllers, and what the
    /// seats of both runs left.
    DoneChain {
        first: Journal,
        second: Journal,
        trail: Trail,
    },
    /// The output was written whole, over rings: the journal of the run's controller, and what its seats left. `fallen`
    /// says whether the input was finished in another way since no message could move; it never is.
    DoneRings {
        journal: Journal,
        ends: RingEnds,
        fallen: bool,
    },
    Words(WordsFault),
    Predicate(TextFault),
    /// Of the predicate of a second join.
    Then(TextFault),
    Input(InputFault),
    Limit(LimitFault),
    /// A file couldn't be read.
    Read,
    /// The output couldn't be written whole.
    Write,
    /// Memory ran out before anything was written, unless pairs were wanted early.
    Memory,
}

/// The outcome of a refusal.
pub(crate) fn refused(refusal: Refusal) -> Outcome
    ensures { result ≡ outcome_of refusal }
{
    match refusal {
        Refusal::Predicate(fault) => Outcome::Predicate(fault),
        Refusal::Then(fault) => Outcome::Then(fault),
        Refusal::Input(fault) => Outcome::Input(fault),
        Refusal::Limit(fault) => Outcome::Limit(fault),
        Refusal::Read => Outcome::Read,
        Refusal::Memory => Outcome::Memory,
    }
}
