// Which exit status an outcome has.

ghost use Rattle.std.specs.Prelude.{◌≡◌};
ghost use Rattle.join_cli.specs.ExitStatus.{status_of};

use crate::outcome::Outcome;

impl Outcome {
    /// The exit status of the program. It takes no memory.
    pub fn status(&self) -> u8
        ensures { result ≡ status_of self.now }
    {
        match self {
            Outcome::Done { .. }
            | Outcome::DoneGroups { .. }
            | Outcome::DoneChain { .. }
            | Outcome::DoneRings { .. } => 0,
            Outcome::Words(_) => 2,
            Outcome::Predicate(_) | Outcome::Then(_) => 3,
            Outcome::Input(_) => 4,
            Outcome::Limit(_) => 5,
            Outcome::Read => 6,
            Outcome::Write => 7,
            Outcome::Memory => 8,
        }
    }
}
