// What is said of an outcome.

ghost use Rattle.std.specs.Prelude.{Some};
ghost use Rattle.join_cli.specs.Lines.{said_of};

use crate::outcome::Outcome;
use std::fmt;

/// The line on standard error, without its end; nothing where the output was written whole.
impl fmt::Display for Outcome {
    ghost output = { λ outcome. Some (said_of outcome) };

    fn fmt<W: fmt::Write>(&self, f: &mut fmt::Formatter<W>) -> fmt::Result {
        match self {
            Outcome::Done { .. }
            | Outcome::DoneGroups { .. }
            | Outcome::DoneChain { .. }
            | Outcome::DoneRings { .. } => Ok(()),
            Outcome::Words(_) => write!(f, "usage: jm --on TEXT [options] R.csv S.csv"),
            Outcome::Predicate(fault) => write!(f, "predicate: {fault}"),
            Outcome::Then(fault) => write!(f, "then: {fault}"),
            Outcome::Input(fault) => write!(f, "input: {fault}"),
            Outcome::Limit(fault) => write!(f, "limit: {fault}"),
            Outcome::Read => write!(f, "read: failed"),
            Outcome::Write => write!(f, "write: failed"),
            Outcome::Memory => write!(f, "memory: none left"),
        }
    }
}
