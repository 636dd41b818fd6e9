// A sink for what isn't wanted.

use join_rows::{Failed, Sink};

/// Takes everything and keeps nothing.
#[derive(Drop)]
pub(crate) struct Nothing;

impl Sink for Nothing {
    ghost use Rattle.std.specs.Prelude.{None};

    ghost written = { λ _. None };

    ghost faults = { λ _. 0 };

    ghost takes = { λ _ _. Unit {0} };

    fn put(&mut self, _piece: &[u8]) -> Result<(), Failed> {
        Ok(())
    }
}
