// Why a text is no predicate.

ghost use Rattle.std.specs.Prelude.{◌≡◌};
ghost use Rattle.theta_tree.specs.declared.fault.PredFault.TheVariants.{Memory};

use std::alloc::{AllocError, AllocFailed};
use thiserror::Error;

/// Why a text is no predicate within the limits. A place is the offset of a byte, counted from 0.
/// The text is walked from the left, and the first of these is met.
#[derive(Clone, Copy, Debug, Drop, PartialEq, Eq, Error)]
pub enum PredFault {
    /// The token at `place` can't follow what stands before it in any predicate, or no token begins
    /// there. At the end of a text that isn't a whole predicate the place is the text's length.
    #[error("not understood at byte {place}")]
    Syntax { place: u64 },
    /// The token at `place` is a `not`, or a `(` around a predicate, inside 32 others that aren't
    /// closed.
    #[error("nested too deep at byte {place}")]
    Deep { place: u64 },
    /// The sign at `place` opens the 17th term of a sum.
    #[error("sum too long at byte {place}")]
    Wide { place: u64 },
    /// The number at `place` is greater than 9223372036854775807.
    #[error("number too large at byte {place}")]
    Literal { place: u64 },
    #[error("none left")]
    Memory,
}

impl From<AllocError> for PredFault {
    ghost from_gives = { λ _ fault. fault ≡ Memory };

    fn from(_error: AllocError) -> PredFault {
        PredFault::Memory
    }
}

impl<T: Drop> From<AllocFailed<T>> for PredFault {
    ghost from_gives = { λ _ fault. fault ≡ Memory };

    fn from(_error: AllocFailed<T>) -> PredFault {
        PredFault::Memory
    }
}
