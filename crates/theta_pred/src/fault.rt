// Why a predicate doesn't fit two headers.

ghost use Rattle.std.specs.Prelude.{◌≡◌};
ghost use Rattle.theta_pred.specs.declared.fault.ResolveFault.TheVariants.{Memory};

use row_cells::{Bytes, Side};
use std::alloc::{AllocError, AllocFailed};
use thiserror::Error;

/// Why the names of a predicate have no columns.
#[derive(Debug, Drop, Error)]
pub enum ResolveFault {
    /// The first name of the predicate that doesn't stand in its header just once isn't there.
    #[error("a name has no column")]
    NoColumn { side: Side, name: Bytes },
    /// The first name of the predicate that doesn't stand in its header just once is there more
    /// than once.
    #[error("a name has two columns")]
    TwoColumns { side: Side, name: Bytes },
    #[error("out of memory")]
    Memory,
}

impl From<AllocError> for ResolveFault {
    ghost from_gives = { λ _ fault. fault ≡ Memory };

    fn from(_error: AllocError) -> ResolveFault {
        ResolveFault::Memory
    }
}

impl<T: Drop> From<AllocFailed<T>> for ResolveFault {
    ghost from_gives = { λ _ fault. fault ≡ Memory };

    fn from(_error: AllocFailed<T>) -> ResolveFault {
        ResolveFault::Memory
    }
}
