// Why there is no table.

ghost use Rattle.std.specs.Prelude.{◌≡◌};
ghost use Rattle.join_rows.specs.declared.fault.TableFault.TheVariants.{Memory};

use std::alloc::AllocError;
use thiserror::Error;

/// Why a file is no table. Where several of the first five apply, the earliest of them is answered.
#[derive(Clone, Copy, Debug, PartialEq, Eq, Error)]
pub enum TableFault {
    /// A call of the shelf failed, or the shelf has no such file.
    #[error("the file couldn't be read")]
    Read,
    /// The file has more than 2^24 bytes.
    #[error("the file is too long")]
    TooLong,
    /// The file has no record.
    #[error("the file has no header")]
    NoHeader,
    /// The row, counted from 1, is the first that has not as many fields as the header.
    #[error("row {row} has {found} fields")]
    Width { row: u64, found: u64 },
    /// The file has more than 2^18 rows under its header.
    #[error("the file has too many rows")]
    TooMany,
    #[error("out of memory")]
    Memory,
}

impl From<AllocError> for TableFault {
    ghost from_gives = { λ _ fault. fault ≡ Memory };

    fn from(_: AllocError) -> TableFault {
        TableFault::Memory
    }
}
