// Why a text is no report.

ghost use Rattle.std.specs.Prelude.{◌≡◌};
ghost use Rattle.report_picture.specs.declared.error.ReportError.TheVariants.{Memory};

use std::alloc::AllocError;
use thiserror::Error;

/// Why a text isn't read.
#[derive(Clone, Copy, Debug, PartialEq, Eq, Error)]
pub enum ReportError {
    /// The line of this number, counted from 1, is the first that doesn't fit; one more than there are where
    /// the text ends too early.
    #[error("line {line} is no line of a report")]
    Line { line: u64 },
    #[error("none left")]
    Memory,
}

impl From<AllocError> for ReportError {
    ghost from_gives = { λ _ fault. fault ≡ Memory };

    fn from(_: AllocError) -> ReportError {
        ReportError::Memory
    }
}
