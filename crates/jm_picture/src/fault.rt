// Why there is no picture.

use report_picture::ReportError;
use std::alloc::AllocError;
use thiserror::Error;

/// Why there is no picture; its text is the line on standard error.
#[derive(Clone, Copy, Debug, Error)]
pub enum Fault {
    #[error("read: failed")]
    Read,
    /// The text isn't a report from this line on, counted from 1.
    #[error("report: line {line} doesn't fit")]
    Report { line: u64 },
    #[error("write: failed")]
    Write,
    #[error("memory: none left")]
    Memory,
}

impl Fault {
    /// The exit status, the same as that of `jm` for such a cause.
    pub fn status(self) -> u8 {
        match self {
            Fault::Report { .. } => 4,
            Fault::Read => 6,
            Fault::Write => 7,
            Fault::Memory => 8,
        }
    }
}

impl From<AllocError> for Fault {
    fn from(_error: AllocError) -> Fault {
        Fault::Memory
    }
}

impl From<ReportError> for Fault {
    fn from(error: ReportError) -> Fault {
        match error {
            ReportError::Line { line } => Fault::Report { line },
            ReportError::Memory => Fault::Memory,
        }
    }
}
