// Why a text was not written or read.

ghost use Rattle.std.specs.Prelude.{◌≡◌};
ghost use Rattle.svc_report.specs.Faults.{fault_number};
ghost use Rattle.svc_report.specs.declared.error.ReportError.TheVariants.{Memory, Write};

use std::alloc::{AllocError, AllocFailed};
use std::io;
use thiserror::Error;

/// Why a text was not written or read. What was written until then should be discarded.
#[derive(Clone, Copy, Debug, PartialEq, Eq, Error)]
pub enum ReportError {
    /// Memory ran out.
    #[error("out of memory")]
    Memory,
    /// The writer failed.
    #[error("the writer failed")]
    Write,
    /// The reader failed.
    #[error("the reader failed")]
    Read,
    /// The text has a bad record: the first one, and its first bad column.
    #[error("row {row} column {column}")]
    Row {
        /// The record, counted from 1; the first has the names of the columns. A blank line is not a record.
        row: u64,
        /// The column, counted from 1; 0 if the number of fields is wrong, or if the text has no
        /// record.
        column: u8,
    },
}

impl ReportError {
    /// The number by which the program reports this error: 1 to 4.
    pub fn number(self) -> u8
        ensures { result ≡ fault_number self }
    {
        match self {
            ReportError::Memory => 1,
            ReportError::Write => 2,
            ReportError::Read => 3,
            ReportError::Row { row: _, column: _ } => 4,
        }
    }
}

impl From<AllocError> for ReportError {
    ghost from_gives = { λ _ e. e ≡ Memory };

    fn from(_error: AllocError) -> ReportError {
        ReportError::Memory
    }
}

impl<T: Drop> From<AllocFailed<T>> for ReportError {
    ghost from_gives = { λ _ e. e ≡ Memory };

    fn from(_error: AllocFailed<T>) -> ReportError {
        ReportError::Memory
    }
}

impl From<io::Error> for ReportError {
    ghost from_gives = { λ _ e. e ≡ Write };

    fn from(_error: io::Error) -> ReportError {
        ReportError::Write
    }
}
