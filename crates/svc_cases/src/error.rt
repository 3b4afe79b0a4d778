//! Why the cases can't be run.

use csv::ErrorKind;
use std::alloc::{AllocError, AllocFailed};
use std::io;

/// Why the cases can't be run.
#[derive(Debug, Drop)]
pub enum CaseError {
    /// A line of a list doesn't have the list's form.
    List,
    /// A file of the folder can't be read, or standard output failed.
    File,
    /// Memory ran out.
    Memory,
}

impl From<io::Error> for CaseError {
    fn from(_error: io::Error) -> CaseError {
        CaseError::File
    }
}

impl From<csv::Error> for CaseError {
    fn from(error: csv::Error) -> CaseError {
        match error.into_kind() {
            ErrorKind::OutOfMemory => CaseError::Memory,
            _ => CaseError::List,
        }
    }
}

impl From<AllocError> for CaseError {
    fn from(_error: AllocError) -> CaseError {
        CaseError::Memory
    }
}

impl<T: Drop> From<AllocFailed<T>> for CaseError {
    fn from(_error: AllocFailed<T>) -> CaseError {
        CaseError::Memory
    }
}
