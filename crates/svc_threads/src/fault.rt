// Why a run of unit threads gave no outcome.

ghost use Rattle.std.specs.Prelude.{◌≡◌};
ghost use Rattle.svc_threads.specs.Faults.{error_number};

use std::alloc::{AllocError, AllocFailed};
use svc_base::OpenError;
use thiserror::Error;

/// Why a run of unit threads gave no outcome.
#[derive(Clone, Copy, Debug, PartialEq, Eq, Error)]
pub enum RunError {
    /// The allocator refused memory.
    #[error("out of memory")]
    Memory,
    /// A thread could not be started.
    #[error("a thread could not be started")]
    NotStarted,
    /// The recorder is of another image or configuration.
    #[error("the recorder is of another image or configuration")]
    ForeignImage,
    /// What the threads brought back is not the history.
    #[error("what the threads brought back is not the history")]
    Torn,
}

impl RunError {
    /// The number by which the program reports this error.
    pub fn number(self) -> u8
        ensures { result ≡ error_number self }
    {
        match self {
            RunError::Memory => 1,
            RunError::NotStarted => 2,
            RunError::ForeignImage => 3,
            RunError::Torn => 4,
        }
    }
}

impl From<AllocError> for RunError {
    ghost use Rattle.std.specs.Prelude.{◌≡◌};
    ghost use Rattle.svc_threads.specs.declared.fault.RunError.TheVariants.{Memory};

    ghost from_gives = { λ _ r. r ≡ Memory };

    fn from(_e: AllocError) -> RunError {
        RunError::Memory
    }
}

impl<T: Drop> From<AllocFailed<T>> for RunError {
    ghost use Rattle.std.specs.Prelude.{◌≡◌};
    ghost use Rattle.svc_threads.specs.declared.fault.RunError.TheVariants.{Memory};

    ghost from_gives = { λ _ r. r ≡ Memory };

    fn from(_e: AllocFailed<T>) -> RunError {
        RunError::Memory
    }
}

impl From<OpenError> for RunError {
    ghost use Rattle.std.specs.Prelude.{◌≡◌};
    ghost use Rattle.svc_threads.specs.declared.fault.RunError.TheVariants.{Memory};

    ghost from_gives = { λ _ r. r ≡ Memory };

    fn from(_e: OpenError) -> RunError {
        RunError::Memory
    }
}
