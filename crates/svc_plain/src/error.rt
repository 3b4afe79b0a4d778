// Why tasks were not run.

ghost use Rattle.std.specs.Prelude.{◌≡◌};
ghost use Rattle.svc_plain.specs.declared.error.PlainError.TheVariants.{Memory};

use std::alloc::AllocError;
use thiserror::Error;

/// Why tasks were not run.
#[derive(Clone, Copy, Debug, PartialEq, Eq, Error)]
pub enum PlainError {
    /// Memory ran out.
    #[error("out of memory")]
    Memory,
}

impl PlainError {
    /// The number by which the program reports this error: 1.
    pub fn number(self) -> u8
        ensures { result ≡ 1 }
    {
        match self {
            PlainError::Memory => 1,
        }
    }
}

impl From<AllocError> for PlainError {
    ghost from_gives = { λ _ e. e ≡ Memory };

    fn from(_error: AllocError) -> PlainError {
        PlainError::Memory
    }
}
