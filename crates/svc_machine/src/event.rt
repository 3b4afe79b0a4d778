//! One event of the machine, which borrows its burst.

use svc_base::{UnitId, WordAddr};
use svc_core::Burst;

/// One event of the machine. It borrows its burst, so an event costs nothing to copy.
#[derive(Clone, Copy)]
pub enum Event<'a> {
    /// Starts the next task on an idle unit: at the guess or, if no task is active, at the entry
    /// that is due, whatever the guess.
    Assign { unit: UnitId, guess: u32 },
    /// Takes over a burst's local turns, and then does its asked turn, if it has one.
    Submit { burst: &'a Burst },
    /// Removes the unit's line of this word from its cache.
    Replace { unit: UnitId, addr: WordAddr },
    /// Squashes the unit's task and all after it.
    Cancel { unit: UnitId },
    /// Commits the head, whichever unit asks for it.
    Commit { by: UnitId },
}
