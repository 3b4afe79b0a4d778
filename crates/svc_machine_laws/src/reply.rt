// What the machine answers to an accepted event.

use svc_base::{Served, TaskNo, WordAddr};
use svc_core_laws::End;

/// What an accepted event did.
#[derive(Clone, Copy, Debug, PartialEq, Eq)]
pub enum What {
    /// A task was assigned: its number, the entry at which it begins, a byte address, and its epoch.
    Assigned {
        task: TaskNo,
        entry: u32,
        epoch: u64,
    },
    /// Local turns were taken over, and nothing was asked.
    Ran,
    /// The asked turn loaded: the word's address, the value that the register got, and who supplied
    /// the word.
    Loaded {
        addr: WordAddr,
        value: u32,
        served: Served,
    },
    /// The asked turn stored: the word's address, the whole word that stands there now, and, only for a byte or a half,
    /// who supplied the word that was read for it.
    Stored {
        addr: WordAddr,
        word: u32,
        served: Option<Served>,
    },
    /// The asked turn output this word, which waits for the task's commit.
    Emitted(u32),
    /// The asked turn trapped, with this number.
    Trapped(u8),
    /// A line of this word was removed from the unit's cache.
    Replaced {
        addr: WordAddr,
    },
    /// The unit's task was squashed.
    Cancelled,
    /// The head was committed: its number, and how it ended.
    Committed {
        task: TaskNo,
        end: End,
    },
}

/// Why tasks were squashed.
#[derive(Clone, Copy, Debug, PartialEq, Eq)]
pub enum Cause {
    /// An earlier task stored to this word, which the first of them had read too early.
    Violation(WordAddr),
    /// The task before the first of them ended the program, or handed on to another entry than the one where the first
    /// of them began.
    WrongGuess,
    /// The first of them was cancelled.
    Cancelled,
}

/// Which tasks an event squashed, and why: the first one, and how many with all that were active
/// after it.
#[derive(Clone, Copy, Debug, PartialEq, Eq)]
pub struct Cut {
    pub cause: Cause,
    pub first: TaskNo,
    pub tasks: u32,
}

/// The answer to an accepted event.
#[derive(Clone, Copy, Debug, PartialEq, Eq)]
pub struct Reply {
    pub what: What,
    pub cut: Option<Cut>,
}
