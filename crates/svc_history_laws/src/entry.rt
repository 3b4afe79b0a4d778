//! An entry of a history: an event and its answer, column by column.

use svc_base::{UnitId, WordAddr};

/// What an event asked for.
#[derive(Clone, Copy, Debug, PartialEq, Eq)]
pub enum Kind {
    /// To start a task.
    Assign,
    /// To take over a burst.
    Submit,
    /// To remove a line from a cache.
    Replace,
    /// To squash a task and all after it.
    Cancel,
    /// To commit the head.
    Commit,
}

/// What an event was answered.
#[derive(Clone, Copy, Debug, PartialEq, Eq)]
pub enum ReplyKind {
    /// A task began.
    Assigned,
    /// Local turns were taken over, and nothing was asked.
    Ran,
    /// A word was loaded.
    Loaded,
    /// A word was stored.
    Stored,
    /// A word was output.
    Emitted,
    /// The asked turn trapped.
    Trapped,
    /// A line was removed.
    Replaced,
    /// A task was squashed.
    Cancelled,
    /// A task was committed.
    Committed,
}

/// Who supplied the value of a read; the unit stands in a field of its own.
#[derive(Clone, Copy, Debug, PartialEq, Eq)]
pub enum ServedKind {
    /// The unit's own uncommitted line.
    Hit,
    /// The unit's own committed line, which is clean and not stale.
    Reuse,
    /// The nearest earlier task's version.
    Version,
    /// A version of the head that a replacement took out of its cache.
    Spill,
    /// The newest committed version.
    Committed,
    /// The backing memory.
    Memory,
}

/// Why tasks were squashed; the word of a violation stands in the field of the word that was stored.
#[derive(Clone, Copy, Debug, PartialEq, Eq)]
pub enum CutKind {
    /// An earlier task stored to a word that the first of them had read too early.
    Violation,
    /// The task before the first of them ended the program, or handed on to another entry than the one where the first
    /// of them began.
    Guess,
    /// The first of them was cancelled.
    Cancel,
}

/// One accepted event with its reply: the columns of a row of a trace. A field that doesn't apply is `None`.
#[derive(Clone, Copy, Debug, PartialEq, Eq)]
pub struct Entry {
    /// What the event asked for.
    pub kind: Kind,
    /// The event's unit; of a commit, the one that asked for it.
    pub unit: UnitId,
    /// The guess of an assignment, a byte address; the word of a replacement.
    pub arg: Option<u32>,
    /// The local turns of a burst, at most 63.
    pub local: Option<u8>,
    /// Whether a burst asks.
    pub ask: Option<bool>,
    /// What the event was answered.
    pub reply: ReplyKind,
    /// The word that was loaded, stored or replaced.
    pub addr: Option<WordAddr>,
    /// The entry where a task began; the value that was loaded; the whole word that was stored or output; the number of
    /// a trap; the number of the task that was committed.
    pub word: Option<u32>,
    /// Who supplied the word that was read.
    pub served: Option<ServedKind>,
    /// The unit of the version that was read.
    pub from: Option<UnitId>,
    /// Why tasks were squashed, if any were.
    pub cause: Option<CutKind>,
    /// The number of the first of them.
    pub first: Option<u32>,
    /// How many they are: the first and all that were active after it.
    pub squashed: Option<u32>,
}

/// An entry, and its index in the history.
#[derive(Clone, Copy, Debug, PartialEq, Eq)]
pub struct Slip {
    /// How many entries stand before it.
    pub index: usize,
    /// The entry.
    pub entry: Entry,
}
