//! What can be seen of a run: what its entries say happened to which task.

/// What happened to a task.
#[derive(Clone, Copy, Debug, PartialEq, Eq, PartialOrd, Ord)]
pub enum Happening {
    /// It began.
    Begin,
    /// It loaded a word.
    Load,
    /// It stored a word.
    Store,
    /// It output a word.
    Output,
    /// It trapped.
    Trap,
    /// A line of its unit was replaced.
    Replace,
    /// It was committed.
    Commit,
    /// It was squashed, with all that were active after it.
    Squash,
}

/// Who supplied a word that was read, by task and not by unit; or why tasks were squashed.
#[derive(Clone, Copy, Debug, PartialEq, Eq, PartialOrd, Ord)]
pub enum By {
    /// The unit's own uncommitted line.
    Hit,
    /// The unit's own committed line, which is clean and not stale.
    Reuse,
    /// The version of the task with this number.
    Version(u64),
    /// A version of the head that a replacement took out of its cache.
    Spill,
    /// The newest committed version.
    Committed,
    /// The backing memory.
    Memory,
    /// An earlier task stored to a word that the first of them had read too early.
    Violation,
    /// The task before the first of them handed on to another entry, or ended the program.
    Guess,
    /// The first of them was cancelled.
    Cancel,
}

/// What an entry says happened to a task. They are ordered as their rows are.
#[derive(Clone, Copy, Debug, PartialEq, Eq, PartialOrd, Ord)]
pub struct Observation {
    /// What happened.
    pub what: Happening,
    /// The number of the task.
    pub task: u64,
    /// The word that was loaded, stored or replaced, or that the first of the squashed tasks had read too early.
    pub word: Option<u32>,
    /// The entry where it began; the value that was loaded, after extension; the whole word that was stored; the word
    /// that was output; the number of the trap; how many tasks were squashed.
    pub value: Option<u32>,
    /// Who supplied the word that was read; why tasks were squashed.
    pub by: Option<By>,
}
