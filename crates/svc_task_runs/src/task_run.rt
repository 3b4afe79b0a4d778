// A task that a history begins.

ghost use Rattle.std.specs.Prelude.{◌≡◌, ◌+◌, ◌<◌, ◌^◌, None, Some, cond};
ghost use Rattle.svc_task_runs.specs.Bounds.{work};
ghost use Rattle.svc_task_runs.specs.Runs.{after, ran, fate_after, fate_of, fate_word, goes_on, is_active, is_load};
ghost use Rattle.svc_task_runs.specs.Runs.{is_not_above, is_number, is_store, is_submit_of, turns_in};

use svc_base::UnitId;
use svc_history_laws::{CutKind, Entry, Kind, ReplyKind};

/// What became of a task.
#[derive(Clone, Copy)]
pub enum Fate {
    /// It is still active.
    Active,
    /// It was committed.
    Committed,
    /// It was squashed by a violation: it, or a task before it, had read a word too early.
    Violation,
    /// It was squashed for a wrong guess: it, or a task before it, had begun at a wrong entry.
    Guess,
    /// It was squashed by a cancel, of its unit's task or of one before it.
    Cancel,
}

impl Fate {
    /// Whether the task is still active.
    pub fn is_active(self) -> bool
        ensures { result ≡ is_active self }
    {
        match self {
            Fate::Active => true,
            _ => false,
        }
    }

    /// The word for a fate.
    pub fn word(self) -> &'static str
        ensures { result.now ≡ fate_word self }
    {
        match self {
            Fate::Active => "active",
            Fate::Committed => "committed",
            Fate::Violation => "violation",
            Fate::Guess => "guess",
            Fate::Cancel => "cancel",
        }
    }
}

/// A task that a history begins: what it did, and what became of it. Entries are counted from 0.
#[derive(Clone, Copy)]
pub struct TaskRun {
    /// Its number: how many tasks before it were committed or active when it began.
    pub number: u64,
    /// The unit that ran it.
    pub unit: UnitId,
    /// The entry at which it began, a byte address.
    pub entry: u32,
    /// The entry of its assignment.
    pub first: u64,
    /// The entry that decided its fate, if one did.
    pub last: Option<u64>,
    /// The turns that its submits took over.
    pub turns: u64,
    /// How many of these loaded.
    pub loads: u64,
    /// How many of these stored.
    pub stores: u64,
    /// What became of it.
    pub fate: Fate,
}

// The turns that an entry took over.
pub(crate) fn turns_in(entry: &Entry) -> u64
    ensures value { result ≡ turns_in entry.now }
    ensures few { result < 2 ^ 9 }
{
    u64::from(entry.local.unwrap_or(0)) + u64::from(entry.ask.unwrap_or(false))
}

/// Whether the entry's reply is that a word was loaded.
pub fn loads_in(entry: &Entry) -> bool
    ensures { result ≡ is_load entry.now.reply }
{
    match entry.reply {
        ReplyKind::Loaded => true,
        _ => false,
    }
}

/// Whether the entry's reply is that a word was stored.
pub fn stores_in(entry: &Entry) -> bool
    ensures { result ≡ is_store entry.now.reply }
{
    match entry.reply {
        ReplyKind::Stored => true,
        _ => false,
    }
}

// The fate of tasks that are squashed for this cause.
fn fate_of(cause: Option<CutKind>) -> Fate
    ensures { result ≡ fate_of cause }
{
    match cause {
        None => Fate::Active,
        Some(CutKind::Violation) => Fate::Violation,
        Some(CutKind::Guess) => Fate::Guess,
        Some(CutKind::Cancel) => Fate::Cancel,
    }
}

// There is a number, and it is this one.
fn is_number(told: Option<u32>, number: u64) -> bool
    ensures { result ≡ is_number told number }
{
    match told {
        Some(told) => u64::from(told) == number,
        None => false,
    }
}

// There is a number, and it is not above this one.
fn is_not_above(told: Option<u32>, number: u64) -> bool
    ensures { result ≡ is_not_above told number }
{
    match told {
        Some(told) => u64::from(told) <= number,
        None => false,
    }
}

// The entry that decided a fate, if it is decided.
fn last_by(fate: Fate, at: u64) -> Option<u64>
    ensures { result ≡ cond (is_active fate) None (Some at) }
{
    if fate.is_active() { None } else { Some(at) }
}

impl TaskRun {
    // The entry is a submit of the task.
    fn is_of(&self, entry: &Entry) -> bool
        ensures { result ≡ is_submit_of entry.now self.now }
    {
        match entry.kind {
            Kind::Submit => entry.unit.0 == self.unit.0,
            _ => false,
        }
    }

    // What the entry makes of the task.
    fn fate_after(&self, entry: &Entry) -> Fate
        ensures { result ≡ fate_after entry.now self.now }
    {
        if is_not_above(entry.first, self.number) {
            return fate_of(entry.cause);
        }
        match entry.kind {
            Kind::Commit if is_number(entry.word, self.number) => Fate::Committed,
            _ => Fate::Active,
        }
    }

    // The active task with what this entry adds.
    fn run_on(&mut self, entry: &Entry)
        requires { work self.old + 514 < 2 ^ 64 }
        ensures { self.new ≡ ran entry.now self.old }
    {
        if self.is_of(entry) {
            self.turns += turns_in(entry);
            self.loads += u64::from(loads_in(entry));
            self.stores += u64::from(stores_in(entry));
        }
    }

    /// The entry at this index: what the active task does with it, and what becomes of the task.
    pub(crate) fn go_on(&mut self, at: u64, entry: &Entry)
        requires { work self.old + 514 < 2 ^ 64 }
        ensures { self.new ≡ after at entry.now self.old }
    {
        let fate = self.fate_after(entry);
        self.run_on(entry);
        self.last = last_by(fate, at);
        self.fate = fate;
    }
}
