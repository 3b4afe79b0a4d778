// Why a value isn't opened, and why an event is refused.

ghost use Rattle.std.specs.Prelude.{◌≡◌};
ghost use Rattle.svc_base.specs.Refusals.{number_of};

use crate::ids::WordAddr;
use thiserror::Error;

/// Why a value could not be opened.
#[derive(Clone, Copy, Debug, PartialEq, Eq, Error)]
pub enum OpenError {
    /// The allocator refused memory.
    #[error("out of memory")]
    Memory,
}

impl OpenError {
    /// The number by which the program reports this error.
    pub fn number(self) -> u8
        ensures { result ≡ 1 }
    {
        match self {
            OpenError::Memory => 1,
        }
    }
}

/// Why an event was refused. A refused event changes nothing.
#[derive(Clone, Copy, Debug, PartialEq, Eq)]
pub enum Refusal {
    /// The named unit is not one of the machine's.
    NoSuchUnit,
    /// The unit already has a task.
    Busy,
    /// The unit has no task.
    Idle,
    /// The burst doesn't start where the unit's task is: its epoch or its start core is a different
    /// one.
    Stale,
    /// The burst looked at another text than that of the machine's image.
    ForeignText,
    /// A task is active, and the guess is not an entry.
    NotEntry,
    /// A committed task ended the run.
    Stopped,
    /// The unit's task has ended.
    Done,
    /// The unit's cache has no room for the word that the burst asks for: there is no line of it, and every place of
    /// its set is taken. The address is the word to replace first: the lowest in the set whose line is committed, or if
    /// no line of the set is, the lowest.
    SetFull(WordAddr),
    /// The unit's cache has nothing to replace at that word.
    NotResident,
    /// The line belongs to a running task that is not the head, so it has to stay.
    Pinned,
    /// The head has not ended.
    HeadNotDone,
    /// No task is active.
    NoTask,
    /// The unit's task is the head.
    IsHead,
    /// As many events were accepted as the configuration allows.
    HistoryFull,
    /// All epochs have been given out.
    EpochsSpent,
    /// The burst has no turn and asks for nothing.
    EmptyBurst,
}

impl Refusal {
    /// The number by which scripts and reports name this refusal, 1 to 17. If several refusals
    /// apply to an event, the one with the lowest number is the answer.
    #[tactic(auto, unfolding(crate::specs::Refusals::number_of))]
    pub fn number(self) -> u8
        ensures { result ≡ number_of self }
    {
        match self {
            Refusal::NoSuchUnit => 1,
            Refusal::Busy => 2,
            Refusal::Idle => 3,
            Refusal::Stale => 4,
            Refusal::ForeignText => 5,
            Refusal::NotEntry => 6,
            Refusal::Stopped => 7,
            Refusal::Done => 8,
            Refusal::SetFull(_) => 9,
            Refusal::NotResident => 10,
            Refusal::Pinned => 11,
            Refusal::HeadNotDone => 12,
            Refusal::NoTask => 13,
            Refusal::IsHead => 14,
            Refusal::HistoryFull => 15,
            Refusal::EpochsSpent => 16,
            Refusal::EmptyBurst => 17,
        }
    }
}
