//! The ten events.

/// An event; a submission's burst is what the unit's task is run on by then.
#[derive(Clone, Copy)]
pub enum Line {
    /// This unit is assigned a task, with a guess where it begins.
    Assign(u8, u32),
    /// This unit submits a burst.
    Submit(u8),
    /// The task of this unit is cancelled.
    Cancel(u8),
    /// This unit asks for a commit.
    Commit(u8),
}

/// The ten events after which both tasks of [`P`](crate::P) are committed: the second one loads too early, is squashed,
/// and begins again. A burst has up to 63 turns.
pub const TEN: [Line; 10] = [
    Line::Assign(0, 0),
    Line::Assign(1, 12),
    Line::Submit(1),
    Line::Submit(0),
    Line::Commit(0),
    Line::Assign(1, 0),
    Line::Submit(1),
    Line::Submit(1),
    Line::Submit(1),
    Line::Commit(1),
];
