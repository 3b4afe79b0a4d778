// What a unit sees of a recorder, and what it does next.

ghost use Rattle.std.specs.Prelude.{◌≡◌, option_map};
ghost use Rattle.svc_history.specs.Moves.{next_move, code_move};

use svc_core::Lease;

/// What a unit thread needs to know for its next event.
#[derive(Clone, Copy)]
pub struct Glance {
    /// The run is over: it has stopped, or the history is full.
    pub ended: bool,
    /// What the unit may run its task on from, if it has one.
    pub lease: Option<Lease>,
    /// The unit runs the head.
    pub is_head: bool,
    /// The entry at which the next task should begin, until the run has stopped.
    pub guess: Option<u32>,
}

/// What a unit does next. It lends the lease, so a move costs nothing to hand on.
#[derive(Clone, Copy)]
pub enum Move<'a> {
    /// It starts a task at the guess.
    Begin { guess: u32 },
    /// It runs its task on from the lease.
    RunOn(&'a Lease),
    /// It commits the head, which is its own.
    Commit,
    /// It can do nothing before another unit's event.
    Wait,
    /// The run has ended.
    Ended,
}

impl Glance {
    /// What the unit does next, given what it sees: nothing more once the run is over. Without a task it begins one at
    /// the guess. It runs on a task that has not ended, and commits one that has if it is the head. Otherwise it waits.
    pub fn next_move(&self) -> Move<'_>
        ensures { code_move result ≡ next_move self.now }
    {
        move_by(self.ended, self.lease.as_ref(), self.is_head, self.guess)
    }
}

// What a unit does next, given the fields of a glance, with the lease lent.
pub(crate) fn move_by(
    ended: bool,
    lease: Option<&Lease>,
    is_head: bool,
    guess: Option<u32>,
) -> Move<'_>
    ensures { let lease = option_map (λ lent. lent.now) lease.entry in
        code_move result ≡ next_move (record { ended = ended; lease = lease; is_head = is_head; guess = guess }) }
{
    if ended {
        return Move::Ended;
    }
    match lease {
        None => match guess {
            Some(guess) => Move::Begin { guess },
            None => Move::Wait,
        },
        Some(lease) if lease.core.is_running() => Move::RunOn(lease),
        Some(_) if is_head => Move::Commit,
        Some(_) => Move::Wait,
    }
}
