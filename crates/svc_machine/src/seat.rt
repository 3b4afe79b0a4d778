//! The seats of the active tasks.

ghost use Rattle.std.specs.Prelude.{◌≡◌, ◌==◌, option_and_then, option_map, slice_get};
ghost use Rattle.std.specs.List.{position};
ghost use Rattle.svc_machine_laws.specs.Guess.{last_end};

use arrayvec::ArrayVec;
use svc_base::UnitId;
use svc_base::limits::MAX_TASK_OUTPUT;
use svc_core::{Core, Lease};
use svc_core_laws::End;

/// The seat of an active task.
#[derive(Drop)]
pub(crate) struct Seat {
    /// What its unit runs it on from: that unit, the epoch of its assignment (no other assignment has that epoch), and
    /// its current core.
    pub(crate) lease: Lease,
    /// The entry at which it began.
    pub(crate) task_entry: u32,
    /// The words that it has output, which wait for its commit.
    pub(crate) waiting: ArrayVec<u32, MAX_TASK_OUTPUT>,
}

/// The place of the unit's task, counted from the oldest.
pub(crate) fn place_of(seats: &[Seat], unit: UnitId) -> Option<usize>
    ensures { result ≡ position (λ seat. seat.lease.unit.0 == unit.0) seats.now }
{
    seats.iter().position(|seat| seat.lease.unit.0 == unit.0)
}

/// How the task at a place has ended, if there is one and it has.
pub(crate) fn end_at(seats: &[Seat], place: usize) -> Option<End>
    ensures { result ≡ option_and_then (λ seat. seat.lease.core.done) (slice_get seats.now place) }
{
    match seats.get(place) {
        Some(seat) => seat.lease.core.done(),
        None => None,
    }
}

/// The core of the task at a place, if there is one.
pub(crate) fn core_at(seats: &[Seat], place: usize) -> Option<&Core>
    ensures { option_map (λ core. core.now) result
        ≡ option_map (λ seat. seat.lease.core) (slice_get seats.now place) }
{
    match seats.get(place) {
        Some(seat) => Some(&seat.lease.core),
        None => None,
    }
}

/// How the youngest task has ended, if there is one and it has.
pub(crate) fn last_end(seats: &[Seat]) -> Option<End>
    ensures { result ≡ last_end (λ seat. seat.lease.core.done) seats.now }
{
    match seats.last() {
        Some(seat) => seat.lease.core.done(),
        None => None,
    }
}
