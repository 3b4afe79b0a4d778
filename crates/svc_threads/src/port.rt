// What a unit's thread knows of the bus, and the gate that its events pass.

ghost use Rattle.std.specs.Prelude.{◌≡◌, IfOk};
ghost use Rattle.svc_threads.specs.Ports.{IsEntryOf, LeasesTo};

use crate::board::Board;
use std::sync::Wait;
use svc_base::{Refusal, UnitId};
use svc_history::{Event, Glance, Slip};

/// Where a unit's thread stands.
#[derive(Clone, Copy)]
pub enum Phase<'a> {
    /// It is about to ask for this event; the burst of a submit is made.
    Before(Event<'a>),
    /// The event was accepted or refused.
    After,
}

/// Is asked before and after each event of a unit's thread, which then has no lock, and may wait. If it says no, that
/// thread ends: without the event, if asked before it, and with its slip, if asked after it.
pub trait Gate {
    fn pass(&self, unit: UnitId, phase: Phase<'_>) -> bool;
}

/// What a unit's thread knows of the bus. No guard of a lock outlives a call, so a thread holds no lock while it takes
/// turns.
pub trait Port {
    ghost use Rattle.atomic_table.specs.Seated.{TableId};

    /// The board that shows the numbers.
    ghost board_of: { Self → TableId };

    /// What the unit's thread needs to know for its next event. A lease in it is the unit's own.
    ///
    /// Errors: [`Refusal::NoSuchUnit`].
    fn lease<R: Wait>(&self, rt: &R, unit: UnitId) -> Result<Glance, Refusal>
        ensures { IfOk result (LeasesTo unit) };

    /// One event, in one step.
    ///
    /// Errors: why it is refused; then nothing has changed.
    fn apply<R: Wait>(&self, rt: &R, event: Event<'_>) -> Result<Slip, Refusal>
        ensures { IfOk result (λ slip. IsEntryOf event.entry slip.entry) };

    /// The board that shows the numbers.
    fn board(&self) -> &Board
        ensures { result.now ≡ board_of self.now };
}
