//! A cancel, and what events cut.

ghost use Rattle.std.specs.Prelude.{◌≡◌, ◌<◌, ◌+◌, ◌^◌, Some};
ghost use Rattle.svc_machine_laws.specs.Events.{Cancel, seat_place};
ghost use Rattle.svc_machine_laws.specs.Replies.{cut_from};
ghost use Rattle.svc_machine.specs.Refusing.{machine_at};
ghost use Rattle.svc_machine.specs.Steps.{Accepts, IsTaken};

use crate::machine::Machine;
use svc_base::{TaskNo, UnitId};
use svc_machine_laws::{Cause, Cut, Reply, What};

impl Machine {
    // Squashes the unit's task, in the seat at this place, and all after it.
    pub(crate) fn cancel(&mut self, unit: UnitId, place: usize) -> Reply
        requires accepted { Accepts self.old (Cancel unit.0) }
        requires found { seat_place (machine_at self.old) unit.0 ≡ Some place }
        ensures { IsTaken self.old self.new (Cancel unit.0) result }
    {
        let cut = cut_from(Cause::Cancelled, self.commits, self.seats.len(), place);
        self.bus.squash_from(unit);
        self.sequencer.cut_from(place);
        self.seats.truncate(place);
        self.accepted += 1;
        Reply {
            what: What::Cancelled,
            cut: Some(cut),
        }
    }
}

/// The cut of the active tasks from a place on, given how many tasks are active and how many are committed.
pub(crate) fn cut_from(cause: Cause, commits: u64, count: usize, place: usize) -> Cut
    requires number { commits + place < 2 ^ 64 }
    requires few { count < 2 ^ 32 }
    ensures { result ≡ cut_from cause commits count place }
{
    Cut {
        cause,
        first: TaskNo(commits + place as u64),
        tasks: count.saturating_sub(place) as u32,
    }
}
