// The burst that runs a unit's task on by one turn.

ghost use Rattle.std.specs.Prelude.{◌≡◌};
ghost use Rattle.svc_core_laws.specs.Words.{program};
ghost use Rattle.svc_machine_laws.specs.Refusals.{seat_at};
ghost use Rattle.svc_machine_laws.specs.WholeMachine.{machine_of};
ghost use Rattle.svc_moves.specs.Turn.{one_turn, turn_of};

use svc_base::UnitId;
use svc_core::{Burst, Lease};
use svc_image::Image;
use svc_machine::Machine;

// The burst that runs a leased task on by one turn, or by none if it has ended.
fn one_turn(image: &Image, lease: &Lease) -> Burst
    ensures { result ≡ one_turn image.now lease.now.unit lease.now.epoch lease.now.core }
{
    lease.advance(image, 1)
}

/// The burst that runs the unit's task on by one turn. Without a task it has no turns.
pub(crate) fn turn_of(machine: &Machine, unit: UnitId) -> Burst
    ensures { let m = machine.now
        in result ≡ turn_of m.image unit (seat_at (machine_of (program m.image) m.plain) unit.0) }
{
    match machine.lease(unit) {
        Some(lease) => one_turn(machine.image(), lease),
        None => Burst::empty(unit),
    }
}
