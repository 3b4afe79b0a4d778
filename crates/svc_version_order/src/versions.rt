// The committed versions of a word, oldest first.

ghost use Rattle.std.specs.Prelude.{◌≡◌, ◌++◌, OnOk};
ghost use Rattle.svc_core_laws.specs.Turns.{data_words};
ghost use Rattle.svc_bus.specs.State.{bus_state};
ghost use Rattle.svc_held.specs.Held.{HasItsLines};
ghost use Rattle.svc_version_order.specs.Order.{version_fields};
ghost use Rattle.svc_version_order.specs.Fields.{committed_fields};

use crate::fields::put_committed;
use std::alloc::AllocError;
use svc_base::UnitId;
use svc_held::Named;
use svc_machine::Machine;

// Adds a field for each of these units' committed versions.
fn put_each(units: &[UnitId], rows: &mut Vec<u8>) -> Result<(), AllocError>
    ensures { OnOk result (rows.new.items ≡ rows.old.items ++ committed_fields units.now) }
{
    for unit in units {
        put_committed(*unit, rows)?;
    }
    Ok(())
}

/// Adds the fields of the committed versions of a named word, oldest first.
pub(crate) fn put_versions(
    machine: &Machine,
    named: Named,
    rows: &mut Vec<u8>,
) -> Result<(), AllocError>
    requires own { HasItsLines (bus_state machine.now.bus) (data_words machine.now.image) named }
    ensures { let m = machine.now in OnOk result
        (rows.new.items ≡ rows.old.items ++ version_fields m.config.units (bus_state m.bus) named.word.0) }
{
    let _standing = machine.config();
    put_each(&machine.committed_versions(named.word), rows)
}
