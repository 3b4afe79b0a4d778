// How a line is named in the order of a word's versions.

ghost use Rattle.std.specs.Prelude.{◌≡◌, ◌++◌, OnOk};
ghost use Rattle.svc_version_order.specs.Fields.{active_field, committed_field};

use std::alloc::AllocError;
use svc_base::UnitId;
use svc_text::put;

/// Adds the field of a unit's line of a committed task.
pub(crate) fn put_committed(unit: UnitId, rows: &mut Vec<u8>) -> Result<(), AllocError>
    ensures { OnOk result (rows.new.items ≡ rows.old.items ++ committed_field unit.0) }
{
    put!(rows; ",", unit.0, ":committed");
    Ok(())
}

/// Adds the field of a unit's line of its active task, which has this number.
pub(crate) fn put_active(unit: UnitId, number: u64, rows: &mut Vec<u8>) -> Result<(), AllocError>
    ensures { OnOk result (rows.new.items ≡ rows.old.items ++ active_field unit.0 number) }
{
    put!(rows; ",", unit.0, ":", number);
    Ok(())
}
