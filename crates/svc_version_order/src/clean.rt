// The clean lines of committed tasks.

ghost use Rattle.std.specs.Prelude.{◌≡◌, ◌≤◌, ◌++◌, OnOk, option_map};
ghost use Rattle.svc_core_laws.specs.Turns.{data_words};
ghost use Rattle.svc_bus.specs.Calls.{line_shown};
ghost use Rattle.svc_bus.specs.State.{bus_state};
ghost use Rattle.svc_held.specs.Held.{HasItsLines};
ghost use Rattle.svc_version_order.specs.Order.{clean_field, clean_fields, is_clean_line};

use crate::fields::put_committed;
use std::alloc::AllocError;
use svc_base::UnitId;
use svc_held::{Named, is_committed, is_stored, line_of_named};
use svc_line::LineBits;
use svc_machine::Machine;

// There is a line, of a committed task that never stored to it.
fn is_clean(line: Option<(LineBits, u32)>) -> bool
    ensures { result ≡ is_clean_line (option_map line_shown line) }
{
    match line {
        Some((bits, _value)) => is_committed(bits) && !is_stored(bits),
        None => false,
    }
}

// Adds the field of a unit's line, if it is a clean one of a committed task.
fn put_if_clean(
    unit: UnitId,
    line: Option<(LineBits, u32)>,
    rows: &mut Vec<u8>,
) -> Result<(), AllocError>
    ensures { OnOk result
        (rows.new.items ≡ rows.old.items ++ clean_field unit.0 (option_map line_shown line)) }
{
    if is_clean(line) {
        put_committed(unit, rows)
    } else {
        Ok(())
    }
}

// Adds the field of the unit's line of a named word, if it is a clean one of a committed task.
fn put_clean(
    machine: &Machine,
    named: Named,
    unit: UnitId,
    rows: &mut Vec<u8>,
) -> Result<(), AllocError>
    requires own { HasItsLines (bus_state machine.now.bus) (data_words machine.now.image) named }
    ensures { OnOk result (rows.new.items ≡ rows.old.items
        ++ clean_field unit.0 ((bus_state machine.now.bus).lines unit.0 named.word.0)) }
{
    put_if_clean(unit, line_of_named(machine, unit, named), rows)
}

/// Adds the fields of the clean lines of committed tasks of a named word, by unit.
pub(crate) fn put_all_clean(
    machine: &Machine,
    named: Named,
    units: u32,
    rows: &mut Vec<u8>,
) -> Result<(), AllocError>
    requires few { units ≤ 16 }
    requires own { HasItsLines (bus_state machine.now.bus) (data_words machine.now.image) named }
    ensures { OnOk result
        (rows.new.items ≡ rows.old.items ++ clean_fields units (bus_state machine.now.bus) named.word.0) }
{
    for unit in 0..units {
        put_clean(machine, named, UnitId(unit as u8), rows)?;
    }
    Ok(())
}
