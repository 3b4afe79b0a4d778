// The lines of the active tasks.

ghost use Rattle.std.specs.Prelude.{◌≡◌, ◌<◌, ◌+◌, ◌++◌, OnOk, length, option_map, slice_get};
ghost use Rattle.svc_core_laws.specs.Turns.{data_words};
ghost use Rattle.svc_core_laws.specs.Words.{program};
ghost use Rattle.svc_bus.specs.Calls.{line_shown};
ghost use Rattle.svc_bus.specs.State.{bus_state};
ghost use Rattle.svc_bus_laws.specs.BusLine.{is_active_line};
ghost use Rattle.svc_machine_laws.specs.PlainMachine.{running};
ghost use Rattle.svc_report.specs.Fields.{optional};
ghost use Rattle.svc_held.specs.Held.{HasItsLines};
ghost use Rattle.svc_held.specs.Tasks.{each_task};
ghost use Rattle.svc_version_order.specs.Order.{task_field, unit_field};

use crate::fields::put_active;
use std::alloc::AllocError;
use svc_base::UnitId;
use svc_held::{Named, is_committed, line_of_named, number_at};
use svc_line::LineBits;
use svc_machine::Machine;

// There is a line, of an active task.
fn is_active(line: Option<(LineBits, u32)>) -> bool
    ensures { result ≡ is_active_line (option_map line_shown line) }
{
    match line {
        Some((bits, _value)) => !is_committed(bits),
        None => false,
    }
}

// Adds the field of a unit's line, if it is that of its active task, which has this number.
fn put_if_active(
    number: u64,
    unit: UnitId,
    line: Option<(LineBits, u32)>,
    rows: &mut Vec<u8>,
) -> Result<(), AllocError>
    ensures { OnOk result
        (rows.new.items ≡ rows.old.items ++ unit_field number unit.0 (option_map line_shown line)) }
{
    if is_active(line) {
        put_active(unit, number, rows)
    } else {
        Ok(())
    }
}

// Adds the field of the unit's line of a named word, if it is that of its active task, which has this number.
fn put_task(
    machine: &Machine,
    named: Named,
    number: u64,
    unit: UnitId,
    rows: &mut Vec<u8>,
) -> Result<(), AllocError>
    requires own { HasItsLines (bus_state machine.now.bus) (data_words machine.now.image) named }
    ensures { OnOk result (rows.new.items ≡ rows.old.items
        ++ unit_field number unit.0 ((bus_state machine.now.bus).lines unit.0 named.word.0)) }
{
    put_if_active(number, unit, line_of_named(machine, unit, named), rows)
}

// Adds the field of the line of the active task at a place.
fn put_task_at(
    machine: &Machine,
    named: Named,
    place: usize,
    rows: &mut Vec<u8>,
) -> Result<(), AllocError>
    requires active { place < length machine.now.plain.tasks }
    requires own { HasItsLines (bus_state machine.now.bus) (data_words machine.now.image) named }
    ensures { let m = machine.now in
        OnOk result (rows.new.items ≡ rows.old.items
        ++ optional (task_field (bus_state m.bus) named.word.0 (m.plain.commits + place))
        (slice_get (running (program m.image) m.plain) place)) }
{
    match machine.task_at(place) {
        Some(task) => put_task(machine, named, number_at(machine, place), task.unit, rows),
        None => Ok(()),
    }
}

/// Adds the fields of the lines of a named word that active tasks have, the oldest task first.
pub(crate) fn put_tasks(
    machine: &Machine,
    named: Named,
    rows: &mut Vec<u8>,
) -> Result<(), AllocError>
    requires own { HasItsLines (bus_state machine.now.bus) (data_words machine.now.image) named }
    ensures { let m = machine.now in
        OnOk result (rows.new.items ≡ rows.old.items
        ++ each_task (task_field (bus_state m.bus) named.word.0) m.plain.commits (running (program m.image) m.plain)) }
{
    for place in 0..machine.active_tasks() {
        put_task_at(machine, named, place, rows)?;
    }
    Ok(())
}
