// The active tasks.

ghost use Rattle.std.specs.Prelude.{◌++◌, ◌≡◌, ◌+◌, ◌<◌, [], OnOk, cond, length, slice_get};
ghost use Rattle.svc_core_laws.specs.Words.{program};
ghost use Rattle.svc_machine.specs.Cores.{core_of};
ghost use Rattle.svc_machine_laws.specs.PlainMachine.{running};
ghost use Rattle.svc_report.specs.Fields.{optional};
ghost use Rattle.svc_show.specs.Cores.{core_rows};
ghost use Rattle.svc_show.specs.Rows.{state_end, state_word, task_row};
ghost use Rattle.svc_show.specs.Show.{all_task_rows, task_rows};

use crate::cores::write_core;
use std::alloc::AllocError;
use svc_base::UnitId;
use svc_core_laws::End;
use svc_held::number_at;
use svc_machine::{ActiveTask, Machine};
use svc_text::{put, put_fields};

// The word for how a task stands.
fn state_word(done: Option<End>) -> &'static str
    ensures { result.now ≡ state_word done }
{
    match done {
        None => "running",
        Some(End::Next(_)) => "next",
        Some(End::Exit(_)) => "exit",
        Some(End::Trap(_)) => "trap",
    }
}

// Writes the last column of a task, and ends its row.
fn write_state(state: &str, rows: &mut Vec<u8>) -> Result<(), AllocError>
    ensures { OnOk result (rows.new.items ≡ rows.old.items ++ state_end state.now) }
{
    put!(rows; ",", state, "\n");
    Ok(())
}

// Writes the row of the active task of this number.
fn write_task(number: u64, task: ActiveTask, rows: &mut Vec<u8>) -> Result<(), AllocError>
    ensures { OnOk result (rows.new.items ≡ rows.old.items ++ task_row number task) }
{
    let numbers = [
        number,
        u64::from(task.unit.0),
        u64::from(task.task_entry),
        u64::from(task.turns),
    ];
    put_fields(rows, "task", &numbers)?;
    write_state(state_word(task.done), rows)
}

// Writes the rows of the core of the unit's task, which is at a place.
fn write_core_at(
    machine: &Machine,
    unit: UnitId,
    place: usize,
    rows: &mut Vec<u8>,
) -> Result<(), AllocError>
    ensures { let m = machine.now in
        OnOk result (rows.new.items ≡ rows.old.items
        ++ optional (core_rows m.image.registers unit.0) (core_of m place)) }
{
    match machine.core_at(place) {
        Some(core) => write_core(machine.image().registers(), unit, core, rows),
        None => Ok(()),
    }
}

// Writes the row of the active task at a place, and the rows of its core if that is asked for.
fn write_rows(
    machine: &Machine,
    detail: bool,
    place: usize,
    task: ActiveTask,
    rows: &mut Vec<u8>,
) -> Result<(), AllocError>
    requires active { place < length machine.now.plain.tasks }
    ensures { let m = machine.now in
        OnOk result (rows.new.items ≡ rows.old.items ++ (task_row (m.plain.commits + place) task
        ++ cond detail (optional (core_rows m.image.registers task.unit.0) (core_of m place)) [])) }
{
    write_task(number_at(machine, place), task, rows)?;
    if detail {
        write_core_at(machine, task.unit, place, rows)
    } else {
        Ok(())
    }
}

// Writes the rows of the active task at a place.
fn write_task_at(
    machine: &Machine,
    detail: bool,
    place: usize,
    rows: &mut Vec<u8>,
) -> Result<(), AllocError>
    requires active { place < length machine.now.plain.tasks }
    ensures { let m = machine.now in
        OnOk result (rows.new.items ≡ rows.old.items ++ optional (task_rows detail m.image (m.plain.commits + place))
        (slice_get (running (program m.image) m.plain) place)) }
{
    match machine.task_at(place) {
        Some(task) => write_rows(machine, detail, place, task, rows),
        None => Ok(()),
    }
}

/// Writes the rows of the active tasks, oldest first, and those of their cores if that is asked for.
pub(crate) fn write_tasks(
    machine: &Machine,
    detail: bool,
    rows: &mut Vec<u8>,
) -> Result<(), AllocError>
    ensures { let m = machine.now in
        OnOk result (rows.new.items ≡ rows.old.items ++ all_task_rows detail m.image m.plain) }
{
    for place in 0..machine.active_tasks() {
        write_task_at(machine, detail, place, rows)?;
    }
    Ok(())
}
