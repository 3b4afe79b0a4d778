// The table of units.

ghost use Rattle.std.specs.Prelude.{◌≡◌, ◌≤◌, ◌++◌, ◌∷◌, [], OnOk, IfOk, IfErr, cond, flat_map, length};
ghost use Rattle.std.specs.Io.KnownBytes.{Appends};
ghost use Rattle.std.specs.List.{AllByRecursion};
ghost use Rattle.svc_base.specs.declared.config.TheConstants.{MAX_EVENTS};
ghost use Rattle.svc_report.specs.Faults.{IsWriteFault};
ghost use Rattle.svc_task_runs.specs.Bounds.{IsLight};
ghost use Rattle.svc_profile.specs.Units.{is_on, tasks_on, total_column, unit_columns, unit_header, unit_row};
ghost use Rattle.svc_profile.specs.Units.{unit_rows, unit_table};

use crate::totals::{Group, Measure, Total};
use std::alloc::{AllocError, Global};
use std::io::Write;
use svc_history_laws::Entry;
use svc_report::ReportError;
use svc_task_runs::{TaskRun, tasks_of};
use svc_text::{Piece, put, write_text};

// The names of the columns.
const HEADER: &[u8] =
    b"unit,begun,committed,squashed,turns-committed,turns-squashed,loads,stores\n";

// The unit ran the task.
fn is_on(unit: u32, run: &TaskRun) -> bool
    ensures { result ≡ is_on unit run.now }
{
    u32::from(run.unit.0) == unit
}

// Adds a task to a list if the condition holds.
fn push_where(holds: bool, run: TaskRun, list: &mut Vec<TaskRun>) -> Result<(), AllocError>
    ensures { OnOk result (list.new.items ≡ list.old.items ++ cond holds (run ∷ []) []) }
{
    if holds {
        list.push(run)?;
    }
    Ok(())
}

// The tasks that a unit ran.
fn tasks_on(alloc: Global, unit: u32, runs: &[TaskRun]) -> Result<Vec<TaskRun>, AllocError>
    ensures { IfOk result (λ tasks. tasks.items ≡ tasks_on runs.now unit) }
{
    let mut tasks = Vec::new(alloc);
    for run in runs {
        push_where(is_on(unit, run), *run, &mut tasks)?;
    }
    Ok(tasks)
}

// What is reported for a unit.
fn unit_columns() -> [Total; 7]
    ensures { result ≡ unit_columns }
{
    let total = |measure, group| Total { measure, group };
    [
        total(Measure::Tasks, Group::Begun),
        total(Measure::Tasks, Group::Committed),
        total(Measure::Tasks, Group::Squashed),
        total(Measure::Turns, Group::Committed),
        total(Measure::Turns, Group::Squashed),
        total(Measure::Loads, Group::Begun),
        total(Measure::Stores, Group::Begun),
    ]
}

// Adds a total as a further column.
fn put_column(text: &mut Vec<u8>, total: Total, runs: &[TaskRun]) -> Result<(), AllocError>
    requires few { length runs.now ≤ MAX_EVENTS }
    requires light { AllByRecursion (IsLight MAX_EVENTS) runs.now }
    ensures { OnOk result (text.new.items ≡ text.old.items ++ total_column runs.now total) }
{
    put!(text; ",", total.over(runs));
    Ok(())
}

// Adds these totals as further columns.
fn put_columns(text: &mut Vec<u8>, totals: &[Total], runs: &[TaskRun]) -> Result<(), AllocError>
    requires few { length runs.now ≤ MAX_EVENTS }
    requires light { AllByRecursion (IsLight MAX_EVENTS) runs.now }
    ensures { OnOk result (text.new.items ≡ text.old.items ++ flat_map (total_column runs.now) totals.now) }
{
    for total in totals {
        put_column(text, *total, runs)?;
    }
    Ok(())
}

// Adds the row of a unit.
fn put_unit(
    alloc: Global,
    text: &mut Vec<u8>,
    unit: u32,
    runs: &[TaskRun],
) -> Result<(), AllocError>
    requires few { length runs.now ≤ MAX_EVENTS }
    requires light { AllByRecursion (IsLight MAX_EVENTS) runs.now }
    ensures { OnOk result (text.new.items ≡ text.old.items ++ unit_row runs.now unit) }
{
    let tasks = tasks_on(alloc, unit, runs)?;
    unit.put(text)?;
    put_columns(text, &unit_columns(), &tasks)?;
    "\n".put(text)
}

// The text of the table of this many units.
fn table_of(alloc: Global, units: u32, runs: &[TaskRun]) -> Result<Vec<u8>, AllocError>
    requires few { length runs.now ≤ MAX_EVENTS }
    requires light { AllByRecursion (IsLight MAX_EVENTS) runs.now }
    ensures { IfOk result (λ text. text.items ≡ unit_header ++ unit_rows units runs.now) }
{
    let mut text = Vec::from_slice(alloc, HEADER)?;
    for unit in 0..units {
        put_unit(alloc, &mut text, unit, runs)?;
    }
    Ok(text)
}

/// Writes the table of a number of units: a header, and a row for each with totals over the tasks
/// that it ran in a history.
///
/// Errors: [`ReportError::Memory`], [`ReportError::Write`].
pub fn write_units<W: Write>(
    alloc: Global,
    units: u32,
    entries: &[Entry],
    w: &mut W,
) -> Result<(), ReportError>
    requires few { length entries.now ≤ MAX_EVENTS }
    ensures ok { OnOk result (Appends (W.contents w.old) (W.contents w.new) (unit_table units entries.now)) }
    ensures err { IfErr result IsWriteFault }
{
    let runs = tasks_of(alloc, entries)?;
    let text = table_of(alloc, units, &runs)?;
    write_text(&text, w)?;
    Ok(())
}
