// The table of a history's tasks.

ghost use Rattle.std.specs.Prelude.{◌≡◌, ◌≤◌, ◌++◌, OnOk, IfOk, IfErr, codes, decimal, flat_map, length};
ghost use Rattle.std.specs.Io.KnownBytes.{Appends, append_known};
ghost use Rattle.svc_base.specs.declared.config.TheConstants.{MAX_EVENTS};
ghost use Rattle.svc_report.specs.Faults.{IsWriteFault};
ghost use Rattle.svc_profile.specs.Tasks.{optional_text, task_end, task_front, task_header, task_row, task_table};
ghost use Rattle.svc_profile.specs.Tasks.{tasks_in_order};

use std::alloc::{AllocError, Global};
use std::io::Write;
use svc_history_laws::Entry;
use svc_report::ReportError;
use svc_task_runs::{TaskRun, tasks_of};
use svc_text::{Piece, put, write_if_long, write_text};

// The names of the columns.
const HEADER: &[u8] = b"task,unit,entry,first,last,turns,loads,stores,fate\n";

// Adds a number and its comma.
fn put_column(text: &mut Vec<u8>, number: u64) -> Result<(), AllocError>
    ensures { OnOk result (text.new.items ≡ text.old.items ++ (decimal number ++ codes ",")) }
{
    put!(text; number, ",");
    Ok(())
}

// Adds what a task was.
fn put_front(text: &mut Vec<u8>, run: &TaskRun) -> Result<(), AllocError>
    ensures { OnOk result (text.new.items ≡ text.old.items ++ task_front run.now) }
{
    put_column(text, run.number)?;
    put_column(text, u64::from(run.unit.0))?;
    put_column(text, u64::from(run.entry))?;
    put_column(text, run.first)
}

// Adds a number, if there is one.
fn put_optional(text: &mut Vec<u8>, number: Option<u64>) -> Result<(), AllocError>
    ensures { OnOk result (text.new.items ≡ text.old.items ++ optional_text number) }
{
    match number {
        Some(number) => number.put(text),
        None => Ok(()),
    }
}

// Adds what a task did, and what became of it.
fn put_end(text: &mut Vec<u8>, run: &TaskRun) -> Result<(), AllocError>
    ensures { OnOk result (text.new.items ≡ text.old.items ++ task_end run.now) }
{
    put!(text; ",");
    put_column(text, run.turns)?;
    put_column(text, run.loads)?;
    put_column(text, run.stores)?;
    put!(text; run.fate.word(), "\n");
    Ok(())
}

// Adds the row of a task.
fn put_task(text: &mut Vec<u8>, run: &TaskRun) -> Result<(), AllocError>
    ensures { OnOk result (text.new.items ≡ text.old.items ++ task_row run.now) }
{
    put_front(text, run)?;
    put_optional(text, run.last)?;
    put_end(text, run)
}

// Writes the rows of these tasks; the last ones stay gathered.
fn write_rows<W: Write>(text: &mut Vec<u8>, runs: &[TaskRun], w: &mut W) -> Result<(), ReportError>
    ensures ok { OnOk result (Appends (append_known (W.contents w.old) text.old.items)
        (append_known (W.contents w.new) text.new.items) (flat_map task_row runs.now)) }
    ensures err { IfErr result IsWriteFault }
{
    for run in runs {
        put_task(text, run)?;
        write_if_long(text, w)?;
    }
    Ok(())
}

// The tasks of a history, in the order in which they begin.
fn tasks_in_order(alloc: Global, entries: &[Entry]) -> Result<Vec<TaskRun>, AllocError>
    requires few { length entries.now ≤ MAX_EVENTS }
    ensures { IfOk result (λ tasks. tasks.items ≡ tasks_in_order entries.now) }
{
    let mut runs = tasks_of(alloc, entries)?;
    runs.sort_by_key(|run| run.first)?;
    Ok(runs)
}

/// Writes the table of a history's tasks: a header, and a row for each in the order in which they begin.
///
/// Errors: [`ReportError::Memory`], [`ReportError::Write`].
pub fn write_tasks<W: Write>(alloc: Global, entries: &[Entry], w: &mut W) -> Result<(), ReportError>
    requires few { length entries.now ≤ MAX_EVENTS }
    ensures ok { OnOk result (Appends (W.contents w.old) (W.contents w.new) (task_table entries.now)) }
    ensures err { IfErr result IsWriteFault }
{
    let runs = tasks_in_order(alloc, entries)?;
    let mut text = Vec::from_slice(alloc, HEADER)?;
    write_rows(&mut text, &runs, w)?;
    write_text(&text, w)?;
    Ok(())
}
