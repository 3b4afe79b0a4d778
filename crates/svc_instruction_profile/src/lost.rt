// The loads of squashed tasks.

ghost use Rattle.std.specs.Prelude.{◌≡◌, ◌<◌, ◌≤◌, ◌++◌, OnOk, drop, flat_map, length};
ghost use Rattle.svc_instruction_profile.specs.Charges.{is_load_of, loads_lost, lost_by};

use crate::charge::{Charge, push_where};
use crate::cost::Expense;
use crate::reader::{between, is_submit_of};
use std::alloc::AllocError;
use svc_history_laws::Entry;
use svc_profile::Group;
use svc_task_runs::{TaskRun, loads_in};

// The entry is a submit of the task, and loaded.
fn is_load_of(run: &TaskRun, entry: &Entry) -> bool
    ensures { result ≡ is_load_of run.now entry.now }
{
    is_submit_of(entry, run) && loads_in(entry)
}

// Each load of a task among these entries, which ask at these addresses, is charged as lost.
fn push_loads(
    run: &TaskRun,
    asked: &[Option<u32>],
    entries: &[Entry],
    charges: &mut Vec<Charge>,
) -> Result<(), AllocError>
    requires same { length asked.now ≡ length entries.now }
    ensures { OnOk result (charges.new.items ≡ charges.old.items ++ loads_lost run.now asked.now entries.now) }
{
    for index in 0..entries.len() {
        push_where(
            is_load_of(run, &entries[index]),
            asked[index],
            Expense::Lost,
            charges,
        )?;
    }
    Ok(())
}

// The same for a task whose fate the entry at an index decided, if it was squashed.
fn push_lost(
    asked: &[Option<u32>],
    entries: &[Entry],
    at: usize,
    run: &TaskRun,
    charges: &mut Vec<Charge>,
) -> Result<(), AllocError>
    requires same { length asked.now ≡ length entries.now }
    requires inside { at < length entries.now }
    ensures { OnOk result (charges.new.items ≡ charges.old.items ++ lost_by asked.now entries.now at run.now) }
{
    if !Group::Squashed.has(run.fate) {
        return Ok(());
    }
    let end = at + 1;
    push_loads(
        run,
        between(run.first, end, asked),
        between(run.first, end, entries),
        charges,
    )
}

// The same for all tasks whose fate the entry at an index decided.
fn push_all_lost(
    asked: &[Option<u32>],
    entries: &[Entry],
    at: usize,
    settled: &[TaskRun],
    charges: &mut Vec<Charge>,
) -> Result<(), AllocError>
    requires same { length asked.now ≡ length entries.now }
    requires inside { at < length entries.now }
    ensures { OnOk result (charges.new.items ≡ charges.old.items
        ++ flat_map (lost_by asked.now entries.now at) settled.now) }
{
    for run in settled {
        push_lost(asked, entries, at, run, charges)?;
    }
    Ok(())
}

/// The same for the tasks from a place on.
pub(crate) fn push_lost_from(
    asked: &[Option<u32>],
    entries: &[Entry],
    at: usize,
    settled: &[TaskRun],
    start: usize,
    charges: &mut Vec<Charge>,
) -> Result<(), AllocError>
    requires same { length asked.now ≡ length entries.now }
    requires inside { at < length entries.now }
    requires within { start ≤ length settled.now }
    ensures { OnOk result (charges.new.items ≡ charges.old.items
        ++ flat_map (lost_by asked.now entries.now at) (drop start settled.now)) }
{
    push_all_lost(asked, entries, at, &settled[start..], charges)
}
