// A profile as a row of a table.

ghost use Rattle.std.specs.Prelude.{◌≡◌, ◌≤◌, ◌++◌, [], OnOk, IfOk, IfErr, length, map};
ghost use Rattle.std.specs.List.{AllByRecursion};
ghost use Rattle.std.specs.Io.KnownBytes.{Appends};
ghost use Rattle.svc_base.specs.declared.config.TheConstants.{MAX_EVENTS};
ghost use Rattle.svc_report.specs.Faults.{IsWriteFault};
ghost use Rattle.svc_report.specs.Table.{header_text};
ghost use Rattle.svc_task_runs.specs.Bounds.{IsLight};
ghost use Rattle.svc_task_runs.specs.Runs.{tasks_of};
ghost use Rattle.svc_profile.specs.ProfileRow.{profile_fields, profile_names, profile_row, served_field, total_field};

use crate::profile::{SUPPLIERS, served_count, totals_told};
use crate::totals::Total;
use std::alloc::{AllocError, Global};
use std::io::Write;
use svc_history_laws::{Entry, ServedKind};
use svc_report::{COUNT_NAMES, Counts, Fields, ReportError, TableRow, write_row};
use svc_task_runs::{TaskRun, tasks_of};

// The names of the columns before those of the suppliers.
const FIRST_NAMES: [&str; 17] = [
    "label",
    "events",
    "tasks-begun",
    "tasks-committed",
    "tasks-violation",
    "tasks-guess",
    "tasks-cancel",
    "tasks-active",
    "turns-committed",
    "turns-squashed",
    "turns-active",
    "loads-committed",
    "loads-squashed",
    "loads-active",
    "stores-committed",
    "stores-squashed",
    "stores-active",
];

// The names of the columns. Those of the suppliers are the names of a summary's counts.
fn names(alloc: Global) -> Result<Fields, AllocError>
    ensures { IfOk result (λ names. names ≡ profile_names) }
{
    let mut names = Fields::new(alloc);
    names.push_all(&FIRST_NAMES)?;
    names.push_all(&COUNT_NAMES[5..11])?;
    names.push("replaced")?;
    Ok(names)
}

// Writes the names of the columns, if they are asked for.
fn write_names<W: Write>(alloc: Global, header: bool, w: &mut W) -> Result<(), ReportError>
    ensures ok { OnOk result (Appends (W.contents w.old) (W.contents w.new) (header_text header profile_names)) }
    ensures err { IfErr result IsWriteFault }
{
    if header {
        return write_row(alloc, &names(alloc)?, w);
    }
    Ok(())
}

// Adds a field for each of the totals.
fn push_totals(fields: &mut Fields, totals: &[Total], runs: &[TaskRun]) -> Result<(), AllocError>
    requires few { length runs.now ≤ MAX_EVENTS }
    requires light { AllByRecursion (IsLight MAX_EVENTS) runs.now }
    ensures { OnOk result (fields.new ≡ fields.old ++ map (total_field runs.now) totals.now) }
{
    for total in totals {
        fields.push_number(total.over(runs))?;
    }
    Ok(())
}

// Adds a field for each of the suppliers.
fn push_served(
    fields: &mut Fields,
    suppliers: &[ServedKind],
    counts: &Counts,
) -> Result<(), AllocError>
    ensures { OnOk result (fields.new ≡ fields.old ++ map (served_field counts.now) suppliers.now) }
{
    for served in suppliers {
        fields.push_number(served_count(counts, *served))?;
    }
    Ok(())
}

// Adds the fields of a history's profile, given its tasks, to an empty row.
fn push_fields(
    fields: &mut Fields,
    label: &str,
    entries: &[Entry],
    runs: &[TaskRun],
) -> Result<(), AllocError>
    requires none { fields.old ≡ [] }
    requires tasks { runs.now ≡ tasks_of entries.now }
    requires few { length runs.now ≤ MAX_EVENTS }
    requires light { AllByRecursion (IsLight MAX_EVENTS) runs.now }
    ensures { OnOk result (fields.new ≡ profile_fields label.now entries.now) }
{
    let counts = Counts::of(entries);
    fields.push(label)?;
    fields.push_number(entries.len() as u64)?;
    push_totals(fields, &totals_told(), runs)?;
    push_served(fields, &SUPPLIERS, &counts)?;
    fields.push_number(counts.replace)
}

/// Writes what a history's speculation cost as a row of a table: its label, and the counts of the profile in their
/// order.
///
/// Errors: [`ReportError::Memory`], [`ReportError::Write`].
pub fn write_profile_row<W: Write>(
    alloc: Global,
    row: TableRow<'_>,
    entries: &[Entry],
    w: &mut W,
) -> Result<(), ReportError>
    requires few { length entries.now ≤ MAX_EVENTS }
    ensures ok { OnOk result (Appends (W.contents w.old) (W.contents w.new) (profile_row row.entry entries.now)) }
    ensures err { IfErr result IsWriteFault }
{
    let runs = tasks_of(alloc, entries)?;
    let mut fields = Fields::new(alloc);
    push_fields(&mut fields, row.label, entries, &runs)?;
    write_names(alloc, row.header, w)?;
    write_row(alloc, &fields, w)
}
