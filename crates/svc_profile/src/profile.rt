// The text of a profile.

ghost use Rattle.std.specs.Prelude.{◌≡◌, ◌≤◌, ◌++◌, OnOk, IfErr, flat_map, length};
ghost use Rattle.std.specs.List.{AllByRecursion};
ghost use Rattle.std.specs.Io.KnownBytes.{Appends};
ghost use Rattle.svc_base.specs.declared.config.TheConstants.{MAX_EVENTS};
ghost use Rattle.svc_report.specs.Faults.{IsWriteFault};
ghost use Rattle.svc_task_runs.specs.Bounds.{IsLight};
ghost use Rattle.svc_task_runs.specs.Runs.{tasks_of};
ghost use Rattle.svc_profile.specs.Profile.{count_row, profile_of, served_count, served_row, suppliers_told, total_row};
ghost use Rattle.svc_profile.specs.Profile.{totals_told};

use crate::totals::{Group, Measure, Total};
use std::alloc::{AllocError, Global};
use std::io::Write;
use svc_history_laws::{Entry, ServedKind};
use svc_report::{Counts, ReportError, Word};
use svc_task_runs::{TaskRun, tasks_of};
use svc_text::{put, write_text};

/// The totals that are reported.
pub(crate) fn totals_told() -> [Total; 15]
    ensures { result ≡ totals_told }
{
    let total = |measure, group| Total { measure, group };
    [
        total(Measure::Tasks, Group::Begun),
        total(Measure::Tasks, Group::Committed),
        total(Measure::Tasks, Group::Violation),
        total(Measure::Tasks, Group::Guess),
        total(Measure::Tasks, Group::Cancel),
        total(Measure::Tasks, Group::Active),
        total(Measure::Turns, Group::Committed),
        total(Measure::Turns, Group::Squashed),
        total(Measure::Turns, Group::Active),
        total(Measure::Loads, Group::Committed),
        total(Measure::Loads, Group::Squashed),
        total(Measure::Loads, Group::Active),
        total(Measure::Stores, Group::Committed),
        total(Measure::Stores, Group::Squashed),
        total(Measure::Stores, Group::Active),
    ]
}

/// How many reads this supplier served.
pub(crate) fn served_count(counts: &Counts, served: ServedKind) -> u64
    ensures { result ≡ served_count counts.now served }
{
    match served {
        ServedKind::Hit => counts.hit,
        ServedKind::Reuse => counts.reuse,
        ServedKind::Version => counts.version,
        ServedKind::Spill => counts.spill,
        ServedKind::Committed => counts.committed,
        ServedKind::Memory => counts.memory,
    }
}

/// The suppliers that are reported.
pub(crate) const SUPPLIERS: [ServedKind; 6] = [
    ServedKind::Hit,
    ServedKind::Reuse,
    ServedKind::Version,
    ServedKind::Spill,
    ServedKind::Committed,
    ServedKind::Memory,
];

// Adds a row of a name and a number.
fn put_count(text: &mut Vec<u8>, name: &str, number: u64) -> Result<(), AllocError>
    ensures { OnOk result (text.new.items ≡ text.old.items ++ count_row name.now number) }
{
    put!(text; name, ",", number, "\n");
    Ok(())
}

// Adds the row of a total over these tasks.
fn put_total(text: &mut Vec<u8>, total: Total, runs: &[TaskRun]) -> Result<(), AllocError>
    requires few { length runs.now ≤ MAX_EVENTS }
    requires light { AllByRecursion (IsLight MAX_EVENTS) runs.now }
    ensures { OnOk result (text.new.items ≡ text.old.items ++ total_row runs.now total) }
{
    put!(text; total.measure.word(), "-", total.group.word());
    put_count(text, "", total.over(runs))
}

// Adds a row for each of the totals.
fn put_totals(text: &mut Vec<u8>, totals: &[Total], runs: &[TaskRun]) -> Result<(), AllocError>
    requires few { length runs.now ≤ MAX_EVENTS }
    requires light { AllByRecursion (IsLight MAX_EVENTS) runs.now }
    ensures { OnOk result (text.new.items ≡ text.old.items ++ flat_map (total_row runs.now) totals.now) }
{
    for total in totals {
        put_total(text, *total, runs)?;
    }
    Ok(())
}

// Adds the row of a supplier.
fn put_supplier(text: &mut Vec<u8>, served: ServedKind, counts: &Counts) -> Result<(), AllocError>
    ensures { OnOk result (text.new.items ≡ text.old.items ++ served_row counts.now served) }
{
    put!(text; "served-", served.text());
    put_count(text, "", served_count(counts, served))
}

// Adds a row for each of the suppliers.
fn put_served(
    text: &mut Vec<u8>,
    suppliers: &[ServedKind],
    counts: &Counts,
) -> Result<(), AllocError>
    ensures { OnOk result (text.new.items ≡ text.old.items ++ flat_map (served_row counts.now) suppliers.now) }
{
    for served in suppliers {
        put_supplier(text, *served, counts)?;
    }
    Ok(())
}

// Adds the rows of a history's profile, given its tasks.
fn put_profile(text: &mut Vec<u8>, entries: &[Entry], runs: &[TaskRun]) -> Result<(), AllocError>
    requires tasks { runs.now ≡ tasks_of entries.now }
    requires few { length runs.now ≤ MAX_EVENTS }
    requires light { AllByRecursion (IsLight MAX_EVENTS) runs.now }
    ensures { OnOk result (text.new.items ≡ text.old.items ++ profile_of entries.now) }
{
    let counts = Counts::of(entries);
    put_count(text, "events", entries.len() as u64)?;
    put_totals(text, &totals_told(), runs)?;
    put_served(text, &SUPPLIERS, &counts)?;
    put_count(text, "replaced", counts.replace)
}

/// Writes what a history's speculation cost: rows of a name and a count.
///
/// Errors: [`ReportError::Memory`], [`ReportError::Write`].
pub fn write_profile<W: Write>(
    alloc: Global,
    entries: &[Entry],
    w: &mut W,
) -> Result<(), ReportError>
    requires few { length entries.now ≤ MAX_EVENTS }
    ensures ok { OnOk result (Appends (W.contents w.old) (W.contents w.new) (profile_of entries.now)) }
    ensures err { IfErr result IsWriteFault }
{
    let runs = tasks_of(alloc, entries)?;
    let mut text = Vec::new(alloc);
    put_profile(&mut text, entries, &runs)?;
    write_text(&text, w)?;
    Ok(())
}
