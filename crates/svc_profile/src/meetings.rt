// Where two tasks of a history meet over a word.

ghost use Rattle.std.specs.Prelude.{◌≡◌, ◌+◌, ◌<◌, ◌≤◌, ◌++◌, ◌∷◌, [], OnOk, IfOk, cond, drop, length, position};
ghost use Rattle.svc_base.specs.declared.config.TheConstants.{MAX_EVENTS};
ghost use Rattle.svc_history_laws.specs.declared.entry.CutKind.TheVariants as cause;
ghost use Rattle.svc_history_laws.specs.declared.entry.ServedKind.TheVariants as served;
ghost use Rattle.svc_report.specs.Summary.{is_cause, is_supplier};
ghost use Rattle.std.specs.List.{AllByRecursion};
ghost use Rattle.svc_task_runs.specs.Bounds.{AreFew, IsLight};
ghost use Rattle.svc_task_runs.specs.Runs.{runs_of, step};
ghost use Rattle.svc_task_runs.specs.Seen.{seen};
ghost use Rattle.svc_profile.specs.Meetings.{between, is_meeting, meeting_at, meetings_of, number_at, number_from};
ghost use Rattle.svc_profile.specs.Meetings.{number_on, turns_lost, word_of};
ghost use Rattle.svc_profile.specs.Units.{is_on};

use crate::counts::{is_version, is_violation};
use crate::totals::{Group, Measure, Total};
use std::alloc::{AllocError, Global};
use svc_base::{UnitId, WordAddr};
use svc_history_laws::Entry;
use svc_task_runs::{TaskRun, TaskRuns};

/// What makes two tasks meet.
#[derive(Clone, Copy)]
pub(crate) enum Meets {
    /// A store of the earlier one squashed the later one, which had read the word too early.
    Squash,
    /// A version of the earlier one served a read of the later one.
    Supply,
}

/// Two tasks that met over a word.
#[derive(Clone, Copy)]
pub(crate) struct Meeting {
    /// The numbers of the earlier one and of the later one, and the word.
    pub(crate) between: ((u64, u64), u32),
    /// The turns of the tasks that this squashed.
    pub(crate) turns: u64,
}

// The place of the task that a unit runs.
fn place_on(runs: &[TaskRun], unit: UnitId) -> Option<usize>
    ensures { result ≡ position (λ run. is_on unit.0 run) runs.now }
{
    runs.iter().position(|run| run.unit.0 == unit.0)
}

// The number of the task at a place.
fn number_at(runs: &[TaskRun], place: Option<usize>) -> u64
    ensures { result ≡ number_at runs.now place }
{
    let Some(place) = place else {
        return 0;
    };
    match runs.get(place) {
        Some(run) => run.number,
        None => 0,
    }
}

// The number of the task that a unit runs.
fn number_on(runs: &[TaskRun], unit: UnitId) -> u64
    ensures { result ≡ number_on runs.now unit.0 }
{
    number_at(runs, place_on(runs, unit))
}

// The same for the unit of a version that was read.
fn number_from(runs: &[TaskRun], unit: Option<UnitId>) -> u64
    ensures { result ≡ number_from runs.now unit }
{
    match unit {
        Some(unit) => number_on(runs, unit),
        None => 0,
    }
}

// The number of a word.
fn word_of(word: Option<WordAddr>) -> u32
    ensures { result ≡ word_of word }
{
    match word {
        Some(word) => word.0,
        None => 0,
    }
}

// The entry is a meeting of this kind.
fn is_meeting(meets: Meets, entry: &Entry) -> bool
    ensures { result ≡ is_meeting meets entry.now }
{
    match meets {
        Meets::Squash => is_violation(entry.cause),
        Meets::Supply => is_version(entry.served),
    }
}

// The earlier task, the later one, and the word.
fn between(meets: Meets, entry: &Entry, active: &[TaskRun]) -> ((u64, u64), u32)
    ensures { result ≡ between meets entry.now active.now }
{
    let word = word_of(entry.addr);
    let here = number_on(active, entry.unit);
    match meets {
        Meets::Squash => ((here, u64::from(entry.first.unwrap_or(0))), word),
        Meets::Supply => ((number_from(active, entry.from), here), word),
    }
}

// The turns of those that a violation squashed.
fn turns_lost(runs: &[TaskRun]) -> u64
    requires few { length runs.now ≤ MAX_EVENTS }
    requires light { AllByRecursion (IsLight MAX_EVENTS) runs.now }
    ensures { result ≡ turns_lost runs.now }
{
    Total {
        measure: Measure::Turns,
        group: Group::Violation,
    }
    .over(runs)
}

// The same for those from a place on.
fn lost_from(runs: &[TaskRun], start: usize) -> u64
    requires within { start ≤ length runs.now }
    requires few { length runs.now ≤ MAX_EVENTS }
    requires light { AllByRecursion (IsLight MAX_EVENTS) (drop start runs.now) }
    ensures { result ≡ turns_lost (drop start runs.now) }
{
    turns_lost(&runs[start..])
}

// Adds a meeting if the condition holds.
fn push_where(holds: bool, meeting: Meeting, meetings: &mut Vec<Meeting>) -> Result<(), AllocError>
    ensures { OnOk result (meetings.new.items ≡ meetings.old.items ++ cond holds (meeting ∷ []) []) }
{
    if holds {
        meetings.push(meeting)?;
    }
    Ok(())
}

// Takes in the entry at an index, with its meeting.
fn meet(
    meets: Meets,
    at: u64,
    entry: &Entry,
    runs: &mut TaskRuns,
    meetings: &mut Vec<Meeting>,
) -> Result<(), AllocError>
    requires few { AreFew at (seen runs.old) }
    requires inside { at < MAX_EVENTS }
    ensures tasks { OnOk result (seen runs.new ≡ step at entry.now (seen runs.old)) }
    ensures few { OnOk result (AreFew (at + 1) (seen runs.new)) }
    ensures met { OnOk result (meetings.new.items ≡ meetings.old.items
        ++ meeting_at meets at entry.now runs.old.active.items) }
{
    let between = between(meets, entry, &runs.active);
    let settled = runs.settled.len();
    runs.take_in(at, entry)?;
    let turns = lost_from(&runs.settled, settled);
    push_where(
        is_meeting(meets, entry),
        Meeting { between, turns },
        meetings,
    )
}

/// Where the tasks of a history meet.
pub(crate) fn meetings_of(
    alloc: Global,
    meets: Meets,
    entries: &[Entry],
) -> Result<Vec<Meeting>, AllocError>
    requires few { length entries.now ≤ MAX_EVENTS }
    ensures met { IfOk result (λ meetings. meetings.items ≡ meetings_of meets entries.now) }
    ensures few { OnOk result (AreFew (length entries.now) (runs_of entries.now)) }
{
    let mut runs = TaskRuns::none(alloc);
    let mut meetings = Vec::new(alloc);
    for index in 0..entries.len() {
        meet(
            meets,
            index as u64,
            &entries[index],
            &mut runs,
            &mut meetings,
        )?;
    }
    Ok(meetings)
}
