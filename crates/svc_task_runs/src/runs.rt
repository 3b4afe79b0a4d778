// The tasks of a history.

ghost use Rattle.std.specs.Prelude.{◌≡◌, ◌+◌, ◌<◌, ◌≤◌, ◌++◌, OnOk, IfOk, map, length};
ghost use Rattle.std.specs.List.{AllByRecursion, filter, list_any};
ghost use Rattle.std.specs.Option.{option_to_list};
ghost use Rattle.svc_base.specs.declared.config.TheConstants.{MAX_EVENTS};
ghost use Rattle.svc_history_laws.specs.Board.{commits};
ghost use Rattle.svc_task_runs.specs.Bounds.{AreFew, IsLight};
ghost use Rattle.svc_task_runs.specs.Runs.{after, begun, goes_on, is_settled, no_runs, runs_of, step, tasks_of};
ghost use Rattle.svc_task_runs.specs.Seen.{seen};

use crate::task_run::{Fate, TaskRun, turns_in};
use std::alloc::{AllocError, Global};
use svc_history_laws::{Entry, Kind};

/// The tasks of a history so far, entry by entry.
#[derive(Drop)]
pub struct TaskRuns {
    /// How many were committed.
    pub commits: u64,
    /// Those whose fate is decided, in the order of the decisions.
    pub settled: Vec<TaskRun>,
    /// The active ones, oldest first.
    pub active: Vec<TaskRun>,
}

// Adds a task to a list, if there is one.
fn push_some(run: Option<TaskRun>, list: &mut Vec<TaskRun>) -> Result<(), AllocError>
    ensures { OnOk result (list.new.items ≡ list.old.items ++ option_to_list run) }
{
    if let Some(run) = run {
        list.push(run)?;
    }
    Ok(())
}

// One for a commit.
fn commits_in(kind: Kind) -> u64
    ensures value { result ≡ commits kind }
    ensures few { result ≤ 1 }
{
    match kind {
        Kind::Commit => 1,
        Kind::Assign | Kind::Submit | Kind::Replace | Kind::Cancel => 0,
    }
}

// Gives each of the active tasks the entry at this index. It says whether that decides the fate of any.
fn go_on(active: &mut [TaskRun], at: u64, entry: &Entry) -> bool
    requires few { at < MAX_EVENTS }
    requires light { AllByRecursion (IsLight at) active.old }
    ensures tasks { active.new ≡ map (after at entry.now) active.old }
    ensures settled { result ≡ list_any is_settled active.new }
{
    let mut settled = false;
    for run in active.iter_mut() {
        run.go_on(at, entry);
        settled |= !run.fate.is_active();
    }
    settled
}

// Moves the tasks whose fate is decided from the active ones to the others.
fn settle(active: &mut Vec<TaskRun>, settled: &mut Vec<TaskRun>) -> Result<(), AllocError>
    ensures active { OnOk result (active.new.items ≡ filter goes_on active.old.items) }
    ensures settled { OnOk result (settled.new.items ≡ settled.old.items ++ filter is_settled active.old.items) }
{
    let mut going = 0;
    for _index in 0..active.len() {
        if active[going].fate.is_active() {
            going += 1;
        } else {
            settled.push(active.remove(going))?;
        }
    }
    Ok(())
}

impl TaskRuns {
    /// No tasks, before any entry.
    pub fn none(alloc: Global) -> TaskRuns
        ensures { seen result ≡ no_runs }
    {
        TaskRuns {
            commits: 0,
            settled: Vec::new(alloc),
            active: Vec::new(alloc),
        }
    }

    // The task that the entry begins, if it is an assignment.
    fn begun(&self, at: u64, entry: &Entry) -> Option<TaskRun>
        requires few { AreFew at (seen self.now) }
        requires inside { at < MAX_EVENTS }
        ensures { option_to_list result ≡ begun entry.now.kind at entry.now (seen self.now) }
    {
        let number = self.commits + self.active.len() as u64;
        match entry.kind {
            Kind::Assign => Some(TaskRun {
                number,
                unit: entry.unit,
                entry: entry.word.unwrap_or(0),
                first: at,
                last: None,
                turns: 0,
                loads: 0,
                stores: 0,
                fate: Fate::Active,
            }),
            Kind::Submit | Kind::Replace | Kind::Cancel | Kind::Commit => None,
        }
    }

    // The entry at an index.
    #[tactic(auto, unfolding(crate::specs::Runs::step))]
    fn step(&mut self, at: u64, entry: &Entry) -> Result<(), AllocError>
        requires few { AreFew at (seen self.old) }
        requires inside { at < MAX_EVENTS }
        ensures { OnOk result (seen self.new ≡ step at entry.now (seen self.old)) }
    {
        let begun = self.begun(at, entry);
        if go_on(&mut self.active, at, entry) {
            settle(&mut self.active, &mut self.settled)?;
        }
        push_some(begun, &mut self.active)?;
        self.commits += commits_in(entry.kind);
        Ok(())
    }

    /// Takes in the entry at an index.
    ///
    /// Errors: [`AllocError`], if memory runs out.
    pub fn take_in(&mut self, at: u64, entry: &Entry) -> Result<(), AllocError>
        requires few { AreFew at (seen self.old) }
        requires inside { at < MAX_EVENTS }
        ensures tasks { OnOk result (seen self.new ≡ step at entry.now (seen self.old)) }
        ensures few { OnOk result (AreFew (at + 1) (seen self.new)) }
    {
        // what the entry's type guarantees: it took over few turns
        let _turns = turns_in(entry);
        self.step(at, entry)?;
        Ok(())
    }

    // The tasks of a history.
    fn of(alloc: Global, entries: &[Entry]) -> Result<TaskRuns, AllocError>
        requires few { length entries.now ≤ MAX_EVENTS }
        ensures runs { IfOk result (λ runs. seen runs ≡ runs_of entries.now) }
        ensures few { IfOk result (λ runs. AreFew (length entries.now) (seen runs)) }
    {
        let mut runs = TaskRuns::none(alloc);
        for index in 0..entries.len() {
            let entry = &entries[index];
            // what the entry's type guarantees: it took over few turns
            let _turns = turns_in(entry);
            runs.step(index as u64, entry)?;
        }
        Ok(runs)
    }

    // The tasks in one list.
    fn into_tasks(self) -> Result<Vec<TaskRun>, AllocError>
        ensures { IfOk result (λ runs. runs.items ≡ self.settled.items ++ self.active.items) }
    {
        let TaskRuns {
            commits: _,
            settled: mut tasks,
            active,
        } = self;
        tasks.extend_from_slice(&active)?;
        Ok(tasks)
    }
}

/// The tasks of a history: those whose fate is decided, in the order of the decisions, and then the active ones, oldest
/// first.
///
/// Errors: [`AllocError`], if memory runs out.
pub fn tasks_of(alloc: Global, entries: &[Entry]) -> Result<Vec<TaskRun>, AllocError>
    requires few { length entries.now ≤ MAX_EVENTS }
    ensures tasks { IfOk result (λ tasks. tasks.items ≡ tasks_of entries.now) }
    ensures few { IfOk result (λ tasks. length tasks.items ≤ MAX_EVENTS) }
    ensures light { IfOk result (λ tasks. AllByRecursion (IsLight MAX_EVENTS) tasks.items) }
{
    let runs = TaskRuns::of(alloc, entries)?;
    let tasks = runs.into_tasks()?;
    Ok(tasks)
}
