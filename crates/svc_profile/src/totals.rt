// Totals over tasks.

ghost use Rattle.std.specs.Prelude.{◌≡◌, ◌≤◌, length};
ghost use Rattle.std.specs.List.{AllByRecursion};
ghost use Rattle.svc_base.specs.declared.config.TheConstants.{MAX_EVENTS};
ghost use Rattle.svc_task_runs.specs.Bounds.{IsLight};
ghost use Rattle.svc_profile.specs.Profile.{group_word, is_of, measure_word, measured, part_of, total};

use svc_task_runs::{Fate, TaskRun};

/// Which tasks.
#[derive(Clone, Copy)]
pub enum Group {
    /// All that were begun.
    Begun,
    /// Those that were committed.
    Committed,
    /// Those that a violation squashed.
    Violation,
    /// Those that a wrong guess squashed.
    Guess,
    /// Those that a cancel squashed.
    Cancel,
    /// Those that were squashed, whatever the cause.
    Squashed,
    /// Those that are still active.
    Active,
}

/// What is counted of them.
#[derive(Clone, Copy)]
pub enum Measure {
    /// The tasks themselves.
    Tasks,
    /// Their turns.
    Turns,
    /// Their loads.
    Loads,
    /// Their stores.
    Stores,
}

/// A total: a measure of the tasks of a group.
#[derive(Clone, Copy)]
pub struct Total {
    /// What is counted.
    pub measure: Measure,
    /// Of which tasks.
    pub group: Group,
}

impl Group {
    /// Whether a task with this fate is one of the group.
    pub fn has(self, fate: Fate) -> bool
        ensures { result ≡ is_of self fate }
    {
        match (self, fate) {
            (Group::Begun, _) => true,
            (Group::Committed, Fate::Committed) => true,
            (Group::Violation, Fate::Violation) => true,
            (Group::Guess, Fate::Guess) => true,
            (Group::Cancel, Fate::Cancel) => true,
            (Group::Squashed, Fate::Violation | Fate::Guess | Fate::Cancel) => true,
            (Group::Active, Fate::Active) => true,
            _ => false,
        }
    }

    /// The word for a group.
    pub fn word(self) -> &'static str
        ensures { result.now ≡ group_word self }
    {
        match self {
            Group::Begun => "begun",
            Group::Committed => "committed",
            Group::Violation => "violation",
            Group::Guess => "guess",
            Group::Cancel => "cancel",
            Group::Squashed => "squashed",
            Group::Active => "active",
        }
    }
}

impl Measure {
    /// How much of the measure a task has.
    pub fn of(self, run: &TaskRun) -> u64
        ensures { result ≡ measured self run.now }
    {
        match self {
            Measure::Tasks => 1,
            Measure::Turns => run.turns,
            Measure::Loads => run.loads,
            Measure::Stores => run.stores,
        }
    }

    /// The word for a measure.
    pub fn word(self) -> &'static str
        ensures { result.now ≡ measure_word self }
    {
        match self {
            Measure::Tasks => "tasks",
            Measure::Turns => "turns",
            Measure::Loads => "loads",
            Measure::Stores => "stores",
        }
    }
}

impl Total {
    // What a task adds to the total.
    fn part(self, run: &TaskRun) -> u64
        ensures { result ≡ part_of self run.now }
    {
        if self.group.has(run.fate) {
            self.measure.of(run)
        } else {
            0
        }
    }

    /// How much the tasks of the group add up to.
    pub fn over(self, runs: &[TaskRun]) -> u64
        requires few { length runs.now ≤ MAX_EVENTS }
        requires light { AllByRecursion (IsLight MAX_EVENTS) runs.now }
        ensures { result ≡ total runs.now self }
    {
        let mut sum = 0;
        for run in runs {
            sum += self.part(run);
        }
        sum
    }
}
