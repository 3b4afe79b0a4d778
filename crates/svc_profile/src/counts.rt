// What is counted of a word.

ghost use Rattle.std.specs.Prelude.{◌≡◌, ◌+◌, ◌<◌, ◌^◌};
ghost use Rattle.svc_history_laws.specs.declared.entry.CutKind.TheVariants as cause;
ghost use Rattle.svc_history_laws.specs.declared.entry.ServedKind.TheVariants as served;
ghost use Rattle.svc_report.specs.Summary.{is_cause, is_supplier};
ghost use Rattle.svc_profile.specs.Counts.{amount, entry_counts, no_counts, task_counts};
ghost use Rattle.svc_profile.specs.Column.{Column};

use svc_history_laws::{CutKind, Entry, ServedKind};
use svc_task_runs::{TaskRun, loads_in, stores_in};

/// What is counted of a word.
#[derive(Clone, Copy)]
pub(crate) struct Counts {
    /// Entries that name it.
    pub(crate) named: u64,
    /// Loads of it.
    pub(crate) loads: u64,
    /// Stores to it.
    pub(crate) stores: u64,
    /// Reads of it that another task's version served.
    pub(crate) versions: u64,
    /// Stores to it that found it read too early.
    pub(crate) violations: u64,
    /// Tasks that these squashed.
    pub(crate) squashed: u64,
    /// The turns of these tasks.
    pub(crate) turns: u64,
}

/// The read was served by an earlier task's version.
pub(crate) fn is_version(by: Option<ServedKind>) -> bool
    ensures { result ≡ is_supplier served.Version by }
{
    match by {
        Some(ServedKind::Version) => true,
        _ => false,
    }
}

/// The entry squashed tasks because they had read a word too early.
pub(crate) fn is_violation(why: Option<CutKind>) -> bool
    ensures { result ≡ is_cause cause.Violation why }
{
    match why {
        Some(CutKind::Violation) => true,
        _ => false,
    }
}

impl Counts {
    /// Nothing is counted yet.
    pub(crate) fn none() -> Counts
        ensures { result ≡ no_counts }
    {
        Counts {
            named: 0,
            loads: 0,
            stores: 0,
            versions: 0,
            violations: 0,
            squashed: 0,
            turns: 0,
        }
    }

    /// What an entry counts for the word that it names.
    pub(crate) fn of_entry(entry: &Entry) -> Counts
        ensures { result ≡ entry_counts entry.now }
    {
        Counts {
            named: 1,
            loads: u64::from(loads_in(entry)),
            stores: u64::from(stores_in(entry)),
            versions: u64::from(is_version(entry.served)),
            violations: u64::from(is_violation(entry.cause)),
            squashed: 0,
            turns: 0,
        }
    }

    /// What a task counts for the word for which it was squashed.
    pub(crate) fn of_task(run: &TaskRun) -> Counts
        ensures { result ≡ task_counts run.now }
    {
        Counts {
            squashed: 1,
            turns: run.turns,
            ..Counts::none()
        }
    }

    /// The sum of both.
    pub(crate) fn plus(self, more: Counts) -> Counts
        requires few { (c : Column) → amount c self + amount c more < 2 ^ 64 }
        ensures { (c : Column) → amount c result ≡ amount c self + amount c more }
    {
        Counts {
            named: self.named + more.named,
            loads: self.loads + more.loads,
            stores: self.stores + more.stores,
            versions: self.versions + more.versions,
            violations: self.violations + more.violations,
            squashed: self.squashed + more.squashed,
            turns: self.turns + more.turns,
        }
    }
}
