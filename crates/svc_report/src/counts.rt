// How many entries of a history have each kind, supplier and cause.

ghost use Rattle.std.specs.Prelude.{◌≡◌, [], Some};
ghost use Rattle.svc_report.specs.Counting.{with_kind, with_supplier, with_cause, with_entry, HaveRoomForKind};
ghost use Rattle.svc_report.specs.Counting.{HaveRoomForSupplier, HaveRoomForCause};
ghost use Rattle.svc_report.specs.Summary.{count_numbers, counts_of};

use svc_history_laws::{CutKind, Entry, Kind, ServedKind};

/// How many entries of a history have each kind, each supplier and each cause of a cut.
#[derive(Clone, Copy)]
pub struct Counts {
    /// Tasks that were begun.
    pub assign: u64,
    /// Bursts that were submitted.
    pub submit: u64,
    /// Lines that were replaced.
    pub replace: u64,
    /// Tasks that were cancelled.
    pub cancel: u64,
    /// Tasks that were committed.
    pub commit: u64,
    /// Reads from the unit's own uncommitted line.
    pub hit: u64,
    /// Reads from the unit's own committed line.
    pub reuse: u64,
    /// Reads of an earlier task's version.
    pub version: u64,
    /// Reads of a version of the head that a replacement took out of its cache.
    pub spill: u64,
    /// Reads of the newest committed version.
    pub committed: u64,
    /// Reads from the backing memory.
    pub memory: u64,
    /// Stores to a word that a later task had read too early.
    pub violation: u64,
    /// Submits that ended their task, and commits, that squashed tasks begun at a wrong guess or
    /// after the run's end.
    pub guess: u64,
    /// Cuts by cancels.
    pub cancelled: u64,
}

/// The names of the counts, in the order in which they are printed.
pub const COUNT_NAMES: [&str; 14] = [
    "kind-assign",
    "kind-submit",
    "kind-replace",
    "kind-cancel",
    "kind-commit",
    "served-hit",
    "served-reuse",
    "served-version",
    "served-spill",
    "served-committed",
    "served-memory",
    "cut-violation",
    "cut-guess",
    "cut-cancel",
];

impl Counts {
    /// The counts of a history.
    pub fn of(entries: &[Entry]) -> Counts
        ensures { result ≡ counts_of entries.now }
    {
        let mut counts = Counts::none();
        for entry in entries {
            counts.add(entry);
        }
        counts
    }

    /// The counts in the order in which they are printed.
    pub(crate) fn numbers(&self) -> [u64; 14]
        ensures { result ≡ count_numbers self.now }
    {
        [
            self.assign,
            self.submit,
            self.replace,
            self.cancel,
            self.commit,
            self.hit,
            self.reuse,
            self.version,
            self.spill,
            self.committed,
            self.memory,
            self.violation,
            self.guess,
            self.cancelled,
        ]
    }

    // The counts of no entries.
    fn none() -> Counts
        ensures { result ≡ counts_of [] }
    {
        Counts {
            assign: 0,
            submit: 0,
            replace: 0,
            cancel: 0,
            commit: 0,
            hit: 0,
            reuse: 0,
            version: 0,
            spill: 0,
            committed: 0,
            memory: 0,
            violation: 0,
            guess: 0,
            cancelled: 0,
        }
    }

    // One more entry.
    fn add(&mut self, entry: &Entry)
        requires kinds { HaveRoomForKind self.old }
        requires suppliers { HaveRoomForSupplier self.old }
        requires causes { HaveRoomForCause self.old }
        ensures { self.new ≡ with_entry self.old entry.now }
    {
        self.add_kind(entry.kind);
        if let Some(served) = entry.served {
            self.add_supplier(served);
        }
        if let Some(cause) = entry.cause {
            self.add_cause(cause);
        }
    }

    // One more entry of a kind.
    fn add_kind(&mut self, kind: Kind)
        requires { HaveRoomForKind self.old }
        ensures { self.new ≡ with_kind self.old kind }
    {
        match kind {
            Kind::Assign => self.assign += 1,
            Kind::Submit => self.submit += 1,
            Kind::Replace => self.replace += 1,
            Kind::Cancel => self.cancel += 1,
            Kind::Commit => self.commit += 1,
        }
    }

    // One more entry whose read has this supplier.
    fn add_supplier(&mut self, served: ServedKind)
        requires { HaveRoomForSupplier self.old }
        ensures { self.new ≡ with_supplier self.old (Some served) }
    {
        match served {
            ServedKind::Hit => self.hit += 1,
            ServedKind::Reuse => self.reuse += 1,
            ServedKind::Version => self.version += 1,
            ServedKind::Spill => self.spill += 1,
            ServedKind::Committed => self.committed += 1,
            ServedKind::Memory => self.memory += 1,
        }
    }

    // One more entry whose cut has this cause.
    fn add_cause(&mut self, cause: CutKind)
        requires { HaveRoomForCause self.old }
        ensures { self.new ≡ with_cause self.old (Some cause) }
    {
        match cause {
            CutKind::Violation => self.violation += 1,
            CutKind::Guess => self.guess += 1,
            CutKind::Cancel => self.cancelled += 1,
        }
    }
}
