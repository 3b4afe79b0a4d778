// What flows from an entry to another.

ghost use Rattle.std.specs.Prelude.{◌≡◌};
ghost use Rattle.svc_export.specs.Events.{way_digit, way_name};

use svc_base::{UnitId, WordAddr};

/// Why something flows.
#[derive(Clone, Copy)]
pub enum Way {
    /// A version goes from its store to a reader.
    Version,
    /// A store squashes a task that had read its word too early.
    Violation,
}

/// A flow from a store to a reader.
#[derive(Clone, Copy)]
pub struct Flow {
    /// Why.
    pub way: Way,
    /// The entry that shows it: the read of a version, or the store that squashes.
    pub number: u64,
    /// The entry that stored.
    pub store: u64,
    /// Its unit.
    pub storer: UnitId,
    /// The unit that reads, or that is squashed.
    pub reader: UnitId,
    /// The entry that read, if it is known.
    pub read: Option<u64>,
    /// The word.
    pub word: Option<WordAddr>,
}

impl Way {
    /// What it is called.
    pub(crate) fn name(self) -> &'static str
        ensures { result.now ≡ way_name self }
    {
        match self {
            Way::Version => "version",
            Way::Violation => "violation",
        }
    }

    /// The digit that the numbers of its flows begin with.
    pub(crate) fn digit(self) -> &'static str
        ensures { result.now ≡ way_digit self }
    {
        match self {
            Way::Version => "1",
            Way::Violation => "2",
        }
    }
}
