// What caches have of a named word, and what the committed tasks have left of it.

ghost use Rattle.std.specs.Prelude.{◌≡◌, ◌≤◌, ◌||◌, is_some, option_map};
ghost use Rattle.std.specs.List.{list_any, range_with_len};
ghost use Rattle.svc_core_laws.specs.Bytes.{word_at};
ghost use Rattle.svc_core_laws.specs.Sequence.{plain_seq};
ghost use Rattle.svc_core_laws.specs.Turns.{data_words};
ghost use Rattle.svc_bus.specs.Calls.{line_shown};
ghost use Rattle.svc_bus.specs.State.{bus_state};
ghost use Rattle.svc_held.specs.declared.named.Namers.TheVariants as namers;
ghost use Rattle.svc_held.specs.Held.{HasItsLines, is_named_line};
ghost use Rattle.svc_show.specs.Named.{AreVersions, and_line, and_version, nothing};

use crate::bits::is_version;
use svc_base::UnitId;
use svc_held::{Named, Namers, backing_of, line_of_named};
use svc_line::LineBits;
use svc_machine::Machine;

/// The valid lines that have a committed task's version.
#[derive(Clone, Copy)]
pub(crate) enum Versions {
    /// None has.
    Absent,
    /// One alone, with this value.
    One(u32),
    /// More than one.
    Several,
}

impl Versions {
    // With one more version.
    fn and(self, value: u32) -> Versions
        ensures { result ≡ and_version self value }
    {
        match self {
            Versions::Absent => Versions::One(value),
            Versions::One(_) | Versions::Several => Versions::Several,
        }
    }
}

/// What caches have of a word.
#[derive(Clone, Copy)]
pub(crate) struct Cached {
    /// A valid line.
    pub(crate) line: bool,
    /// Committed tasks' versions.
    pub(crate) versions: Versions,
}

impl Cached {
    // With one more cache, which has this line or none.
    fn and(self, line: Option<(LineBits, u32)>) -> Cached
        ensures line { result.line ≡ (self.line || is_some (option_map line_shown line)) }
        ensures versions { result.versions ≡ and_line self.versions (option_map line_shown line) }
    {
        let Some((bits, value)) = line else {
            return self;
        };
        Cached {
            line: true,
            versions: if is_version(bits) {
                self.versions.and(value)
            } else {
                self.versions
            },
        }
    }

    // Nothing.
    fn nothing() -> Cached
        ensures { result ≡ nothing }
    {
        Cached {
            line: false,
            versions: Versions::Absent,
        }
    }

    /// What the caches of the units have of a named word. None is searched but those of units that name it.
    pub(crate) fn of(machine: &Machine, units: u32, named: Named) -> Cached
        requires few { units ≤ 16 }
        ensures line { result.line
            ≡ list_any (is_named_line (bus_state machine.now.bus) named) (range_with_len 0 units) }
        ensures versions { AreVersions (bus_state machine.now.bus) named units result.versions }
    {
        match named.by {
            Namers::Nobody => Cached::nothing(),
            Namers::One(unit) => Cached::of_one(machine, units, named, unit),
            Namers::Several => Cached::of_each(machine, units, named),
        }
    }

    // What they have of a word that this unit alone names.
    fn of_one(machine: &Machine, units: u32, named: Named, unit: UnitId) -> Cached
        requires alone { named.by ≡ namers.One unit }
        ensures line { result.line
            ≡ list_any (is_named_line (bus_state machine.now.bus) named) (range_with_len 0 units) }
        ensures versions { AreVersions (bus_state machine.now.bus) named units result.versions }
    {
        if u32::from(unit.0) < units {
            Cached::nothing().and(line_of_named(machine, unit, named))
        } else {
            Cached::nothing()
        }
    }

    // The same, cache by cache.
    fn of_each(machine: &Machine, units: u32, named: Named) -> Cached
        requires few { units ≤ 16 }
        ensures line { result.line
            ≡ list_any (is_named_line (bus_state machine.now.bus) named) (range_with_len 0 units) }
        ensures versions { AreVersions (bus_state machine.now.bus) named units result.versions }
    {
        let mut cached = Cached::nothing();
        for unit in 0..units {
            cached = cached.and(line_of_named(machine, UnitId(unit as u8), named));
        }
        cached
    }
}

/// The value that the committed tasks have left of a named word. The newest version is looked for only if several
/// caches have one.
pub(crate) fn committed_of(machine: &Machine, named: Named, versions: Versions) -> u32
    requires own { HasItsLines (bus_state machine.now.bus) (data_words machine.now.image) named }
    requires versions { AreVersions (bus_state machine.now.bus) named machine.now.config.units versions }
    ensures { let m = machine.now in result ≡ word_at (plain_seq m.image m.plain.commits).memory named.word.0 }
{
    // its image is sound, so what the committed tasks leave is its program's
    let _start = machine.image().start();
    let _standing = machine.config();
    match versions {
        Versions::Absent => backing_of(machine, named.word),
        Versions::One(value) => value,
        Versions::Several => machine.committed_memory(named.word),
    }
}
