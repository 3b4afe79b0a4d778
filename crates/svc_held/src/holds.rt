// What a machine's bus holds, stated for the one value that the machine has.

ghost use Rattle.std.specs.Prelude.{◌≡◌, ◌<◌, is_some, option_map};
ghost use Rattle.svc_core_laws.specs.Turns.{data_words};
ghost use Rattle.svc_bus.specs.Calls.{line_shown};
ghost use Rattle.svc_bus.specs.State.{bus_state};
ghost use Rattle.svc_held.specs.Held.{is_named_line, line_named};

use crate::named::Named;
use svc_base::{UnitId, WordAddr};
use svc_line::LineBits;
use svc_machine::Machine;

/// The bits and the value of the unit's valid line of the word.
pub fn line_of(machine: &Machine, unit: UnitId, word: WordAddr) -> Option<(LineBits, u32)>
    ensures { option_map line_shown result ≡ (bus_state machine.now.bus).lines unit.0 word.0 }
{
    let _standing = machine.config();
    machine.line_at(unit, word)
}

/// The unit's valid line of a named word. Its cache is searched only if the unit may have named the word.
pub fn line_of_named(machine: &Machine, unit: UnitId, named: Named) -> Option<(LineBits, u32)>
    ensures { option_map line_shown result ≡ line_named (bus_state machine.now.bus) named unit.0 }
{
    if named.by.may_have(unit) {
        line_of(machine, unit, named.word)
    } else {
        None
    }
}

/// Whether the unit has a valid line of a named word.
pub fn holds_line(machine: &Machine, unit: UnitId, named: Named) -> bool
    ensures { result ≡ is_named_line (bus_state machine.now.bus) named unit.0 }
{
    line_of_named(machine, unit, named).is_some()
}

/// The head's version of the word whose line was replaced, if any.
pub fn spill_of(machine: &Machine, word: WordAddr) -> Option<u32>
    requires in_data { word.0 < data_words machine.now.image }
    ensures { result ≡ (bus_state machine.now.bus).spill word.0 }
{
    let _standing = machine.config();
    machine.spilled_version(word)
}

/// The word is spilled.
pub fn has_spill(machine: &Machine, word: WordAddr) -> bool
    requires in_data { word.0 < data_words machine.now.image }
    ensures { result ≡ is_some ((bus_state machine.now.bus).spill word.0) }
{
    match spill_of(machine, word) {
        Some(_) => true,
        None => false,
    }
}

/// The word in the backing memory itself.
pub fn backing_of(machine: &Machine, word: WordAddr) -> u32
    requires in_data { word.0 < data_words machine.now.image }
    ensures { result ≡ (bus_state machine.now.bus).backing word.0 }
{
    let _standing = machine.config();
    machine.backing(word)
}

/// How many words of data the machine has.
pub fn words_of(machine: &Machine) -> u32
    ensures { result ≡ data_words machine.now.image }
{
    machine.image().data_words().len() as u32
}
