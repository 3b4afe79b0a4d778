// The spilled words, and the memory of the words that are held.

ghost use Rattle.std.specs.Prelude.{◌++◌, ◌≡◌, ◌<◌, OnOk, flat_map};
ghost use Rattle.std.specs.List.{AllByRecursion};
ghost use Rattle.svc_core_laws.specs.Turns.{data_words};
ghost use Rattle.svc_bus.specs.State.{bus_state};
ghost use Rattle.svc_report.specs.Fields.{optional};
ghost use Rattle.svc_held.specs.Held.{HasItsLines};
ghost use Rattle.svc_show.specs.Named.{named_memory, named_spill};
ghost use Rattle.svc_show.specs.Rows.{memory_row, spill_row};

use crate::cached::{Cached, committed_of};
use std::alloc::AllocError;
use svc_base::WordAddr;
use svc_held::{Named, backing_of, has_spill, spill_of};
use svc_machine::Machine;
use svc_span::{Span, is_asked};
use svc_text::put_row;

// Writes the row of a spilled word.
fn write_spill(word: WordAddr, value: u32, rows: &mut Vec<u8>) -> Result<(), AllocError>
    ensures { OnOk result (rows.new.items ≡ rows.old.items ++ spill_row word.0 value) }
{
    put_row(rows, "spill", &[u64::from(word.0), u64::from(value)])
}

// Writes the row of the word, if it is spilled.
fn write_spill_of(machine: &Machine, word: WordAddr, rows: &mut Vec<u8>) -> Result<(), AllocError>
    requires in_data { word.0 < data_words machine.now.image }
    ensures { OnOk result
        (rows.new.items ≡ rows.old.items ++ optional (spill_row word.0) ((bus_state machine.now.bus).spill word.0)) }
{
    match spill_of(machine, word) {
        Some(value) => write_spill(word, value, rows),
        None => Ok(()),
    }
}

/// Writes a row for each of the named words that is spilled.
pub(crate) fn write_spills(
    machine: &Machine,
    named: &[Named],
    rows: &mut Vec<u8>,
) -> Result<(), AllocError>
    requires in_data { AllByRecursion (λ n. n.word.0 < data_words machine.now.image) named.now }
    ensures { OnOk result
        (rows.new.items ≡ rows.old.items ++ flat_map (named_spill (bus_state machine.now.bus)) named.now) }
{
    for one in named {
        write_spill_of(machine, one.word, rows)?;
    }
    Ok(())
}

// Writes the row of a word's committed and backing values.
fn write_memory(
    word: WordAddr,
    committed: u32,
    backing: u32,
    rows: &mut Vec<u8>,
) -> Result<(), AllocError>
    ensures { OnOk result
        (rows.new.items ≡ rows.old.items ++ memory_row word.0 committed backing) }
{
    let numbers = [u64::from(word.0), u64::from(committed), u64::from(backing)];
    put_row(rows, "memory", &numbers)
}

// Writes the row of the named word, if it has a valid line, is spilled or is asked for.
fn write_word(
    machine: &Machine,
    asked: Option<Span>,
    named: Named,
    rows: &mut Vec<u8>,
) -> Result<(), AllocError>
    requires own { HasItsLines (bus_state machine.now.bus) (data_words machine.now.image) named }
    ensures { let m = machine.now in
        OnOk result (rows.new.items ≡ rows.old.items
        ++ named_memory m.image m.config m.plain (bus_state m.bus) asked named) }
{
    let word = named.word;
    let cached = Cached::of(machine, machine.config().units, named);
    if cached.line || has_spill(machine, word) || is_asked(asked, word.0) {
        let committed = committed_of(machine, named, cached.versions);
        write_memory(word, committed, backing_of(machine, word), rows)
    } else {
        Ok(())
    }
}

/// Writes a row for each of the named words that has a valid line, is spilled or is asked for.
pub(crate) fn write_words(
    machine: &Machine,
    asked: Option<Span>,
    named: &[Named],
    rows: &mut Vec<u8>,
) -> Result<(), AllocError>
    requires own { AllByRecursion (HasItsLines (bus_state machine.now.bus) (data_words machine.now.image)) named.now }
    ensures { let m = machine.now in
        OnOk result (rows.new.items ≡ rows.old.items
        ++ flat_map (named_memory m.image m.config m.plain (bus_state m.bus) asked) named.now) }
{
    for one in named {
        write_word(machine, asked, *one, rows)?;
    }
    Ok(())
}
