// The text that shows a machine.

ghost use Rattle.std.specs.Prelude.{◌≡◌, ◌≤◌, ◌++◌, OnOk, IfOk, IfErr};
ghost use Rattle.svc_core_laws.specs.Turns.{data_words};
ghost use Rattle.svc_bus.specs.State.{bus_state};
ghost use Rattle.svc_machine.specs.Value.{StandsAt};
ghost use Rattle.svc_machine_laws.specs.Standing.{Standing};
ghost use Rattle.svc_report.specs.Faults.{IsMemoryFault};
ghost use Rattle.svc_held.specs.Held.{HasHeld, IsHeldBy};
ghost use Rattle.svc_show.specs.Show.{asked_moves, asked_order, line_rows, machine_rows, memory_rows, show_of};
ghost use Rattle.svc_show.specs.Show.{spill_rows, standing_rows};

use crate::extras::Extras;
use crate::lines::write_lines;
use crate::memory::{write_spills, write_words};
use crate::progress::write_progress;
use crate::tasks::write_tasks;
use crate::told::write_number;
use std::alloc::{AllocError, Global};
use svc_held::{Named, held_words};
use svc_history::Recorder;
use svc_machine::Machine;
use svc_moves::put_moves;
use svc_report::ReportError;
use svc_span::Span;
use svc_version_order::put_orders;

// Writes a row for each valid line.
fn write_all_lines(machine: &Machine, named: &[Named], rows: &mut Vec<u8>) -> Result<(), AllocError>
    requires held { HasHeld (bus_state machine.now.bus) (data_words machine.now.image) named.now }
    ensures { let m = machine.now in
        OnOk result (rows.new.items ≡ rows.old.items
        ++ line_rows m.config.units (data_words m.image) (bus_state m.bus)) }
{
    let units = machine.config().units;
    write_lines(machine, units, named, rows)
}

// Writes a row for each spilled word.
fn write_all_spills(
    machine: &Machine,
    named: &[Named],
    rows: &mut Vec<u8>,
) -> Result<(), AllocError>
    requires held { HasHeld (bus_state machine.now.bus) (data_words machine.now.image) named.now }
    ensures { let m = machine.now in
        OnOk result (rows.new.items ≡ rows.old.items ++ spill_rows (data_words m.image) (bus_state m.bus)) }
{
    write_spills(machine, named, rows)
}

// Writes a row for each word that has a valid line, if that is asked for.
fn write_order(
    machine: &Machine,
    detail: bool,
    named: &[Named],
    rows: &mut Vec<u8>,
) -> Result<(), AllocError>
    requires held { HasHeld (bus_state machine.now.bus) (data_words machine.now.image) named.now }
    ensures { let m = machine.now in
        OnOk result (rows.new.items ≡ rows.old.items ++ asked_order detail m.image m.config m.plain (bus_state m.bus)) }
{
    if detail {
        put_orders(machine, named, rows)
    } else {
        Ok(())
    }
}

// Writes a row for each word that has a valid line, is spilled or is asked for.
fn write_all_words(
    machine: &Machine,
    asked: Option<Span>,
    named: &[Named],
    rows: &mut Vec<u8>,
) -> Result<(), AllocError>
    requires held { IsHeldBy (bus_state machine.now.bus) (data_words machine.now.image) asked named.now }
    ensures { let m = machine.now in
        OnOk result (rows.new.items ≡ rows.old.items
        ++ memory_rows m.image m.config m.plain (bus_state m.bus) asked (data_words m.image)) }
{
    write_words(machine, asked, named, rows)
}

// Writes the rows of a machine.
fn write_machine(
    machine: &Machine,
    extras: Extras,
    named: &[Named],
    rows: &mut Vec<u8>,
) -> Result<(), AllocError>
    requires held { IsHeldBy (bus_state machine.now.bus) (data_words machine.now.image) extras.memory named.now }
    ensures { let m = machine.now in
        OnOk result (rows.new.items
        ≡ rows.old.items ++ machine_rows extras m.image m.config m.plain (bus_state m.bus)) }
{
    write_progress(machine, rows)?;
    write_tasks(machine, extras.detail, rows)?;
    write_all_lines(machine, named, rows)?;
    write_all_spills(machine, named, rows)?;
    write_order(machine, extras.detail, named, rows)?;
    write_all_words(machine, extras.memory, named, rows)
}

// Writes what may come next, if that is asked for.
fn write_moves(
    machine: &Machine,
    moves: bool,
    named: &[Named],
    rows: &mut Vec<u8>,
) -> Result<(), AllocError>
    requires held { HasHeld (bus_state machine.now.bus) (data_words machine.now.image) named.now }
    ensures { let m = machine.now in (s : Standing) → StandsAt m s
        → OnOk result (rows.new.items ≡ rows.old.items ++ asked_moves moves m.image m.config s) }
{
    if moves {
        put_moves(machine, named, rows)
    } else {
        Ok(())
    }
}

// Writes the rows of a machine, and what may come next.
fn write_standing(
    machine: &Machine,
    extras: Extras,
    named: &[Named],
    rows: &mut Vec<u8>,
) -> Result<(), AllocError>
    requires held { IsHeldBy (bus_state machine.now.bus) (data_words machine.now.image) extras.memory named.now }
    ensures { let m = machine.now in (s : Standing) → StandsAt m s
        → OnOk result (rows.new.items ≡ rows.old.items ++ standing_rows extras m.image m.config s) }
{
    write_machine(machine, extras, named, rows)?;
    write_moves(machine, extras.moves, named, rows)
}

// Writes how many entries a history has, and the rows of the machine to which it leads.
fn write_rows(
    recorder: &Recorder,
    extras: Extras,
    named: &[Named],
    rows: &mut Vec<u8>,
) -> Result<(), AllocError>
    requires held { let m = recorder.now.machine in
        IsHeldBy (bus_state m.bus) (data_words m.image) extras.memory named.now }
    ensures { let r = recorder.now in
        OnOk result (rows.new.items ≡ rows.old.items ++ show_of extras r.machine.image r.machine.config r.entries) }
{
    let count = recorder.entries().len();
    write_number("at", count as u64, rows)?;
    write_standing(recorder.machine(), extras, named, rows)
}

/// The text of the machine to which a history leads: how many entries it has, the tasks committed, the entries that are
/// due and to be guessed, the ending; and a row for each active task, oldest first, each valid line, by unit and then
/// word, each spilled word, and each word that has a valid line or is spilled; and what else is asked for.
///
/// Only words that an entry names can be in a line or spilled, so no other word is looked up unless it is asked for.
///
/// Errors: [`ReportError::Memory`].
pub fn show_text(alloc: Global, recorder: &Recorder, extras: Extras) -> Result<Vec<u8>, ReportError>
    ensures text { let r = recorder.now in
        IfOk result (λ text. text.items ≡ show_of extras r.machine.image r.machine.config r.entries) }
    ensures err { IfErr result IsMemoryFault }
{
    let named = held_words(alloc, recorder, extras.memory)?;
    let mut rows = Vec::new(alloc);
    write_rows(recorder, extras, &named, &mut rows)?;
    Ok(rows)
}
