// What may come next at a machine, and which of it would be refused.

ghost use Rattle.std.specs.Prelude.{◌≡◌, ◌≤◌, ◌++◌, [], OnOk, cond, flat_map};
ghost use Rattle.std.specs.List.{AllByRecursion, range_with_len};
ghost use Rattle.svc_core_laws.specs.Turns.{data_words};
ghost use Rattle.svc_bus.specs.State.{bus_state};
ghost use Rattle.svc_machine.specs.Events.{event_of};
ghost use Rattle.svc_machine.specs.Value.{StandsAt};
ghost use Rattle.svc_machine_laws.specs.Events as law;
ghost use Rattle.svc_machine_laws.specs.Standing.{Standing, refusal_of};
ghost use Rattle.svc_held.specs.Held.{HasHeld, HasItsLines};
ghost use Rattle.svc_moves.specs.Moves.{assign_row, event_row, move_rows, named_row, replace_row, replace_rows};
ghost use Rattle.svc_moves.specs.Moves.{submit_row, unit_moves};
ghost use Rattle.svc_moves.specs.Rows.{move_row};

use crate::burst::turn_of;
use crate::row::put_move;
use std::alloc::AllocError;
use svc_base::{UnitId, WordAddr};
use svc_held::{Named, holds_line};
use svc_machine::{Event, Machine};

// Adds the row of a unit's event of this kind and argument.
fn put_event(
    machine: &Machine,
    unit: UnitId,
    kind: &str,
    arg: Option<u32>,
    event: Event<'_>,
    rows: &mut Vec<u8>,
) -> Result<(), AllocError>
    ensures { let m = machine.now in (s : Standing) → StandsAt m s → OnOk result (rows.new.items
        ≡ rows.old.items ++ move_row unit.0 kind.now arg (refusal_of m.image m.config s (event_of event.entry))) }
{
    put_move(unit, kind, arg, machine.refusal(event), rows)
}

// Adds the row of the next task's assignment to the unit, if there is a guess of its entry.
fn put_assign(machine: &Machine, unit: UnitId, rows: &mut Vec<u8>) -> Result<(), AllocError>
    ensures { let m = machine.now in (s : Standing) → StandsAt m s
        → OnOk result (rows.new.items ≡ rows.old.items ++ assign_row m.image m.config s unit.0) }
{
    match machine.guess() {
        Some(guess) => {
            let event = Event::Assign { unit, guess };
            put_event(machine, unit, "assign", Some(guess), event, rows)
        }
        None => Ok(()),
    }
}

// Adds the row of the unit's submit of one turn.
fn put_submit(machine: &Machine, unit: UnitId, rows: &mut Vec<u8>) -> Result<(), AllocError>
    ensures { let m = machine.now in (s : Standing) → StandsAt m s
        → OnOk result (rows.new.items ≡ rows.old.items ++ submit_row m.image m.config s unit.0) }
{
    let burst = turn_of(machine, unit);
    let event = Event::Submit { burst: &burst };
    put_event(machine, unit, "submit", Some(1), event, rows)
}

// Adds the row of the replacement of the unit's line of a word, if it has one.
fn put_if_held(
    machine: &Machine,
    unit: UnitId,
    addr: WordAddr,
    is_held: bool,
    rows: &mut Vec<u8>,
) -> Result<(), AllocError>
    ensures { let m = machine.now in (s : Standing) → StandsAt m s → OnOk result (rows.new.items
        ≡ rows.old.items ++ cond is_held (event_row m.image m.config s unit.0 (law.Replace unit.0 addr.0)) []) }
{
    if is_held {
        let event = Event::Replace { unit, addr };
        put_event(machine, unit, "replace", Some(addr.0), event, rows)
    } else {
        Ok(())
    }
}

// Adds the row of the replacement of the unit's line of a named word, if it has one.
fn put_replace(
    machine: &Machine,
    unit: UnitId,
    named: Named,
    rows: &mut Vec<u8>,
) -> Result<(), AllocError>
    requires own { HasItsLines (bus_state machine.now.bus) (data_words machine.now.image) named }
    ensures { let m = machine.now in (s : Standing) → StandsAt m s
        → OnOk result (rows.new.items ≡ rows.old.items ++ replace_row m.image m.config s unit.0 named.word.0) }
{
    let is_held = holds_line(machine, unit, named);
    put_if_held(machine, unit, named.word, is_held, rows)
}

// Adds the rows of the replacements of the unit's lines of the named words.
fn put_each(
    machine: &Machine,
    named: &[Named],
    unit: UnitId,
    rows: &mut Vec<u8>,
) -> Result<(), AllocError>
    requires own { AllByRecursion (HasItsLines (bus_state machine.now.bus) (data_words machine.now.image)) named.now }
    ensures { let m = machine.now in (s : Standing) → StandsAt m s
        → OnOk result (rows.new.items ≡ rows.old.items ++ flat_map (named_row m.image m.config s unit.0) named.now) }
{
    for one in named {
        put_replace(machine, unit, *one, rows)?;
    }
    Ok(())
}

// Adds the rows of the replacements of the unit's lines.
fn put_replaces(
    machine: &Machine,
    named: &[Named],
    unit: UnitId,
    rows: &mut Vec<u8>,
) -> Result<(), AllocError>
    requires held { HasHeld (bus_state machine.now.bus) (data_words machine.now.image) named.now }
    ensures { let m = machine.now in (s : Standing) → StandsAt m s
        → OnOk result (rows.new.items ≡ rows.old.items ++ replace_rows m.image m.config s unit.0) }
{
    put_each(machine, named, unit, rows)
}

// Adds the row of the cancel of the unit's task.
fn put_cancel(machine: &Machine, unit: UnitId, rows: &mut Vec<u8>) -> Result<(), AllocError>
    ensures { let m = machine.now in (s : Standing) → StandsAt m s
        → OnOk result (rows.new.items ≡ rows.old.items ++ event_row m.image m.config s unit.0 (law.Cancel unit.0)) }
{
    put_event(machine, unit, "cancel", None, Event::Cancel { unit }, rows)
}

// Adds the row of a commit for which the unit asks.
fn put_commit(machine: &Machine, unit: UnitId, rows: &mut Vec<u8>) -> Result<(), AllocError>
    ensures { let m = machine.now in (s : Standing) → StandsAt m s
        → OnOk result (rows.new.items ≡ rows.old.items ++ event_row m.image m.config s unit.0 (law.Commit unit.0)) }
{
    let event = Event::Commit { by: unit };
    put_event(machine, unit, "commit", None, event, rows)
}

// Adds the rows of all that a unit may ask for.
fn put_unit(
    machine: &Machine,
    named: &[Named],
    unit: UnitId,
    rows: &mut Vec<u8>,
) -> Result<(), AllocError>
    requires held { HasHeld (bus_state machine.now.bus) (data_words machine.now.image) named.now }
    ensures { let m = machine.now in (s : Standing) → StandsAt m s
        → OnOk result (rows.new.items ≡ rows.old.items ++ unit_moves m.image m.config s unit.0) }
{
    put_assign(machine, unit, rows)?;
    put_submit(machine, unit, rows)?;
    put_replaces(machine, named, unit, rows)?;
    put_cancel(machine, unit, rows)?;
    put_commit(machine, unit, rows)
}

// Adds the rows of all that the first units may ask for.
fn put_units(
    machine: &Machine,
    named: &[Named],
    units: u32,
    rows: &mut Vec<u8>,
) -> Result<(), AllocError>
    requires few { units ≤ 16 }
    requires held { HasHeld (bus_state machine.now.bus) (data_words machine.now.image) named.now }
    ensures { let m = machine.now in (s : Standing) → StandsAt m s
        → OnOk result (rows.new.items ≡ rows.old.items
        ++ flat_map (unit_moves m.image m.config s) (range_with_len 0 units)) }
{
    for unit in 0..units {
        put_unit(machine, named, UnitId(unit as u8), rows)?;
    }
    Ok(())
}

/// Adds a row for each event that a unit may ask for next, by unit: an assignment at the guess, a submit of one turn,
/// the replacement of each word of which it has a line, a cancel and a commit; each with its refusal, if it would be
/// refused.
///
/// Errors: [`AllocError`], if memory runs out.
pub fn put_moves(machine: &Machine, named: &[Named], rows: &mut Vec<u8>) -> Result<(), AllocError>
    requires held { HasHeld (bus_state machine.now.bus) (data_words machine.now.image) named.now }
    ensures { let m = machine.now in (s : Standing) → StandsAt m s
        → OnOk result (rows.new.items ≡ rows.old.items ++ move_rows m.image m.config s) }
{
    put_units(machine, named, machine.config().units, rows)
}
