// The lines of a word in the order of their versions.

ghost use Rattle.std.specs.Prelude.{◌≡◌, ◌≤◌, ◌||◌, ◌++◌, OnOk, flat_map};
ghost use Rattle.std.specs.List.{AllByRecursion, list_any, range_with_len};
ghost use Rattle.svc_core_laws.specs.Turns.{data_words};
ghost use Rattle.svc_core_laws.specs.Words.{program};
ghost use Rattle.svc_bus.specs.State.{bus_state};
ghost use Rattle.svc_machine_laws.specs.PlainMachine.{running};
ghost use Rattle.svc_held.specs.Held.{HasHeld, HasItsLines, is_cached, is_named_line};
ghost use Rattle.svc_version_order.specs.Order.{line_fields, named_row, order_row, order_rows, word_fields};

use crate::active::put_tasks;
use crate::clean::put_all_clean;
use crate::lone::put_lone;
use crate::versions::put_versions;
use std::alloc::AllocError;
use svc_base::UnitId;
use svc_held::{Named, Namers, holds_line};
use svc_machine::Machine;
use svc_text::{Piece, put_fields};

/// One of them, or both.
pub(crate) fn either(one: bool, other: bool) -> bool
    ensures { result ≡ (one || other) }
{
    one || other
}

// Some unit has a valid line of a named word, by its namers.
fn is_named_cached(machine: &Machine, named: Named, units: u32) -> bool
    requires few { units ≤ 16 }
    ensures { result ≡ list_any (is_named_line (bus_state machine.now.bus) named) (range_with_len 0 units) }
{
    let mut cached = false;
    for unit in 0..units {
        cached = either(cached, holds_line(machine, UnitId(unit as u8), named));
    }
    cached
}

// Some unit has a valid line of a named word.
fn is_cached(machine: &Machine, named: Named, units: u32) -> bool
    requires few { units ≤ 16 }
    requires own { HasItsLines (bus_state machine.now.bus) (data_words machine.now.image) named }
    ensures { result ≡ is_cached (bus_state machine.now.bus) units named.word.0 }
{
    is_named_cached(machine, named, units)
}

// Adds the fields of a named word's lines, and ends its row.
fn put_lines(
    machine: &Machine,
    named: Named,
    units: u32,
    rows: &mut Vec<u8>,
) -> Result<(), AllocError>
    requires few { units ≤ 16 }
    requires all { units ≡ machine.now.config.units }
    requires own { HasItsLines (bus_state machine.now.bus) (data_words machine.now.image) named }
    ensures { let m = machine.now in
        OnOk result (rows.new.items ≡ rows.old.items
        ++ line_fields units (bus_state m.bus) m.plain.commits (running (program m.image) m.plain) named.word.0) }
{
    put_all_clean(machine, named, units, rows)?;
    put_versions(machine, named, rows)?;
    put_tasks(machine, named, rows)?;
    "\n".put(rows)
}

// Adds the row of a named word.
fn put_row(
    machine: &Machine,
    named: Named,
    units: u32,
    rows: &mut Vec<u8>,
) -> Result<(), AllocError>
    requires few { units ≤ 16 }
    requires all { units ≡ machine.now.config.units }
    requires own { HasItsLines (bus_state machine.now.bus) (data_words machine.now.image) named }
    ensures { let m = machine.now in
        OnOk result (rows.new.items ≡ rows.old.items
        ++ word_fields units (bus_state m.bus) m.plain.commits (running (program m.image) m.plain) named.word.0) }
{
    put_fields(rows, "order", &[u64::from(named.word.0)])?;
    put_lines(machine, named, units, rows)
}

// Adds the row of a named word, if there is a valid line of it in some unit.
fn put_any(
    machine: &Machine,
    named: Named,
    units: u32,
    rows: &mut Vec<u8>,
) -> Result<(), AllocError>
    requires few { units ≤ 16 }
    requires all { units ≡ machine.now.config.units }
    requires own { HasItsLines (bus_state machine.now.bus) (data_words machine.now.image) named }
    ensures { let m = machine.now in
        OnOk result (rows.new.items ≡ rows.old.items
        ++ order_row units (bus_state m.bus) m.plain.commits (running (program m.image) m.plain) named.word.0) }
{
    if is_cached(machine, named, units) {
        put_row(machine, named, units, rows)
    } else {
        Ok(())
    }
}

// Adds the row of a named word, if there is a valid line of it.
fn put_order(
    machine: &Machine,
    named: Named,
    units: u32,
    rows: &mut Vec<u8>,
) -> Result<(), AllocError>
    requires few { units ≤ 16 }
    requires all { units ≡ machine.now.config.units }
    requires own { HasItsLines (bus_state machine.now.bus) (data_words machine.now.image) named }
    ensures { let m = machine.now in
        OnOk result (rows.new.items ≡ rows.old.items
        ++ order_row units (bus_state m.bus) m.plain.commits (running (program m.image) m.plain) named.word.0) }
{
    match named.by {
        Namers::One(unit) => put_lone(machine, named, unit, rows),
        Namers::Nobody | Namers::Several => put_any(machine, named, units, rows),
    }
}

// Adds the row of each named word of which there is a valid line.
fn put_all(
    machine: &Machine,
    named: &[Named],
    units: u32,
    rows: &mut Vec<u8>,
) -> Result<(), AllocError>
    requires few { units ≤ 16 }
    requires all { units ≡ machine.now.config.units }
    requires own { AllByRecursion (HasItsLines (bus_state machine.now.bus) (data_words machine.now.image)) named.now }
    ensures { let m = machine.now in
        OnOk result (rows.new.items ≡ rows.old.items
        ++ flat_map (named_row units (bus_state m.bus) m.plain.commits (running (program m.image) m.plain)) named.now) }
{
    for one in named {
        put_order(machine, *one, units, rows)?;
    }
    Ok(())
}

/// Adds a row for each word of which there is a valid line: its lines in the order of their versions.
///
/// Errors: [`AllocError`], if memory runs out.
pub fn put_orders(machine: &Machine, named: &[Named], rows: &mut Vec<u8>) -> Result<(), AllocError>
    requires held { HasHeld (bus_state machine.now.bus) (data_words machine.now.image) named.now }
    ensures { let m = machine.now in
        OnOk result (rows.new.items ≡ rows.old.items ++ order_rows m.config.units (data_words m.image) (bus_state m.bus)
        m.plain.commits (running (program m.image) m.plain)) }
{
    put_all(machine, named, machine.config().units, rows)
}
