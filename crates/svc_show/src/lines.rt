// The valid lines of the caches.

ghost use Rattle.std.specs.Prelude.{◌++◌, ◌≡◌, ◌≤◌, OnOk, flat_map};
ghost use Rattle.svc_bus.specs.Calls.{line_shown};
ghost use Rattle.svc_bus.specs.State.{bus_state};
ghost use Rattle.svc_show.specs.Rows.{line_row};
ghost use Rattle.svc_show.specs.Named.{named_line, named_lines};

use crate::bits::write_bits;
use std::alloc::AllocError;
use svc_base::{UnitId, WordAddr};
use svc_held::{Named, line_of_named};
use svc_line::LineBits;
use svc_machine::Machine;
use svc_text::put_fields;

// Writes the row of a unit's line of a word.
fn write_line(
    unit: UnitId,
    word: WordAddr,
    line: (LineBits, u32),
    rows: &mut Vec<u8>,
) -> Result<(), AllocError>
    ensures { OnOk result (rows.new.items ≡ rows.old.items ++ line_row unit.0 word.0 (line_shown line)) }
{
    let numbers = [u64::from(unit.0), u64::from(word.0), u64::from(line.1)];
    put_fields(rows, "line", &numbers)?;
    write_bits(line, rows)
}

// Writes the row of the unit's line of a named word, if there is one.
fn write_named(
    machine: &Machine,
    unit: UnitId,
    named: Named,
    rows: &mut Vec<u8>,
) -> Result<(), AllocError>
    ensures { OnOk result (rows.new.items ≡ rows.old.items ++ named_line (bus_state machine.now.bus) unit.0 named) }
{
    match line_of_named(machine, unit, named) {
        Some(line) => write_line(unit, named.word, line, rows),
        None => Ok(()),
    }
}

// Writes a row for each valid line of a unit among the named words.
fn write_unit(
    machine: &Machine,
    unit: UnitId,
    named: &[Named],
    rows: &mut Vec<u8>,
) -> Result<(), AllocError>
    ensures { OnOk result
        (rows.new.items ≡ rows.old.items ++ flat_map (named_line (bus_state machine.now.bus) unit.0) named.now) }
{
    for one in named {
        write_named(machine, unit, *one, rows)?;
    }
    Ok(())
}

/// Writes a row for each valid line of the units among the named words, by unit and then word.
pub(crate) fn write_lines(
    machine: &Machine,
    units: u32,
    named: &[Named],
    rows: &mut Vec<u8>,
) -> Result<(), AllocError>
    requires few { units ≤ 16 }
    ensures { OnOk result
        (rows.new.items ≡ rows.old.items ++ named_lines units (bus_state machine.now.bus) named.now) }
{
    for unit in 0..units {
        write_unit(machine, UnitId(unit as u8), named, rows)?;
    }
    Ok(())
}
