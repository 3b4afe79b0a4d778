// The line of a word that one unit alone may have.

ghost use Rattle.std.specs.Prelude.{◌≡◌, ◌++◌, ◌∷◌, [], OnOk, codes};
ghost use Rattle.svc_core_laws.specs.Turns.{data_words};
ghost use Rattle.svc_core_laws.specs.Words.{program};
ghost use Rattle.svc_bus.specs.State.{bus_state};
ghost use Rattle.svc_line.specs.Bits.{bits_of};
ghost use Rattle.svc_machine_laws.specs.PlainMachine.{running};
ghost use Rattle.svc_text.specs.Rows.{fields};
ghost use Rattle.svc_held.specs.declared.named.Namers.TheVariants as namers;
ghost use Rattle.svc_held.specs.Held.{HasItsLines};
ghost use Rattle.svc_held.specs.Tasks.{each_task};
ghost use Rattle.svc_version_order.specs.Order.{lone_field, order_row, task_field};

use crate::active::put_tasks;
use crate::fields::put_committed;
use std::alloc::AllocError;
use svc_base::UnitId;
use svc_held::{Named, is_committed, line_of};
use svc_line::LineBits;
use svc_machine::Machine;
use svc_text::{Piece, put_fields};

// Adds the field of the unit's line of a word, which has these bits and is the word's only valid one.
fn put_line(
    machine: &Machine,
    named: Named,
    unit: UnitId,
    bits: LineBits,
    rows: &mut Vec<u8>,
) -> Result<(), AllocError>
    requires own { HasItsLines (bus_state machine.now.bus) (data_words machine.now.image) named }
    ensures { let m = machine.now in
        OnOk result (rows.new.items ≡ rows.old.items ++ lone_field (bits_of bits).commit unit.0
        (each_task (task_field (bus_state m.bus) named.word.0) m.plain.commits (running (program m.image) m.plain))) }
{
    if is_committed(bits) {
        put_committed(unit, rows)
    } else {
        put_tasks(machine, named, rows)
    }
}

// Adds the row of a word with this line alone.
fn put_row(
    machine: &Machine,
    named: Named,
    unit: UnitId,
    bits: LineBits,
    rows: &mut Vec<u8>,
) -> Result<(), AllocError>
    requires own { HasItsLines (bus_state machine.now.bus) (data_words machine.now.image) named }
    ensures { let m = machine.now in
        OnOk result (rows.new.items ≡ rows.old.items ++ (fields (codes "order") (named.word.0 ∷ [])
        ++ (lone_field (bits_of bits).commit unit.0 (each_task (task_field (bus_state m.bus) named.word.0)
        m.plain.commits (running (program m.image) m.plain)) ++ codes "\n"))) }
{
    put_fields(rows, "order", &[u64::from(named.word.0)])?;
    put_line(machine, named, unit, bits, rows)?;
    "\n".put(rows)
}

/// Adds the row of a word that this unit alone names, if it has a valid line of it: no other unit has one, so the order
/// of versions needn't be looked for.
pub(crate) fn put_lone(
    machine: &Machine,
    named: Named,
    unit: UnitId,
    rows: &mut Vec<u8>,
) -> Result<(), AllocError>
    requires alone { named.by ≡ namers.One unit }
    requires own { HasItsLines (bus_state machine.now.bus) (data_words machine.now.image) named }
    ensures { let m = machine.now in
        OnOk result (rows.new.items ≡ rows.old.items ++ order_row m.config.units (bus_state m.bus)
        m.plain.commits (running (program m.image) m.plain) named.word.0) }
{
    // what the type guarantees: its bus is sound
    let _standing = machine.config();
    match line_of(machine, unit, named.word) {
        Some((bits, _value)) => put_row(machine, named, unit, bits, rows),
        None => Ok(()),
    }
}
