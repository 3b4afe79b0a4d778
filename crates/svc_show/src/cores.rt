// The cores of the active tasks.

ghost use Rattle.std.specs.Prelude.{◌≡◌, ◌<◌, ◌++◌, OnOk};
ghost use Rattle.svc_show.specs.Cores.{changed_row, core_rows, pc_row, register_row, register_row_at, register_rows};

use std::alloc::AllocError;
use svc_base::UnitId;
use svc_core::Core;
use svc_rv32i::Register;
use svc_text::{put, put_row};

// Writes the row of the address at which a unit's task goes on.
fn write_pc(unit: UnitId, address: u32, rows: &mut Vec<u8>) -> Result<(), AllocError>
    ensures { OnOk result (rows.new.items ≡ rows.old.items ++ pc_row unit.0 address) }
{
    put_row(rows, "pc", &[u64::from(unit.0), u64::from(address)])
}

// Writes the row of a register.
fn write_register(
    unit: UnitId,
    register: u8,
    value: u32,
    rows: &mut Vec<u8>,
) -> Result<(), AllocError>
    ensures { OnOk result (rows.new.items ≡ rows.old.items ++ register_row unit.0 register value) }
{
    put!(rows; "register,", unit.0, ",x", register, ",", value, "\n");
    Ok(())
}

// Writes the row of a register that began with another value.
fn write_changed(
    unit: UnitId,
    register: u8,
    was: u32,
    value: u32,
    rows: &mut Vec<u8>,
) -> Result<(), AllocError>
    ensures { OnOk result (rows.new.items ≡ rows.old.items ++ changed_row unit.0 register was value) }
{
    if value == was {
        Ok(())
    } else {
        write_register(unit, register, value, rows)
    }
}

// Writes the row of one of x1 to x31, by its place among them, if its value has changed since the task began.
fn write_register_at(
    began: &[u32; 31],
    unit: UnitId,
    core: &Core,
    place: u8,
    rows: &mut Vec<u8>,
) -> Result<(), AllocError>
    requires few { place < 31 }
    ensures { OnOk result
        (rows.new.items ≡ rows.old.items ++ register_row_at began.now unit.0 core.now place) }
{
    let number = place + 1;
    let was = began[place as usize];
    let value = core.value(Register { number });
    write_changed(unit, number, was, value, rows)
}

// Writes the rows of the registers whose values have changed since the task began.
fn write_registers(
    began: &[u32; 31],
    unit: UnitId,
    core: &Core,
    rows: &mut Vec<u8>,
) -> Result<(), AllocError>
    ensures { OnOk result (rows.new.items ≡ rows.old.items ++ register_rows began.now unit.0 core.now) }
{
    for place in 0..31 {
        write_register_at(began, unit, core, place, rows)?;
    }
    Ok(())
}

/// Writes where the unit's task stands, and its registers that have changed since it began.
pub(crate) fn write_core(
    began: &[u32; 31],
    unit: UnitId,
    core: &Core,
    rows: &mut Vec<u8>,
) -> Result<(), AllocError>
    ensures { OnOk result (rows.new.items ≡ rows.old.items ++ core_rows began.now unit.0 core.now) }
{
    write_pc(unit, core.pc(), rows)?;
    write_registers(began, unit, core, rows)
}
