// The rows of the table.

ghost use Rattle.std.specs.Prelude.{◌≡◌, ◌<◌, ◌^◌, ◌++◌, [], OnOk, flat_map, length};
ghost use Rattle.svc_instruction_profile.specs.Room.{HasRoom};
ghost use Rattle.svc_instruction_profile.specs.Rows.{cost_at, cost_row, with_charge, with_charges};

use crate::charge::Charge;
use crate::cost::Cost;
use std::alloc::AllocError;
use std::collections::BTreeMap;
use svc_text::put_row;

// Adds a charge to its row.
fn add(charge: Charge, rows: &mut BTreeMap<u32, Cost>) -> Result<(), AllocError>
    requires { HasRoom charge.expense (cost_at charge.address rows.old.entries) }
    ensures { OnOk result (rows.new.entries ≡ with_charge charge rows.old.entries) }
{
    // the keys of a map ascend
    let _rows = rows.len();
    let so_far = rows.get(&charge.address).copied().unwrap_or(Cost::none());
    rows.insert(charge.address, so_far.and(charge.expense))?;
    Ok(())
}

/// The rows of these charges.
pub(crate) fn add_all(charges: &[Charge], rows: &mut BTreeMap<u32, Cost>) -> Result<(), AllocError>
    requires none { rows.old.entries ≡ [] }
    requires few { length charges.now < 2 ^ 64 }
    ensures { OnOk result (rows.new.entries ≡ with_charges [] charges.now) }
{
    for charge in charges {
        add(*charge, rows)?;
    }
    Ok(())
}

// Adds the row of an instruction.
fn put_cost(text: &mut Vec<u8>, address: u32, cost: &Cost) -> Result<(), AllocError>
    ensures { OnOk result (text.new.items ≡ text.old.items ++ cost_row (address, cost.now)) }
{
    put_row(text, address, &cost.told())
}

/// Adds the rows.
pub(crate) fn put_rows(text: &mut Vec<u8>, rows: &BTreeMap<u32, Cost>) -> Result<(), AllocError>
    ensures { OnOk result (text.new.items ≡ text.old.items ++ flat_map cost_row rows.now.entries) }
{
    for (address, cost) in rows {
        put_cost(text, *address, cost)?;
    }
    Ok(())
}
