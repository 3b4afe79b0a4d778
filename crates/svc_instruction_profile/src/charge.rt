// A charge to an instruction.

ghost use Rattle.std.specs.Prelude.{◌≡◌, ◌++◌, OnOk};
ghost use Rattle.svc_instruction_profile.specs.Charges.{charged, charged_where};

use crate::cost::Expense;
use std::alloc::AllocError;

/// A charge to an instruction.
#[derive(Clone, Copy)]
pub(crate) struct Charge {
    /// Where the instruction stands, a byte address.
    pub(crate) address: u32,
    /// What is charged.
    pub(crate) expense: Expense,
}

// Adds a charge to the instruction at this address, if there is one.
fn push_charge(
    address: Option<u32>,
    expense: Expense,
    charges: &mut Vec<Charge>,
) -> Result<(), AllocError>
    ensures { OnOk result (charges.new.items ≡ charges.old.items ++ charged address expense) }
{
    if let Some(address) = address {
        charges.push(Charge { address, expense })?;
    }
    Ok(())
}

/// Adds the same if the condition holds.
pub(crate) fn push_where(
    holds: bool,
    address: Option<u32>,
    expense: Expense,
    charges: &mut Vec<Charge>,
) -> Result<(), AllocError>
    ensures { OnOk result (charges.new.items ≡ charges.old.items ++ charged_where holds address expense) }
{
    if holds {
        push_charge(address, expense, charges)?;
    }
    Ok(())
}
