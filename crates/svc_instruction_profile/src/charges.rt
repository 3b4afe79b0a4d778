// What a history charges to the instructions at which its entries ask.

ghost use Rattle.std.specs.Prelude.{◌≡◌, ◌+◌, ◌<◌, ◌≤◌, ◌++◌, OnOk, IfOk, flat_map, length};
ghost use Rattle.svc_base.specs.declared.config.TheConstants.{MAX_EVENTS};
ghost use Rattle.svc_history_laws.specs.declared.entry.CutKind.TheVariants as cause;
ghost use Rattle.svc_report.specs.Summary.{is_cause};
ghost use Rattle.svc_task_runs.specs.Bounds.{AreFew};
ghost use Rattle.svc_task_runs.specs.Runs.{step};
ghost use Rattle.svc_task_runs.specs.Seen.{seen};
ghost use Rattle.svc_instruction_profile.specs.Charges.{charges_at, charges_of, does, is_output, own_charge};
ghost use Rattle.svc_instruction_profile.specs.Charges.{own_charges, own_expenses};

use crate::charge::{Charge, push_where};
use crate::cost::Expense;
use crate::lost::push_lost_from;
use crate::reader::{address_of, reader_of};
use std::alloc::{AllocError, Global};
use svc_history_laws::{CutKind, Entry, ReplyKind};
use svc_task_runs::{TaskRuns, loads_in, stores_in};

// The entry's reply is that a word was output.
fn outputs_in(entry: &Entry) -> bool
    ensures { result ≡ is_output entry.now.reply }
{
    match entry.reply {
        ReplyKind::Emitted => true,
        _ => false,
    }
}

// The entry squashed tasks because they had read a word too early.
fn is_violation(entry: &Entry) -> bool
    ensures { result ≡ is_cause cause.Violation entry.now.cause }
{
    match entry.cause {
        Some(CutKind::Violation) => true,
        _ => false,
    }
}

// What an entry does itself.
fn does(expense: Expense, entry: &Entry) -> bool
    ensures { result ≡ does expense entry.now }
{
    match expense {
        Expense::Asked => true,
        Expense::Load => loads_in(entry),
        Expense::Store => stores_in(entry),
        Expense::Output => outputs_in(entry),
        Expense::Found => is_violation(entry),
        Expense::Lost | Expense::Suffered => false,
    }
}

// What each entry is charged for, if it does it.
fn own_expenses() -> [Expense; 5]
    ensures { result ≡ own_expenses }
{
    [
        Expense::Asked,
        Expense::Load,
        Expense::Store,
        Expense::Output,
        Expense::Found,
    ]
}

// What the entry that asks at this address is charged of these.
fn push_each(
    expenses: &[Expense],
    address: Option<u32>,
    entry: &Entry,
    charges: &mut Vec<Charge>,
) -> Result<(), AllocError>
    ensures { OnOk result (charges.new.items ≡ charges.old.items
        ++ flat_map (own_charge address entry.now) expenses.now) }
{
    for expense in expenses {
        push_where(does(*expense, entry), address, *expense, charges)?;
    }
    Ok(())
}

// What the entry that asks at this address is charged.
fn push_own(
    address: Option<u32>,
    entry: &Entry,
    charges: &mut Vec<Charge>,
) -> Result<(), AllocError>
    ensures { OnOk result (charges.new.items ≡ charges.old.items ++ own_charges address entry.now) }
{
    push_each(&own_expenses(), address, entry, charges)
}

// What the entry at an index is charged and charges to others, where these tasks are active. It takes the entry in.
fn charge(
    asked: &[Option<u32>],
    entries: &[Entry],
    at: usize,
    entry: &Entry,
    runs: &mut TaskRuns,
    charges: &mut Vec<Charge>,
) -> Result<(), AllocError>
    requires same { length asked.now ≡ length entries.now }
    requires inside { at < length entries.now }
    requires few { AreFew at (seen runs.old) }
    requires all { length entries.now ≤ MAX_EVENTS }
    ensures tasks { OnOk result (seen runs.new ≡ step at entry.now (seen runs.old)) }
    ensures few { OnOk result (AreFew (at + 1) (seen runs.new)) }
    ensures charges { OnOk result (charges.new.items ≡ charges.old.items
        ++ charges_at asked.now entries.now at entry.now runs.old.active.items) }
{
    push_own(address_of(asked, Some(at)), entry, charges)?;
    let reader = reader_of(asked, entries, at, entry, &runs.active);
    push_where(is_violation(entry), reader, Expense::Suffered, charges)?;
    let settled = runs.settled.len();
    runs.take_in(at as u64, entry)?;
    push_lost_from(asked, entries, at, &runs.settled, settled, charges)
}

/// What a history charges whose entries ask at these addresses.
pub(crate) fn charges_of(
    alloc: Global,
    asked: &[Option<u32>],
    entries: &[Entry],
) -> Result<Vec<Charge>, AllocError>
    requires same { length asked.now ≡ length entries.now }
    requires few { length entries.now ≤ MAX_EVENTS }
    ensures { IfOk result (λ charges. charges.items ≡ charges_of asked.now entries.now) }
{
    let mut runs = TaskRuns::none(alloc);
    let mut charges = Vec::new(alloc);
    for index in 0..entries.len() {
        charge(
            asked,
            entries,
            index,
            &entries[index],
            &mut runs,
            &mut charges,
        )?;
    }
    Ok(charges)
}
