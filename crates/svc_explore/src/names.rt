// The names of the units of a machine: their places in an order, in which standings that differ in which unit is which
// come out the same.

ghost use Rattle.std.specs.Prelude.{◌≡◌, ◌==◌, ◌<◌, ◌≤◌, ◌+◌, IfOk, IfSome, length};
ghost use Rattle.std.specs.List.{position};
ghost use Rattle.svc_core_laws.specs.Turns.{data_words};
ghost use Rattle.svc_observations.specs.Rosters.{unit_numbers};
ghost use Rattle.svc_renaming_laws.specs.Orders.{IsOrder, by_order};
ghost use Rattle.svc_explore.specs.UnitOrders.{KeepsOrders};

use crate::key::code_of_line;
use std::alloc::{AllocError, Global};
use svc_base::{UnitId, WordAddr};
use svc_machine::Machine;

// All units, from 0 on.
fn all_units(alloc: Global, units: u32) -> Result<Vec<UnitId>, AllocError>
    requires few { units ≤ 16 }
    ensures { IfOk result (λ order. IsOrder units (unit_numbers order.items)) }
{
    let mut order = Vec::new(alloc);
    for unit in 0..units {
        order.push(UnitId(unit as u8))?;
    }
    Ok(order)
}

fn find_unit(order: &[UnitId], unit: UnitId) -> Option<usize>
    ensures place { result ≡ position (λ other. other.0 == unit.0) order.now }
    ensures within { IfSome result (λ place. place < length order.now) }
{
    order.iter().position(|other| other.0 == unit.0)
}

// The name of a unit: its place in the order.
pub(crate) fn name_of(order: &[UnitId], unit: UnitId) -> u64
    ensures name { result ≡ (by_order (unit_numbers order.now)).there unit.0 }
    ensures small { result ≤ length order.now + 255 }
{
    match find_unit(order, unit) {
        Some(place) => place as u64,
        None => unit.0 as u64,
    }
}

// Whether what the first unit's cache shows comes before what the second one's does, word by word: by the bits of the
// line, and then by whose version is the newest committed one.
fn is_before(machine: &Machine, first: UnitId, second: UnitId, words: u32) -> bool
    requires inside { words ≤ data_words machine.now.image }
{
    for word in 0..words {
        let addr = WordAddr(word);
        let (mine, other) = (
            code_of_line(machine, first, addr),
            code_of_line(machine, second, addr),
        );
        if mine != other {
            return mine < other;
        }
        if let Some(newest) = machine.newest_committed(addr) {
            if newest.0 == first.0 {
                return false;
            }
            if newest.0 == second.0 {
                return true;
            }
        }
    }
    false
}

// Two places of the order exchange their units.
fn exchange(order: &mut Vec<UnitId>, place: usize, other: usize)
    requires place { place < length order.old.items }
    requires other { other < length order.old.items }
    ensures kept { KeepsOrders order.old.items order.new.items }
    ensures len { length order.new.items ≡ length order.old.items }
{
    order.swap(place, other);
}

// Puts the unit at a place, in exchange for the one that was there.
fn put_at(order: &mut Vec<UnitId>, place: usize, unit: UnitId)
    ensures kept { KeepsOrders order.old.items order.new.items }
{
    let Some(from) = find_unit(order.as_slice(), unit) else {
        return;
    };
    if place < order.len() {
        exchange(order, place, from);
    }
}

// Puts the unit of the active task at a place there, if there is one.
fn put_task_at(order: &mut Vec<UnitId>, machine: &Machine, place: usize)
    ensures kept { KeepsOrders order.old.items order.new.items }
{
    if let Some(task) = machine.task_at(place) {
        put_at(order, place, task.unit);
    }
}

// Puts the units of the active tasks first, in the order of these.
fn put_tasks_first(order: &mut Vec<UnitId>, machine: &Machine)
    ensures kept { KeepsOrders order.old.items order.new.items }
{
    for place in 0..machine.active_tasks() {
        put_task_at(order, machine, place);
    }
}

// Puts the units at two places into the order of what their caches show.
fn sort_two(order: &mut Vec<UnitId>, machine: &Machine, place: usize, other: usize, words: u32)
    requires inside { words ≤ data_words machine.now.image }
    requires place { place < length order.old.items }
    requires other { other < length order.old.items }
    ensures kept { KeepsOrders order.old.items order.new.items }
    ensures len { length order.new.items ≡ length order.old.items }
{
    if is_before(machine, order[other], order[place], words) {
        exchange(order, place, other);
    }
}

// Puts at a place the unit that comes before all those at later places.
fn put_least_at(order: &mut Vec<UnitId>, machine: &Machine, place: usize, words: u32)
    requires inside { words ≤ data_words machine.now.image }
    requires place { place < length order.old.items }
    ensures kept { KeepsOrders order.old.items order.new.items }
    ensures len { length order.new.items ≡ length order.old.items }
{
    for other in place + 1..order.len() {
        sort_two(order, machine, place, other, words);
    }
}

// Puts the units without tasks, which come last, into the order of what their caches show.
fn sort_idle(order: &mut Vec<UnitId>, machine: &Machine, words: u32)
    requires inside { words ≤ data_words machine.now.image }
    ensures kept { KeepsOrders order.old.items order.new.items }
{
    for place in machine.active_tasks()..order.len() {
        put_least_at(order, machine, place, words);
    }
}

// The order by which the units of a machine are named: those of the active tasks, the oldest first, and then those
// without one by what their caches show.
pub(crate) fn order_of(
    alloc: Global,
    machine: &Machine,
    words: u32,
) -> Result<Vec<UnitId>, AllocError>
    requires inside { words ≤ data_words machine.now.image }
    ensures { IfOk result (λ order. IsOrder machine.now.config.units (unit_numbers order.items)) }
{
    let mut order = all_units(alloc, machine.config().units)?;
    put_tasks_first(&mut order, machine);
    sort_idle(&mut order, machine, words);
    Ok(order)
}
