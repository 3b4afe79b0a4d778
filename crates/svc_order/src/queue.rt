//! The queue of active tasks.

ghost use Rattle.std.specs.Prelude.{◌≡◌, ◌<◌, ◌≤◌, ◌==◌, ◌↔◌, ℕ, Option, Some, [], ◌∷◌, ◌++◌, length, get_or, take};
ghost use Rattle.std.specs.Prelude.{option_map, slice_get, Contains};

use arrayvec::ArrayVec;
use std::marker::Model;
use svc_base::UnitId;
use svc_base::config::MAX_UNITS;

/// How many tasks can be active at once: as many as there can be units.
pub const CAPACITY: usize = MAX_UNITS as usize;

/// The units of the active tasks, oldest first. No unit is in it twice.
///
/// Contracts see the list of the units' numbers. Positions count from 0, the head's.
#[derive(Drop)]
pub struct TaskQueue {
    units: ArrayVec<UnitId, CAPACITY>,
}

impl Model for TaskQueue {
    ghost use Rattle.std.specs.Prelude.{List, ℕ};
    ghost use Rattle.svc_order.specs.Order.{numbers, StandsOnce};

    ghost Value = { List ℕ };

    ghost view = { λ queue. numbers queue.units.items };

    ghost invariant = { λ queue. StandsOnce (numbers queue.units.items) };
}

impl TaskQueue {
    /// A queue without tasks.
    pub fn new() -> TaskQueue
        ensures { result ≡ [] }
    {
        TaskQueue {
            units: ArrayVec::new(),
        }
    }

    /// It becomes equal to another queue.
    pub fn copy_from(&mut self, other: &TaskQueue)
        ensures { self.new ≡ other.now }
    {
        self.units.clear();
        let _fits = self.units.try_extend_from_slice(&other.units);
    }

    /// How many tasks are active.
    pub fn len(&self) -> usize
        ensures count { result ≡ length self.now }
        ensures capacity { length self.now ≤ CAPACITY }
    {
        self.units.len()
    }

    /// No task is active.
    pub fn is_empty(&self) -> bool
        ensures { result ≡ (length self.now == 0) }
    {
        self.units.is_empty()
    }

    /// Adds a new task of the unit at the tail.
    pub fn push(&mut self, unit: UnitId)
        requires room { length self.old < CAPACITY }
        requires idle { ¬ Contains self.old unit.0 }
        ensures { self.new ≡ self.old ++ unit.0 ∷ [] }
    {
        self.units.push(unit);
    }

    /// The unit of the oldest task.
    pub fn head(&self) -> Option<UnitId>
        ensures { option_map (λ unit. unit.0) result ≡ slice_get self.now 0 }
    {
        self.units.first().copied()
    }

    /// The position of the unit's task.
    pub fn position(&self, unit: UnitId) -> Option<usize>
        ensures { (p : ℕ) → (result ≡ Some p) ↔ ((p < length self.now) × (get_or self.now p 0 ≡ unit.0)) }
    {
        for position in 0..self.units.len() {
            if self.units[position].0 == unit.0 {
                return Some(position);
            }
        }
        None
    }

    /// The unit of the task at a position.
    pub fn unit_at(&self, position: usize) -> UnitId
        requires { position < length self.now }
        ensures { result.0 ≡ get_or self.now position 0 }
    {
        self.units[position]
    }

    /// Removes the task at the position and all younger ones.
    pub fn cut_from(&mut self, position: usize)
        ensures { self.new ≡ take position self.old }
    {
        self.units.truncate(position);
    }

    /// Removes the oldest task, and returns its unit.
    pub fn pop_head(&mut self) -> UnitId
        requires { 0 < length self.old }
        ensures { self.old ≡ result.0 ∷ self.new }
    {
        self.units.remove(0)
    }
}
