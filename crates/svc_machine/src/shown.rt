// The active tasks and the spilled words, for whoever inspects a machine.

ghost use Rattle.std.specs.Prelude.{◌≡◌, ◌<◌, length, option_map};
ghost use Rattle.svc_core_laws.specs.Turns.{data_words};
ghost use Rattle.svc_machine_laws.specs.Standing.{Standing};
ghost use Rattle.svc_machine.specs.Cores.{core_of};
ghost use Rattle.svc_machine.specs.Reads.{task_of};
ghost use Rattle.svc_machine.specs.Value.{StandsAt};

use crate::machine::Machine;
use crate::seat::core_at;
use svc_base::{UnitId, WordAddr};
use svc_core::Core;
use svc_core_laws::End;

/// The state of an active task.
#[derive(Clone, Copy)]
pub struct ActiveTask {
    /// The unit that runs it.
    pub unit: UnitId,
    /// The entry at which it began, a byte address.
    pub task_entry: u32,
    /// The turns that it has taken so far.
    pub turns: u32,
    /// How it has ended, if it has.
    pub done: Option<End>,
}

impl Machine {
    /// How many tasks are active.
    pub fn active_tasks(&self) -> usize
        ensures { result ≡ length self.now.plain.tasks }
    {
        self.seats.len()
    }

    /// The active task at a place, counted from the oldest; none if there are fewer.
    pub fn task_at(&self, place: usize) -> Option<ActiveTask>
        ensures { result ≡ task_of self.now place }
    {
        let seat = self.seats.get(place)?;
        Some(ActiveTask {
            unit: seat.lease.unit,
            task_entry: seat.task_entry,
            turns: seat.lease.core.count(),
            done: seat.lease.core.done(),
        })
    }

    /// The core of the active task at a place, counted from the oldest: its pc and its registers; none if there are
    /// fewer.
    pub fn core_at(&self, place: usize) -> Option<&Core>
        ensures { option_map (λ core. core.now) result ≡ core_of self.now place }
    {
        core_at(&self.seats, place)
    }

    /// The head's version of the word whose line was replaced, if any.
    pub fn spilled_version(&self, addr: WordAddr) -> Option<u32>
        requires in_data { addr.0 < data_words self.now.image }
        ensures { (s : Standing) → StandsAt self.now s → result ≡ s.lines.spill addr.0 }
    {
        self.bus.spilled_version(addr)
    }
}
