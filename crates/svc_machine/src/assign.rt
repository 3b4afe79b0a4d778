//! An assignment.

ghost use Rattle.svc_machine_laws.specs.Events.{Assign};
ghost use Rattle.svc_machine.specs.Steps.{Accepts, IsTaken};

use crate::machine::Machine;
use crate::seat::Seat;
use arrayvec::ArrayVec;
use svc_base::{TaskNo, UnitId};
use svc_core::{Core, Lease};
use svc_machine_laws::{Reply, What};

impl Machine {
    // Begins the next task on the unit: at the guess or, if no task is active, at the entry that is due.
    pub(crate) fn assign(&mut self, unit: UnitId, guess: u32) -> Reply
        requires { Accepts self.old (Assign unit.0 guess) }
        ensures { IsTaken self.old self.new (Assign unit.0 guess) result }
    {
        let task = TaskNo(self.commits + self.seats.len() as u64);
        let epoch = self.epoch;
        let task_entry = self.sequencer.assign(guess);
        self.bus.begin(unit);
        let _room = self.seats.push(Seat {
            lease: Lease::new(unit, epoch, Core::start(&self.image, task_entry)),
            task_entry,
            waiting: ArrayVec::new(),
        });
        self.epoch += 1;
        self.accepted += 1;
        Reply {
            what: What::Assigned {
                task,
                entry: task_entry,
                epoch,
            },
            cut: None,
        }
    }
}
