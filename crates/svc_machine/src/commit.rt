//! A commit.

ghost use Rattle.std.specs.Prelude.{◌≡◌, Some};
ghost use Rattle.svc_machine_laws.specs.Events.{Commit};
ghost use Rattle.svc_machine.specs.Refusing.{machine_at};
ghost use Rattle.svc_machine.specs.Seats.{head_end};
ghost use Rattle.svc_machine.specs.Steps.{Accepts, IsTaken};

use crate::check::settle;
use crate::machine::Machine;
use svc_base::{TaskNo, UnitId};
use svc_core_laws::End;
use svc_machine_laws::{Reply, What};

impl Machine {
    // Commits the head, which has this end, with its output. If the run stops with it, or the next task began at an
    // entry other than the due one, it first squashes the tasks after the head, which is still the head then.
    pub(crate) fn commit(&mut self, by: UnitId, end: End) -> Reply
        requires accepted { Accepts self.old (Commit by.0) }
        requires found { head_end (machine_at self.old).seats ≡ Some end }
        ensures { IsTaken self.old self.new (Commit by.0) result }
    {
        let task = TaskNo(self.commits);
        let count = self.seats.len();
        let cut = settle(
            &mut self.bus,
            &mut self.sequencer,
            &mut self.seats,
            self.commits,
            count,
            0,
            end,
        );
        self.bus.commit_head();
        self.sequencer.commit(end);
        let head = &self.seats[0];
        let _room = self.output.extend_from_slice(head.waiting.as_slice());
        let _head = self.seats.remove(0);
        self.stopped = end.stop();
        self.commits += 1;
        self.accepted += 1;
        Reply {
            what: What::Committed { task, end },
            cut,
        }
    }
}
