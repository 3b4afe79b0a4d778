//! A replacement.

ghost use Rattle.svc_machine_laws.specs.Events.{Replace};
ghost use Rattle.svc_machine.specs.Steps.{Accepts, IsTaken};

use crate::machine::Machine;
use svc_base::{UnitId, WordAddr};
use svc_machine_laws::{Reply, What};

impl Machine {
    // Removes the unit's line of the word from its cache.
    pub(crate) fn replace(&mut self, unit: UnitId, addr: WordAddr) -> Reply
        requires { Accepts self.old (Replace unit.0 addr.0) }
        ensures { IsTaken self.old self.new (Replace unit.0 addr.0) result }
    {
        let _done = self.bus.replace(unit, addr);
        self.accepted += 1;
        Reply {
            what: What::Replaced { addr },
            cut: None,
        }
    }
}
