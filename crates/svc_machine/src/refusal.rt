//! Whether an event would be refused, and why, while nothing changes.

ghost use Rattle.std.specs.Prelude.{◌≡◌, ◌<◌};
ghost use Rattle.svc_bus_laws.specs.BusState.{Agrees};
ghost use Rattle.svc_bus_laws.specs.LineTable.{LineTable};
ghost use Rattle.svc_bus.specs.State.{bus_state};
ghost use Rattle.svc_machine_laws.specs.Standing.{Standing, refusal_of};
ghost use Rattle.svc_machine.specs.Admitted.{IsFound, refused_yet, room_refusal};
ghost use Rattle.svc_machine.specs.Events.{event_of};
ghost use Rattle.svc_machine.specs.Value.{StandsAt};

use crate::admit::Admitted;
use crate::event::Event;
use crate::machine::Machine;
use svc_base::Refusal;
use svc_core::Burst;

impl Machine {
    /// Why the event would be refused, if it would be: exactly the refusal that the table of refusals has for it.
    pub fn refusal(&self, event: Event<'_>) -> Option<Refusal>
        ensures { (s : Standing) → StandsAt self.now s
            → result ≡ refusal_of self.now.image self.now.config s (event_of event.entry) }
    {
        match self.admit(event) {
            Ok(admitted) => self.refused_yet(admitted),
            Err(refusal) => Some(refusal),
        }
    }

    // Why the bus would still refuse what was admitted, if it would.
    fn refused_yet(&self, admitted: Admitted<'_>) -> Option<Refusal>
        requires { IsFound self.now admitted }
        ensures { (t : LineTable) → Agrees (bus_state self.now.bus) t
            → result ≡ refused_yet self.now.image t admitted.entry }
    {
        // a unit with a task is one of the machine's
        let _standing = self.config();
        match admitted {
            Admitted::Assign { .. } => None,
            Admitted::Submit { burst, .. } => self.room_refusal(burst),
            Admitted::Replace { .. } => None,
            Admitted::Cancel { .. } => None,
            Admitted::Commit { .. } => None,
        }
    }

    // Why the unit's cache has no room for the word that a burst asks for, if it has none.
    fn room_refusal(&self, burst: &Burst) -> Option<Refusal>
        requires { burst.now.unit.0 < self.now.config.units }
        ensures { (t : LineTable) → Agrees (bus_state self.now.bus) t
            → result ≡ room_refusal self.now.image t burst.now }
    {
        let addr = self.full_set(burst.unit(), burst.ask())?;
        Some(Refusal::SetFull(addr))
    }
}
