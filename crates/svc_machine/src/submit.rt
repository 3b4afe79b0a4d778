//! A burst.

ghost use Rattle.std.specs.Prelude.{◌≡◌, ◌≤◌, ◌-◌, Some};
ghost use Rattle.svc_machine_laws.specs.Blame.{tasks_cut};
ghost use Rattle.svc_machine_laws.specs.Events.{Submit, seat_place};
ghost use Rattle.svc_machine.specs.Admitted.{IsAdmitted};
ghost use Rattle.svc_machine.specs.Refusing.{machine_at};
ghost use Rattle.svc_machine.specs.Steps.{IsStep};

use crate::asked::do_asked;
use crate::check::check_guess;
use crate::machine::Machine;
use svc_base::Refusal;
use svc_core::Burst;
use svc_machine_laws::{Cut, Reply};

impl Machine {
    // Takes the burst's local turns over into the unit's seat, which is at this place, and then does the asked turn, if
    // there is one. If the task has then ended, it checks the guess for the next one, and reports a wrong guess instead
    // of a later victim.
    //
    // Errors: the bus's, if the unit's cache has no room for the asked word. Then nothing changes.
    pub(crate) fn submit(&mut self, place: usize, burst: &Burst) -> Result<Reply, Refusal>
        requires admitted { IsAdmitted self.old burst.now }
        requires found { seat_place (machine_at self.old) burst.now.unit.0 ≡ Some place }
        ensures { IsStep self.old self.new (Submit burst.now) result }
    {
        let count = self.seats.len();
        let seat = &mut self.seats[place];
        let reply = do_asked(&self.image, &mut self.bus, seat, burst.end(), burst.ask())?;
        let left = tasks_left(count, reply.cut);
        self.seats.truncate(left);
        self.sequencer.cut_from(left);
        let wrong = check_guess(
            &mut self.bus,
            &mut self.sequencer,
            &mut self.seats,
            self.commits,
            count,
            place,
        );
        self.accepted += 1;
        Ok(Reply {
            what: reply.what,
            cut: wrong.or(reply.cut),
        })
    }
}

// How many of these tasks the cut leaves.
fn tasks_left(count: usize, cut: Option<Cut>) -> usize
    requires { tasks_cut cut ≤ count }
    ensures { result ≡ count - tasks_cut cut }
{
    match cut {
        Some(cut) => count - cut.tasks as usize,
        None => count,
    }
}
