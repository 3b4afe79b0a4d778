//! Tasks begin, commit and are squashed.

ghost use Rattle.std.specs.Prelude.{◌≡◌, ℕ, ◌<◌, ◌^◌, false, length};
ghost use Rattle.svc_bus_laws.specs.LineTable.{LineTable};
ghost use Rattle.svc_bus_laws.specs.Steps.{begin, commit, squash};
ghost use Rattle.svc_bus_laws.specs.BusState.{Agrees};
ghost use Rattle.svc_bus_laws.specs.Refusals.{is_head};
ghost use Rattle.svc_bus.specs.State.{bus_state};
ghost use Rattle.svc_bus.specs.Calls.{IsAtWork, RunsAt};

use crate::Bus;
use svc_base::UnitId;
use svc_retire::{commit_lines, squash_lines};

impl Bus {
    /// The idle unit's new task begins, as the youngest.
    #[tactic(auto, unfolding(crate::specs::State::bus_state))]
    pub fn begin(&mut self, unit: UnitId)
        requires known { unit.0 < (bus_state self.old).caches }
        requires idle { ¬ IsAtWork (bus_state self.old) unit.0 }
        ensures table { (t : LineTable) → Agrees (bus_state self.old) t → Agrees (bus_state self.new) (begin t unit.0) }
        ensures probes { (bus_state self.new).probes ≡ (bus_state self.old).probes }
    {
        self.queue.push(unit);
    }

    /// The head is committed: its lines are committed in place, and spilled versions go to the
    /// backing memory.
    #[tactic(auto, unfolding(crate::specs::State::bus_state))]
    pub fn commit_head(&mut self)
        requires head { 0 < length (bus_state self.old).units }
        requires few { (bus_state self.old).commits < 2 ^ 63 }
        ensures table { (t : LineTable) → Agrees (bus_state self.old) t → Agrees (bus_state self.new) (commit t) }
        ensures probes { (bus_state self.new).probes ≡ (bus_state self.old).probes }
    {
        let unit = self.queue.pop_head();
        commit_lines(&mut self.caches[unit.0 as usize]);
        self.spill.write_back(&mut self.backing);
        self.commits += 1;
    }

    /// The unit's task, which isn't the head, is squashed with all after it.
    #[tactic(auto, unfolding(crate::specs::State::bus_state))]
    pub fn squash_from(&mut self, unit: UnitId)
        requires at_work { IsAtWork (bus_state self.old) unit.0 }
        requires later { is_head (bus_state self.old).units unit.0 ≡ false }
        ensures table { (t : LineTable) → (place : ℕ) → RunsAt (bus_state self.old) unit.0 t place
            → Agrees (bus_state self.new) (squash t place) }
        ensures probes { (bus_state self.new).probes ≡ (bus_state self.old).probes }
    {
        let Some(position) = self.queue.position(unit) else {
            return;
        };
        squash_lines(&mut self.caches, &self.queue, position);
        self.queue.cut_from(position);
    }
}
