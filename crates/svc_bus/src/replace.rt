//! A replacement: a line leaves its cache.

ghost use Rattle.std.specs.Prelude.{◌≡◌, ℕ, ◌<◌, true, not, ◌&&◌, Some, None, OnOk, OnErr, MatchResult, length, get_or};
ghost use Rattle.std.specs.Option.{option_or};
ghost use Rattle.svc_line.specs.Bits.{bits_of};
ghost use Rattle.svc_line.specs.Line.{seen_line};
ghost use Rattle.svc_bus_laws.specs.LineTable.{LineTable};
ghost use Rattle.svc_bus_laws.specs.Refusals.{is_head};
ghost use Rattle.svc_bus_laws.specs.Steps.{replace, with_at};
ghost use Rattle.svc_bus_laws.specs.BusLine.{version_of_line};
ghost use Rattle.svc_bus_laws.specs.BusState.{Agrees};
ghost use Rattle.svc_vcl.specs.Described.{bus_line_of};
ghost use Rattle.svc_bus.specs.State.{bus_state};
ghost use Rattle.svc_bus.specs.Calls.{replace_refusal};

use crate::Bus;
use crate::request::{is_head, take_line};
use svc_base::{Refusal, UnitId, WordAddr};
use svc_cache::Probes;
use svc_line::Line;
use svc_order::TaskQueue;
use svc_retire::Spill;

// The line that was replaced goes to the spill table if it is an active task's version.
fn spill_version(spill: &mut Spill, word: WordAddr, line: &Line)
    requires known { word.0 < length spill.old }
    requires valid { (bits_of line.now.bits).valid ≡ true }
    ensures versions { (a : ℕ) → get_or spill.new a None ≡ with_at (λ x. get_or spill.old x None) word.0
        (option_or (version_of_line (bus_line_of (Some (seen_line line.now)))) (get_or spill.old word.0 None)) a }
    ensures size { length spill.new ≡ length spill.old }
{
    if line.bits.is_active() && line.bits.is_dirty() {
        spill.put(word, line.value);
    }
}

// The line is active, and its unit doesn't run the head.
fn is_pinned(queue: &TaskQueue, unit: UnitId, line: &Line) -> bool
    requires { (bits_of line.now.bits).valid ≡ true }
    ensures { result ≡ (not (bits_of line.now.bits).commit && not (is_head queue.now unit.0)) }
{
    line.bits.is_active() && !is_head(queue, unit)
}

impl Bus {
    /// The unit's line of the word is removed from its cache; a version of the head goes to the
    /// spill table.
    ///
    /// Errors: [`Refusal::NotResident`] if the unit has no valid line of the word;
    /// [`Refusal::Pinned`] if the line is active and the unit doesn't run the head. Then nothing
    /// changes.
    #[tactic(auto, unfolding(crate::specs::State::bus_state))]
    pub fn replace(&mut self, unit: UnitId, word: WordAddr) -> Result<(), Refusal>
        requires known { unit.0 < (bus_state self.old).caches }
        ensures refused { MatchResult result (λ _. replace_refusal (bus_state self.old) unit.0 word.0 ≡ None)
            (λ e. replace_refusal (bus_state self.old) unit.0 word.0 ≡ Some e) }
        ensures unchanged { OnErr result (self.new ≡ self.old) }
        ensures table { (t : LineTable) → Agrees (bus_state self.old) t
            → OnOk result (Agrees (bus_state self.new) (replace t unit.0 word.0)) }
        ensures probes { (bus_state self.new).probes ≡ (bus_state self.old).probes }
    {
        let mut probes = Probes::new();
        let Some(line) = self.caches[unit.0 as usize].lookup(word, &mut probes) else {
            return Err(Refusal::NotResident);
        };
        if is_pinned(&self.queue, unit, &line) {
            return Err(Refusal::Pinned);
        }
        self.list.fill(&self.caches, &self.queue, word, &mut probes);
        take_line(
            &mut self.caches,
            &mut self.backing,
            &self.list,
            unit,
            word,
            &mut probes,
        );
        spill_version(&mut self.spill, word, &line);
        Ok(())
    }
}
