//! A read of a word by a task.

ghost use Rattle.std.specs.Option.{ForSome};
ghost use Rattle.std.specs.Prelude.{◌≡◌, ℕ, ◌+◌, ◌<◌, true, false, Some, None, length, get_or, option_map, IfOk};
ghost use Rattle.std.specs.Prelude.{IfSome, OnOk, OnErr, MatchResult};
ghost use Rattle.svc_line.specs.Bits.{bits_of, is_active};
ghost use Rattle.svc_line.specs.Line.{seen_line};
ghost use Rattle.svc_cache.specs.Places.{line_of};
ghost use Rattle.svc_cache.specs.Lines.{EndsBelow};
ghost use Rattle.svc_vol.specs.Lines.{lines_in};
ghost use Rattle.svc_retire.specs.Caches.{cache_at, held_line, SameSizes};
ghost use Rattle.svc_retire.specs.Purges.{committed_in, HasRoomFor};
ghost use Rattle.svc_bus.specs.State.{bus_state};
ghost use Rattle.svc_bus.specs.Requests.{IsBusRequest};
ghost use Rattle.svc_bus.specs.Room.{full_in};
ghost use Rattle.svc_bus.specs.Carried.{is_hit, lines_after, memory_after};
ghost use Rattle.svc_bus.specs.Calls.{IsAtWork};
ghost use Rattle.svc_bus.specs.Looking.{CountsUpTo, IsOne, LookUps};
ghost use Rattle.svc_bus.specs.Reads.{AgreesAfterRead, GivesView, IsRefusedIfFull, NamesSupplier};

use crate::Bus;
use crate::request::{fill_in, place_of, put_line};
use svc_base::{Refusal, Served, UnitId, WordAddr};
use svc_cache::{Cache, Probes, SetFull};
use svc_line::Line;
use svc_vcl::{ReadPlan, plan_read};
use svc_vol::VersionList;

// Carries out what a read plans: a hit changes no line, and a reuse the unit's own.
fn carry_out(
    caches: &mut [Cache],
    backing: &mut [u32],
    list: &VersionList,
    unit: UnitId,
    word: WordAddr,
    plan: &ReadPlan,
    probes: &mut Probes,
) -> Result<(), SetFull>
    requires request { IsBusRequest caches.old backing.old list.now unit.0 word.0 }
    requires ends { EndsBelow (line_of (cache_at caches.old unit.0)) (length backing.old) }
    requires valid { (bits_of plan.now.line.bits).valid ≡ true }
    requires active { (bits_of plan.now.line.bits).commit ≡ false }
    requires room { HasRoomFor probes.old caches.old (1 + length caches.old) }
    ensures refused { MatchResult result (λ _. is_hit plan.now.served ≡ false
        → full_in caches.old unit.0 (length backing.old) word.0 ≡ None)
        (λ e. full_in caches.old unit.0 (length backing.old) word.0 ≡ Some e.0.0) }
    ensures same_caches { OnErr result (caches.new ≡ caches.old) }
    ensures same_memory { OnErr result (backing.new ≡ backing.old) }
    ensures lines { OnOk result ((u a : ℕ) → held_line caches.new u a
        ≡ lines_after plan.now.served (held_line caches.old) unit.0 word.0 (Some (seen_line plan.now.line)) u a) }
    ensures memory { OnOk result ((a : ℕ) → get_or backing.new a 0
        ≡ memory_after plan.now.served (λ x. get_or backing.old x 0) word.0
        (committed_in caches.old backing.old word.0) a) }
    ensures sizes { SameSizes caches.old caches.new }
    ensures searches { OnOk result (CountsUpTo probes.old probes.new (length caches.old)) }
{
    match plan.served {
        Served::Hit => Ok(()),
        Served::Reuse => fill_in(caches, unit, word, plan.line, probes),
        Served::Version(_) | Served::Spill | Served::Committed(_) | Served::Memory => {
            put_line(caches, backing, list, unit, word, plan.line, probes)
        }
    }
}

impl Bus {
    /// The unit's task reads the word: the value of the nearest earlier version, and who supplied it. A hit makes one
    /// look-up, and another read at most two for each unit.
    ///
    /// Errors: [`Refusal::SetFull`] if the unit's cache has no line of the word and no room for
    /// one. Then nothing changes.
    #[tactic(auto, unfolding(crate::specs::State::bus_state))]
    pub fn read(&mut self, unit: UnitId, word: WordAddr) -> Result<(u32, Served), Refusal>
        requires at_work { IsAtWork (bus_state self.old) unit.0 }
        requires in_memory { word.0 < (bus_state self.old).words }
        ensures refused { IsRefusedIfFull (bus_state self.old) unit.0 word.0 result }
        ensures unchanged { OnErr result (self.new ≡ self.old) }
        ensures value { GivesView (bus_state self.old) unit.0 word.0 result }
        ensures served { NamesSupplier (bus_state self.old) unit.0 word.0 result }
        ensures table { AgreesAfterRead (bus_state self.old) (bus_state self.new) unit.0 word.0 result }
        ensures probes { IfOk result (λ r. LookUps r.1 (bus_state self.new).probes (bus_state self.old).caches) }
    {
        let mut look = Probes::new();
        match self.own_line(unit, word, &mut look) {
            Some(line) if line.bits.is_active() => {
                self.probes = look.searches;
                Ok((line.value, Served::Hit))
            }
            line => self.read_beside(unit, word, line, look),
        }
    }

    // The unit's line of the word.
    #[tactic(auto, unfolding(crate::specs::State::bus_state))]
    fn own_line(&self, unit: UnitId, word: WordAddr, probes: &mut Probes) -> Option<Line>
        requires known { unit.0 < (bus_state self.now).caches }
        requires none { (probes.old.searches ≡ 0) × (probes.old.places ≡ 0) }
        ensures line { lines_in self.now.caches word.0 unit.0 ≡ option_map seen_line result }
        ensures valid { IfSome result (λ line. (bits_of line.bits).valid ≡ true) }
        ensures one { IsOne probes.new }
    {
        self.caches[unit.0 as usize].lookup(word, probes)
    }

    // Reads the word once the unit's own line is known to be no hit. It searches the other caches.
    #[tactic(auto, unfolding(crate::specs::State::bus_state))]
    fn read_beside(
        &mut self,
        unit: UnitId,
        word: WordAddr,
        line: Option<Line>,
        mut probes: Probes,
    ) -> Result<(u32, Served), Refusal>
        requires at_work { IsAtWork (bus_state self.old) unit.0 }
        requires in_memory { word.0 < (bus_state self.old).words }
        requires line { lines_in self.old.caches word.0 unit.0 ≡ option_map seen_line line }
        requires idle { ForSome line (λ own. is_active (bits_of own.bits) ≡ false) }
        requires one { IsOne probes }
        ensures refused { IsRefusedIfFull (bus_state self.old) unit.0 word.0 result }
        ensures unchanged { OnErr result (self.new ≡ self.old) }
        ensures value { GivesView (bus_state self.old) unit.0 word.0 result }
        ensures served { NamesSupplier (bus_state self.old) unit.0 word.0 result }
        ensures table { AgreesAfterRead (bus_state self.old) (bus_state self.new) unit.0 word.0 result }
        ensures probes { IfOk result (λ r. LookUps r.1 (bus_state self.new).probes (bus_state self.old).caches) }
    {
        let place = place_of(&self.queue, unit);
        self.list
            .fill_beside(&self.caches, &self.queue, word, unit, line, &mut probes);
        let backing = self.backing[word.0 as usize];
        let plan = plan_read(&self.list, unit, place, self.spill.get(word), backing);
        if let Err(SetFull(named)) = carry_out(
            &mut self.caches,
            &mut self.backing,
            &self.list,
            unit,
            word,
            &plan,
            &mut probes,
        ) {
            return Err(Refusal::SetFull(named));
        }
        self.probes = probes.searches;
        Ok((plan.line.value, plan.served))
    }
}
