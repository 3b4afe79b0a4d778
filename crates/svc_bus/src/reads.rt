//! What a bus shows without changing: its sizes, active tasks, memory, spilled words, lines and full sets.

ghost use Rattle.std.specs.Prelude.{◌≡◌, ◌<◌, true, Option, option_map, length, get_or, IfSome};
ghost use Rattle.svc_line.specs.Bits.{bits_of};
ghost use Rattle.svc_bus_laws.specs.LineTable.{LineTable, committed_value};
ghost use Rattle.svc_bus_laws.specs.BusState.{Agrees, without_number};
ghost use Rattle.svc_bus_laws.specs.BusView.{bus_newest};
ghost use Rattle.svc_bus_laws.specs.Refusals.{bus_cache, set_full};
ghost use Rattle.svc_bus.specs.State.{bus_state};
ghost use Rattle.svc_bus.specs.Calls.{line_shown};

use crate::Bus;
use svc_base::{UnitId, WordAddr};
use svc_cache::Probes;
use svc_line::LineBits;
use svc_retire::purging::newest_value;
use svc_vol::VersionList;

impl Bus {
    /// How many units share the bus, each with a cache of its own.
    #[tactic(auto, unfolding(crate::specs::State::bus_state))]
    pub fn units(&self) -> usize
        ensures count { result ≡ (bus_state self.now).caches }
    {
        self.caches.len()
    }

    /// How many words the memory has.
    #[tactic(auto, unfolding(crate::specs::State::bus_state))]
    pub fn words(&self) -> usize
        ensures count { result ≡ (bus_state self.now).words }
    {
        self.backing.len()
    }

    /// How many tasks are active.
    #[tactic(auto, unfolding(crate::specs::State::bus_state))]
    pub fn active_tasks(&self) -> usize
        ensures count { result ≡ length (bus_state self.now).units }
    {
        self.queue.len()
    }

    /// The unit of the active task at a position, counted from 0, which is the head's.
    #[tactic(auto, unfolding(crate::specs::State::bus_state))]
    pub fn unit_at(&self, position: usize) -> UnitId
        requires active { position < length (bus_state self.now).units }
        ensures unit { result.0 ≡ get_or (bus_state self.now).units position 0 }
    {
        self.queue.unit_at(position)
    }

    /// The word that the committed tasks have left: that of the newest committed dirty line, otherwise the backing
    /// word.
    #[tactic(auto, unfolding(crate::specs::State::bus_state))]
    pub fn committed_memory(&self, word: WordAddr) -> u32
        requires in_memory { word.0 < (bus_state self.now).words }
        ensures value { (t : LineTable) → Agrees (bus_state self.now) t → result ≡ committed_value t word.0 }
    {
        let list = VersionList::of(&self.caches, &self.queue, word, &mut Probes::new());
        match newest_value(list.committed()) {
            Some(value) => value,
            None => self.backing(word),
        }
    }

    /// The unit whose line is the newest committed dirty one of the word, if there is one.
    #[tactic(auto, unfolding(crate::specs::State::bus_state))]
    pub fn newest_committed(&self, word: WordAddr) -> Option<UnitId>
        requires in_memory { word.0 < (bus_state self.now).words }
        ensures unit { option_map (λ unit. unit.0) result ≡ bus_newest (bus_state self.now) word.0 }
    {
        let list = VersionList::of(&self.caches, &self.queue, word, &mut Probes::new());
        match svc_vcl::newest_version(list.committed()) {
            Some(version) => Some(version.unit),
            None => None,
        }
    }

    /// The word in the backing memory itself.
    #[tactic(auto, unfolding(crate::specs::State::bus_state))]
    pub fn backing(&self, word: WordAddr) -> u32
        requires in_memory { word.0 < (bus_state self.now).words }
        ensures value { (t : LineTable) → Agrees (bus_state self.now) t → result ≡ t.backing word.0 }
    {
        self.backing[word.0 as usize]
    }

    /// The head's version of the word whose line was replaced, if any.
    #[tactic(auto, unfolding(crate::specs::State::bus_state))]
    pub fn spilled_version(&self, word: WordAddr) -> Option<u32>
        requires in_memory { word.0 < (bus_state self.now).words }
        ensures value { (t : LineTable) → Agrees (bus_state self.now) t → result ≡ t.spill word.0 }
    {
        self.spill.get(word)
    }

    /// The bits and the value of the unit's valid line of the word; only named bits are set.
    #[tactic(auto, unfolding(crate::specs::State::bus_state))]
    pub fn line_at(&self, unit: UnitId, word: WordAddr) -> Option<(LineBits, u32)>
        requires known { unit.0 < (bus_state self.now).caches }
        ensures line { (t : LineTable) → Agrees (bus_state self.now) t
            → option_map line_shown result ≡ without_number (t.lines unit.0 word.0) }
        ensures valid { IfSome result (λ line. (bits_of line.0).valid ≡ true) }
        ensures named { IfSome result (λ line. (bits_of line.0).unnamed ≡ 0) }
    {
        let line = self.caches[unit.0 as usize].lookup(word, &mut Probes::new())?;
        Some((line.bits.named_bits(), line.value))
    }

    /// The word to replace first before the unit can read or write this word, if its set is full.
    #[tactic(auto, unfolding(crate::specs::State::bus_state))]
    pub fn set_full(&self, unit: UnitId, word: WordAddr) -> Option<WordAddr>
        requires known { unit.0 < (bus_state self.now).caches }
        ensures address { option_map (λ named. named.0) result
            ≡ set_full (bus_cache (bus_state self.now) unit.0) word.0 }
    {
        self.caches[unit.0 as usize].full(word, &mut Probes::new())
    }

    /// How many tasks were committed. The contract also says that some line table agrees with the bus, so that a caller
    /// who is given a bus can use the clauses of its calls.
    #[tactic(auto, unfolding(crate::specs::State::bus_state))]
    pub fn committed_tasks(&self) -> u64
        ensures count { result ≡ (bus_state self.now).commits }
        ensures agrees { (t : LineTable) × Agrees (bus_state self.now) t }
    {
        self.commits
    }

    /// How many cache look-ups the last accepted read or write made, each the search of one cache's set; 0 before the
    /// first.
    #[tactic(auto, unfolding(crate::specs::State::bus_state))]
    pub fn last_probes(&self) -> u32
        ensures count { result ≡ (bus_state self.now).probes }
    {
        self.probes
    }
}
