//! The committed versions of a word, in their order.

ghost use Rattle.std.specs.Prelude.{◌≡◌, ◌<◌, ◌≤◌, length};
ghost use Rattle.svc_bus.specs.State.{bus_state};
ghost use Rattle.svc_bus.specs.Versions.{AreItsVersions, version_units};

use crate::Bus;
use arrayvec::ArrayVec;
use svc_base::{UnitId, WordAddr};
use svc_cache::Probes;
use svc_vol::{CAPACITY, HeldLine, VersionList};

/// Units, each at most once.
pub type UnitList = ArrayVec<UnitId, CAPACITY>;

// The units of those of a word's committed lines that were stored to.
fn units_of(committed: &[HeldLine]) -> UnitList
    requires few { length committed.now ≤ CAPACITY }
    ensures { result.items ≡ version_units committed.now }
{
    let mut units = ArrayVec::new();
    for held in committed {
        if held.line.bits.is_dirty() {
            units.push(held.unit);
        }
    }
    units
}

impl Bus {
    /// The units that have a committed version of the word, a committed line that was stored to. The unit of the oldest
    /// version is the first.
    #[tactic(auto, unfolding(crate::specs::State::bus_state))]
    pub fn committed_versions(&self, word: WordAddr) -> UnitList
        requires in_memory { word.0 < (bus_state self.now).words }
        ensures order { AreItsVersions (bus_state self.now) word.0 result.items }
    {
        let list = VersionList::of(&self.caches, &self.queue, word, &mut Probes::new());
        units_of(list.committed())
    }
}
