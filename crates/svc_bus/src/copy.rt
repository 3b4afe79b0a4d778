//! A bus becomes equal to another one.

ghost use Rattle.std.specs.Prelude.{◌≡◌, ◌<◌, ℕ, length};
ghost use Rattle.svc_retire.specs.Caches.{cache_at};
ghost use Rattle.svc_bus.specs.State.{bus_state};
ghost use Rattle.svc_bus.specs.Sizes.{AreOfOneSize};

use crate::Bus;
use svc_cache::Cache;

// Each cache becomes equal to the other one of its unit.
fn copy_caches(caches: &mut [Cache], others: &[Cache])
    requires count { length caches.old ≡ length others.now }
    requires sets { (u : ℕ) → u < length others.now → (cache_at caches.old u).sets ≡ (cache_at others.now u).sets }
    requires ways { (u : ℕ) → u < length others.now → (cache_at caches.old u).ways ≡ (cache_at others.now u).ways }
    ensures { caches.new ≡ others.now }
{
    for unit in 0..others.len() {
        caches[unit].copy_from(&others[unit]);
    }
}

impl Bus {
    /// It becomes equal to another bus of its size. It takes no memory.
    #[tactic(auto, unfolding(crate::specs::State::bus_state))]
    pub fn copy_from(&mut self, other: &Bus)
        requires { AreOfOneSize (bus_state self.old) (bus_state other.now) }
        ensures { self.new ≡ other.now }
    {
        copy_caches(&mut self.caches, &other.caches);
        self.spill.copy_from(&other.spill);
        self.backing.copy_from_slice(&other.backing);
        self.queue.copy_from(&other.queue);
        self.commits = other.commits;
        self.probes = other.probes;
    }
}
