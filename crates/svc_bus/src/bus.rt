//! The bus: what it holds, and how it is opened.

ghost use Rattle.std.specs.Prelude.{◌≡◌, ◌<◌, ◌≤◌, ◌^◌, length, IsTrue, IfOk};
ghost use Rattle.std.specs.Int.{is_power_of_two};
ghost use Rattle.svc_base.specs.declared.config.TheConstants.{MAX_SETS, MAX_WAYS};
ghost use Rattle.svc_vol.specs.declared.list.TheConstants.{CAPACITY};
ghost use Rattle.svc_bus_laws.specs.LineTable.{opening_table};
ghost use Rattle.svc_bus_laws.specs.Steps.{read, write};
ghost use Rattle.svc_bus_laws.specs.BusState.{Agrees};
ghost use Rattle.svc_bus.specs.State.{bus_state};
ghost use Rattle.svc_bus.specs.Opened.{AreEmpty};

use arrayvec::ArrayVec;
use std::alloc::Global;
use std::marker::Model;
use svc_base::OpenError;
use svc_cache::Cache;
use svc_order::TaskQueue;
use svc_retire::Spill;
use svc_vcl::STALE_CAPACITY;
use svc_vol::{HeldLine, VersionList};

/// The bus: it serves one call at a time, and each is one step.
///
/// What callers may know of it is `bus_state`: the lines with their bits, each word's order of dirty
/// lines, spilled values, backing memory and active tasks. The clauses of a step are stated for
/// every line table that agrees with that.
#[derive(Drop)]
pub struct Bus {
    pub(crate) caches: Vec<Cache>,
    pub(crate) spill: Spill,
    pub(crate) backing: Vec<u32>,
    pub(crate) queue: TaskQueue,
    // how many tasks were committed: the head's number
    pub(crate) commits: u64,
    // the look-ups of the last accepted read or write
    pub(crate) probes: u32,
    // The last request's version list, and the lines that the last write changed. They are kept only for their room:
    // each request fills them again, so they say nothing of the bus.
    pub(crate) list: VersionList,
    pub(crate) changed: ArrayVec<HeldLine, STALE_CAPACITY>,
}

impl Model for Bus {
    ghost use Rattle.svc_bus.specs.Value.{BusValue, IsSoundBus};

    ghost Value = { BusValue };

    ghost view = { λ bus. record {
      caches = bus.caches.items;
      spill = bus.spill;
      backing = bus.backing.items;
      units = bus.queue;
      commits = bus.commits;
      probes = bus.probes;
    } };

    ghost invariant = { λ bus. IsSoundBus (record {
      caches = bus.caches.items;
      spill = bus.spill;
      backing = bus.backing.items;
      units = bus.queue;
      commits = bus.commits;
      probes = bus.probes;
    }) };
}

// A cache without lines for each unit.
fn open_caches(alloc: Global, units: u32, sets: u32, ways: u32) -> Result<Vec<Cache>, OpenError>
    requires even_sets { IsTrue (is_power_of_two sets) }
    requires few_sets { sets ≤ MAX_SETS }
    requires some_ways { 1 ≤ ways }
    requires few_ways { ways ≤ MAX_WAYS }
    ensures count { IfOk result (λ caches. length caches.items ≡ units) }
    ensures empty { IfOk result (λ caches. AreEmpty caches.items sets ways) }
{
    let Ok(mut caches) = Vec::with_capacity(alloc, units as usize) else {
        return Err(OpenError::Memory);
    };
    for _ in 0..units {
        let cache = Cache::open(alloc, sets, ways)?;
        let Ok(()) = caches.push(cache) else {
            return Err(OpenError::Memory);
        };
    }
    Ok(caches)
}

impl Bus {
    /// A bus over `units` caches of `sets` times `ways` lines each, without lines or tasks, over this memory. It
    /// allocates all that it will ever need; no other call takes memory.
    ///
    /// Errors: [`OpenError::Memory`].
    #[tactic(auto, unfolding(crate::specs::State::bus_state))]
    pub fn open(
        alloc: Global,
        units: u32,
        sets: u32,
        ways: u32,
        memory: Vec<u32>,
    ) -> Result<Bus, OpenError>
        requires some_units { 1 ≤ units }
        requires few_units { units ≤ CAPACITY }
        requires even_sets { IsTrue (is_power_of_two sets) }
        requires few_sets { sets ≤ MAX_SETS }
        requires some_ways { 1 ≤ ways }
        requires few_ways { ways ≤ MAX_WAYS }
        requires few_words { length memory.items < 2 ^ 32 }
        ensures table { IfOk result (λ bus. Agrees (bus_state bus) (opening_table units sets ways memory.items)) }
        ensures probes { IfOk result (λ bus. (bus_state bus).probes ≡ 0) }
    {
        let caches = open_caches(alloc, units, sets, ways)?;
        let spill = Spill::open(alloc, memory.len())?;
        Ok(Bus {
            caches,
            spill,
            backing: memory,
            queue: TaskQueue::new(),
            commits: 0,
            probes: 0,
            list: VersionList::new(),
            changed: ArrayVec::new(),
        })
    }
}
