//! The version list of a word.

ghost use Rattle.std.specs.Prelude.{◌≡◌, ◌<◌, ◌≤◌, ◌+◌, ℕ, [], true, IsTrue, IsFalse, length, map, get_or, option_map};
ghost use Rattle.svc_line.specs.Line.{seen_line};
ghost use Rattle.svc_cache.specs.Places.{CacheValue, line_of};
ghost use Rattle.svc_cache.specs.Probes.{CountsOneSearch, HasRoom};
ghost use Rattle.svc_vol.specs.Lines.{AreValid, CanBeListed, CountsEachOther, CountsOneOfEach, HasRoomForEach};
ghost use Rattle.svc_vol.specs.Lines.{IsRanked};
ghost use Rattle.svc_vol.specs.Lines.{lines_found, lines_in, versions_of};
ghost use Rattle.svc_vol.specs.Listed.{AreCopies, IsCopyIn, ListsAfter};
ghost use Rattle.svc_vol.specs.Value.{AreCommitted, IsListOf, active_lines, seen_held_line};

use crate::held_line::HeldLine;
use crate::walk::oldest_first;
use arrayvec::ArrayVec;
use std::marker::Model;
use svc_base::config::MAX_UNITS;
use svc_base::{UnitId, WordAddr};
use svc_cache::{Cache, Probes};
use svc_line::Line;
use svc_order::TaskQueue;

/// How many lines a word can have: as many as there can be units.
pub const CAPACITY: usize = MAX_UNITS as usize;

/// The valid lines of a word, in order: the committed ones, then the active ones.
///
/// Among the committed lines those that were stored to are in the order of their tasks, oldest
/// first. An active line is at the place of its task in the queue.
///
/// A list may be filled again and again, for any word: it reuses its places.
#[derive(Drop)]
pub struct VersionList {
    // What a search finds in each cache, and the units of the committed versions, oldest first.
    found: ArrayVec<Option<Line>, CAPACITY>,
    order: ArrayVec<usize, CAPACITY>,
    committed: ArrayVec<HeldLine, CAPACITY>,
    active: ArrayVec<Option<HeldLine>, CAPACITY>,
}

impl Model for VersionList {
    ghost use Rattle.svc_vol.specs.Value.{ListValue};

    ghost Value = { ListValue };

    ghost view = { λ list. record { committed = list.committed.items; active = list.active.items } };
}

// The line, if it is committed and was not stored to.
fn copy_in(line: &Option<Line>) -> Option<Line>
    ensures { IsCopyIn line.now result }
{
    match line {
        Some(line) if line.bits.is_committed() && !line.bits.is_dirty() => Some(*line),
        _ => None,
    }
}

// One look-up in each cache for the word's line.
fn find(
    found: &mut ArrayVec<Option<Line>, CAPACITY>,
    caches: &[Cache],
    word: WordAddr,
    probes: &mut Probes,
)
    requires few { length caches.now ≤ CAPACITY }
    requires room { HasRoomForEach probes.old caches.now }
    ensures lines { map (option_map seen_line) found.new.items ≡ map
        (λ (cache : CacheValue). line_of cache word.0) caches.now }
    ensures counted { CountsOneOfEach probes.old probes.new caches.now }
{
    found.clear();
    for cache in caches {
        found.push(cache.lookup(word, probes));
    }
}

// The word's line in a cache. The cache is searched only if the line isn't known.
fn line_beside(
    cache: &Cache,
    word: WordAddr,
    is_known: bool,
    line: Option<Line>,
    probes: &mut Probes,
) -> Option<Line>
    requires room { HasRoom probes.old cache.now.ways }
    ensures known { IsTrue is_known → (result ≡ line) × (probes.new ≡ probes.old) }
    ensures found { IsFalse is_known → (option_map seen_line result ≡ line_of cache.now word.0)
        × CountsOneSearch probes.old probes.new cache.now.ways }
{
    if is_known {
        line
    } else {
        cache.lookup(word, probes)
    }
}

// The same for all caches but the unit's, whose line is known.
fn find_others(
    found: &mut ArrayVec<Option<Line>, CAPACITY>,
    caches: &[Cache],
    word: WordAddr,
    unit: UnitId,
    line: Option<Line>,
    probes: &mut Probes,
)
    requires few { length caches.now ≤ CAPACITY }
    requires known { unit.0 < length caches.now }
    requires line { lines_in caches.now word.0 unit.0 ≡ option_map seen_line line }
    requires room { HasRoomForEach probes.old caches.now }
    ensures lines { map (option_map seen_line) found.new.items ≡ map
        (λ (cache : CacheValue). line_of cache word.0) caches.now }
    ensures counted { CountsEachOther probes.old probes.new caches.now }
{
    found.clear();
    for cache in caches {
        let is_known = found.len() == unit.0 as usize;
        found.push(line_beside(cache, word, is_known, line, probes));
    }
}

// The committed lines that were not stored to, by unit.
fn list_copies(committed: &mut ArrayVec<HeldLine, CAPACITY>, found: &[Option<Line>])
    requires few { length found.now ≤ CAPACITY }
    ensures { AreCopies (lines_found found.now) (length found.now) committed.new.items }
{
    committed.clear();
    for unit in 0..found.len() {
        if let Some(line) = copy_in(&found[unit]) {
            committed.push(HeldLine {
                unit: UnitId(unit as u8),
                line,
            });
        }
    }
}

// The lines of these units, in their order.
fn list_versions(
    committed: &mut ArrayVec<HeldLine, CAPACITY>,
    order: &[usize],
    found: &[Option<Line>],
)
    requires known { (i : ℕ) → i < length order.now → versions_of (lines_found found.now)
        (get_or order.now i 0) ≡ true }
    requires few { length found.now ≤ CAPACITY }
    requires room { length committed.old.items + length order.now ≤ CAPACITY }
    ensures { ListsAfter (lines_found found.now) committed.old.items order.now
        (length order.now) committed.new.items }
{
    for unit in order {
        if let Some(line) = found[*unit] {
            committed.push(HeldLine {
                unit: UnitId(*unit as u8),
                line,
            });
        }
    }
}

// The committed lines among those found: the clean ones, and then the versions, oldest first.
fn list_committed(
    committed: &mut ArrayVec<HeldLine, CAPACITY>,
    order: &mut ArrayVec<usize, CAPACITY>,
    found: &[Option<Line>],
)
    requires few { length found.now ≤ CAPACITY }
    requires valid { AreValid (lines_found found.now) }
    requires ranked { IsRanked (length found.now) (lines_found found.now) }
    ensures { AreCommitted (lines_found found.now) (length found.now) committed.new.items }
{
    oldest_first(order, found);
    list_copies(committed, found);
    list_versions(committed, order, found);
}

// The active lines among those found, by the places of their tasks.
fn list_active(
    active: &mut ArrayVec<Option<HeldLine>, CAPACITY>,
    found: &[Option<Line>],
    queue: &TaskQueue,
)
    requires known { (place : ℕ) → place < length queue.now → get_or queue.now place 0 < length found.now }
    ensures { map (option_map seen_held_line) active.new.items ≡ active_lines (lines_found found.now) queue.now }
{
    active.clear();
    for place in 0..queue.len() {
        let unit = queue.unit_at(place);
        active.push(HeldLine::if_active(unit, found[unit.0 as usize]));
    }
}

// The valid lines among those found, in order.
fn list_found(
    committed: &mut ArrayVec<HeldLine, CAPACITY>,
    active: &mut ArrayVec<Option<HeldLine>, CAPACITY>,
    order: &mut ArrayVec<usize, CAPACITY>,
    found: &[Option<Line>],
    queue: &TaskQueue,
)
    requires few { length found.now ≤ CAPACITY }
    requires known { (place : ℕ) → place < length queue.now → get_or queue.now place 0 < length found.now }
    requires valid { AreValid (lines_found found.now) }
    requires ranked { IsRanked (length found.now) (lines_found found.now) }
    ensures list { IsListOf (lines_found found.now) (length found.now) queue.now
        (record { committed = committed.new.items; active = active.new.items }) }
{
    list_committed(committed, order, found);
    list_active(active, found, queue);
}

impl VersionList {
    /// An empty list.
    pub fn new() -> VersionList
        ensures committed { result.committed ≡ [] }
        ensures active { result.active ≡ [] }
    {
        VersionList {
            found: ArrayVec::new(),
            order: ArrayVec::new(),
            committed: ArrayVec::new(),
            active: ArrayVec::new(),
        }
    }

    /// The valid lines of the word. Each cache is searched once.
    pub fn of(
        caches: &[Cache],
        queue: &TaskQueue,
        word: WordAddr,
        probes: &mut Probes,
    ) -> VersionList
        requires listed { CanBeListed caches.now queue.now word.0 }
        requires room { HasRoomForEach probes.old caches.now }
        ensures list { IsListOf (lines_in caches.now word.0) (length caches.now) queue.now result }
        ensures counted { CountsOneOfEach probes.old probes.new caches.now }
    {
        let mut list = VersionList::new();
        list.fill(caches, queue, word, probes);
        list
    }

    /// The list becomes that of the valid lines of the word. Each cache is searched once.
    pub fn fill(&mut self, caches: &[Cache], queue: &TaskQueue, word: WordAddr, probes: &mut Probes)
        requires listed { CanBeListed caches.now queue.now word.0 }
        requires room { HasRoomForEach probes.old caches.now }
        ensures list { IsListOf (lines_in caches.now word.0) (length caches.now) queue.now self.new }
        ensures counted { CountsOneOfEach probes.old probes.new caches.now }
    {
        find(&mut self.found, caches, word, probes);
        list_found(
            &mut self.committed,
            &mut self.active,
            &mut self.order,
            &self.found,
            queue,
        );
    }

    /// The same, if the unit's line is known already. Each other cache is searched once.
    pub fn fill_beside(
        &mut self,
        caches: &[Cache],
        queue: &TaskQueue,
        word: WordAddr,
        unit: UnitId,
        line: Option<Line>,
        probes: &mut Probes,
    )
        requires listed { CanBeListed caches.now queue.now word.0 }
        requires cached { unit.0 < length caches.now }
        requires line { lines_in caches.now word.0 unit.0 ≡ option_map seen_line line }
        requires room { HasRoomForEach probes.old caches.now }
        ensures list { IsListOf (lines_in caches.now word.0) (length caches.now) queue.now self.new }
        ensures counted { CountsEachOther probes.old probes.new caches.now }
    {
        find_others(&mut self.found, caches, word, unit, line, probes);
        list_found(
            &mut self.committed,
            &mut self.active,
            &mut self.order,
            &self.found,
            queue,
        );
    }

    /// The committed lines. Of those that were stored to, the oldest is the first.
    pub fn committed(&self) -> &[HeldLine]
        ensures lines { result.now ≡ self.now.committed }
        ensures capacity { length result.now ≤ CAPACITY }
    {
        &self.committed
    }

    /// The active lines, each at the place of its task in the queue.
    pub fn active(&self) -> &[Option<HeldLine>]
        ensures lines { result.now ≡ self.now.active }
        ensures capacity { length result.now ≤ CAPACITY }
    {
        &self.active
    }
}
