//! A bus request: a line of the word is put into the asking unit's cache, and the word is purged.

ghost use Rattle.std.specs.Prelude.{◌≡◌, ◌≢◌, ℕ, ◌+◌, ◌*◌, ◌<◌, ◌≤◌, ◌==◌, Bool, true, false, Option, Some, None};
ghost use Rattle.std.specs.Prelude.{length, get_or, OnOk, OnErr, MatchResult};
ghost use Rattle.svc_line.specs.Bits.{bits_of, is_committed};
ghost use Rattle.svc_line.specs.Line.{seen_line};
ghost use Rattle.svc_cache.specs.Places.{line_of};
ghost use Rattle.svc_cache.specs.Lines.{EndsBelow};
ghost use Rattle.svc_vcl.specs.Planned.{is_named};
ghost use Rattle.svc_bus_laws.specs.Refusals.{is_head};
ghost use Rattle.svc_bus_laws.specs.Steps.{with_at};
ghost use Rattle.svc_retire.specs.Caches.{cache_at, held_line, SameSizes};
ghost use Rattle.svc_retire.specs.Purges.{committed_in, purged_line, purges, CountsSearches, HasRoomFor};
ghost use Rattle.svc_bus.specs.Lines.{with_line};
ghost use Rattle.svc_bus.specs.Requests.{IsBusRequest};
ghost use Rattle.svc_bus.specs.Room.{full_in};

use svc_base::{UnitId, WordAddr};
use svc_cache::{Cache, Probes, SetFull};
use svc_line::Line;
use svc_order::TaskQueue;
use svc_retire::purge;
use svc_vol::{HeldLine, VersionList};

/// The unit runs the head.
pub(crate) fn is_head(queue: &TaskQueue, unit: UnitId) -> bool
    ensures { result ≡ is_head queue.now unit.0 }
{
    match queue.head() {
        Some(head) => head.0 == unit.0,
        None => false,
    }
}

/// The place of the unit's task.
pub(crate) fn place_of(queue: &TaskQueue, unit: UnitId) -> usize
    requires { (p : ℕ) × (p < length queue.now) × (get_or queue.now p 0 ≡ unit.0) }
    ensures within { result < length queue.now }
    ensures at_work { get_or queue.now result 0 ≡ unit.0 }
{
    match queue.position(unit) {
        Some(place) => place,
        None => unreachable!(),
    }
}

/// The line of the word is put into the unit's cache. The other lines stay.
pub(crate) fn fill_in(
    caches: &mut [Cache],
    unit: UnitId,
    word: WordAddr,
    line: Line,
    probes: &mut Probes,
) -> Result<(), SetFull>
    requires known { unit.0 < length caches.old }
    requires valid { (bits_of line.bits).valid ≡ true }
    requires room { HasRoomFor probes.old caches.old 1 }
    ensures refused { (bound : ℕ) → EndsBelow (line_of (cache_at caches.old unit.0)) bound
        → MatchResult result (λ _. full_in caches.old unit.0 bound word.0 ≡ None)
        (λ e. full_in caches.old unit.0 bound word.0 ≡ Some e.0.0) }
    ensures unchanged { OnErr result (caches.new ≡ caches.old) }
    ensures lines { OnOk result ((u a : ℕ) → held_line caches.new u a
        ≡ with_line (held_line caches.old) unit.0 word.0 (Some (seen_line line)) (λ other. other) u a) }
    ensures others { OnOk result ((u : ℕ) → u ≢ unit.0 → cache_at caches.new u ≡ cache_at caches.old u) }
    ensures sizes { SameSizes caches.old caches.new }
    ensures counted { CountsSearches probes.old probes.new 1 }
{
    caches[unit.0 as usize].fill(word, line, probes)
}

// The unit's line of the word becomes invalid. The other lines stay.
fn drop_in(caches: &mut [Cache], unit: UnitId, word: WordAddr, probes: &mut Probes)
    requires known { unit.0 < length caches.old }
    requires room { HasRoomFor probes.old caches.old 1 }
    ensures lines { (u a : ℕ) → held_line caches.new u a ≡ with_line (held_line caches.old) unit.0 word.0 None
        (λ other. other) u a }
    ensures sizes { SameSizes caches.old caches.new }
    ensures counted { CountsSearches probes.old probes.new 1 }
{
    caches[unit.0 as usize].drop_line(word, probes);
}

// One of the lines is the unit's.
fn has_line_of(lines: &[HeldLine], unit: UnitId) -> bool
    ensures { result ≡ is_named lines.now unit.0 }
{
    lines.iter().any(|held| held.unit.0 == unit.0)
}

/// A bus request of the unit for the word: its line of the word becomes this one, and the word is purged in the other
/// caches. If the unit's cache has no line of the word and no room for one, nothing changes.
///
/// `list` is the version list of the word. There is one search for the line, and one for each line that becomes
/// invalid.
pub(crate) fn put_line(
    caches: &mut [Cache],
    backing: &mut [u32],
    list: &VersionList,
    unit: UnitId,
    word: WordAddr,
    line: Line,
    probes: &mut Probes,
) -> Result<(), SetFull>
    requires request { IsBusRequest caches.old backing.old list.now unit.0 word.0 }
    requires ends { EndsBelow (line_of (cache_at caches.old unit.0)) (length backing.old) }
    requires valid { (bits_of line.bits).valid ≡ true }
    requires active { (bits_of line.bits).commit ≡ false }
    requires room { HasRoomFor probes.old caches.old (1 + length caches.old) }
    ensures refused { MatchResult result (λ _. full_in caches.old unit.0 (length backing.old) word.0 ≡ None)
        (λ e. full_in caches.old unit.0 (length backing.old) word.0 ≡ Some e.0.0) }
    ensures same_caches { OnErr result (caches.new ≡ caches.old) }
    ensures same_memory { OnErr result (backing.new ≡ backing.old) }
    ensures lines { OnOk result ((u a : ℕ) → held_line caches.new u a
        ≡ with_line (held_line caches.old) unit.0 word.0 (Some (seen_line line)) purged_line u a) }
    ensures memory { OnOk result ((a : ℕ) → get_or backing.new a 0
        ≡ with_at (λ x. get_or backing.old x 0) word.0 (committed_in caches.old backing.old word.0) a) }
    ensures sizes { SameSizes caches.old caches.new }
    ensures counted { OnOk result (CountsSearches probes.old probes.new (purges caches.old (Some unit) word.0 + 1)) }
{
    if has_line_of(list.committed(), unit) {
        // The line goes over the unit's committed one, so it finds room.
        purge(caches, backing, list, word, Some(unit), probes);
        return fill_in(caches, unit, word, line, probes);
    }
    fill_in(caches, unit, word, line, probes)?;
    purge(caches, backing, list, word, Some(unit), probes);
    Ok(())
}

/// The unit's line of the word is removed, and the word is purged in all caches.
pub(crate) fn take_line(
    caches: &mut [Cache],
    backing: &mut [u32],
    list: &VersionList,
    unit: UnitId,
    word: WordAddr,
    probes: &mut Probes,
)
    requires request { IsBusRequest caches.old backing.old list.now unit.0 word.0 }
    requires room { HasRoomFor probes.old caches.old (1 + length caches.old) }
    ensures lines { (u a : ℕ) → held_line caches.new u a ≡ with_line
        (held_line caches.old) unit.0 word.0 None purged_line u a }
    ensures memory { (a : ℕ) → get_or backing.new a 0 ≡ with_at (λ x. get_or backing.old x 0) word.0
        (committed_in caches.old backing.old word.0) a }
    ensures sizes { SameSizes caches.old caches.new }
{
    purge(caches, backing, list, word, Some(unit), probes);
    drop_in(caches, unit, word, probes);
}
