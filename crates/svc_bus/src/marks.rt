//! The marks that a store leaves on other lines of its word: T, and the link of the version before.

ghost use Rattle.std.specs.Prelude.{◌≡◌, ◌<◌, ℕ, ◌==◌, true, ◌&&◌, cond, Some, is_some, length, option_map};
ghost use Rattle.svc_base.specs.declared.ids.UnitId.{UnitId};
ghost use Rattle.svc_line.specs.Bits.{bits_of};
ghost use Rattle.svc_line.specs.Line.{seen_line};
ghost use Rattle.svc_cache.specs.Lines.{EndsBelow};
ghost use Rattle.svc_cache.specs.Places.{line_of};
ghost use Rattle.svc_cache.specs.Probes.{CountsOneSearch, HasRoom};
ghost use Rattle.svc_vcl.specs.Planned.{is_named};
ghost use Rattle.svc_retire.specs.Caches.{held_line, SameSizes};
ghost use Rattle.svc_retire.specs.Purges.{CountsSearches, HasRoomFor};
ghost use Rattle.svc_links_laws.specs.LinkSteps.{is_unit};
ghost use Rattle.svc_bus.specs.Marks.{link_after, overtaken_line, overtaken_where, AreHeld, EndBelow, IsHeld};

use svc_base::{UnitId, WordAddr};
use svc_cache::{Cache, Probes};
use svc_line::Line;
use svc_vol::HeldLine;

/// The store that marks other lines of its word.
#[derive(Clone, Copy)]
pub(crate) struct MarkingStore {
    /// The word.
    pub word: WordAddr,
    /// The unit that stores.
    pub writer: UnitId,
    /// The unit of the version before the stored one.
    pub previous: Option<UnitId>,
}

// The units are the same, if the first is there.
fn is_same(unit: Option<UnitId>, other: UnitId) -> bool
    ensures { result ≡ is_unit (option_map (λ (u : UnitId). u.0) unit) other.0 }
{
    match unit {
        Some(unit) => unit.0 == other.0,
        None => false,
    }
}

// The line with T, linked to the writer if its version is the one before the stored one.
fn overtaken_line(held: &HeldLine, mark: &MarkingStore) -> Line
    ensures line { Some (seen_line result) ≡ overtaken_line (option_map (λ (u : UnitId). u.0) mark.now.previous)
        mark.now.writer.0 held.now.unit.0 (Some (seen_line held.now.line)) }
    ensures valid { (bits_of held.now.line.bits).valid ≡ true → (bits_of result.bits).valid ≡ true }
{
    let next = if is_same(mark.previous, held.unit) {
        Some(mark.writer)
    } else {
        held.line.next
    };
    Line {
        value: held.line.value,
        bits: held.line.bits.on_overtaken(),
        next,
    }
}

// This line goes over the word's line.
fn refill(cache: &mut Cache, word: WordAddr, line: Line, probes: &mut Probes)
    requires held { is_some (line_of cache.old word.0) ≡ true }
    requires valid { (bits_of line.bits).valid ≡ true }
    requires ends { (bound : ℕ) × EndsBelow (line_of cache.old) bound }
    requires room { HasRoom probes.old cache.old.ways }
    ensures lines { (a : ℕ) → line_of cache.new a ≡ cond (a == word.0) (Some (seen_line line)) (line_of cache.old a) }
    ensures sets { cache.new.sets ≡ cache.old.sets }
    ensures ways { cache.new.ways ≡ cache.old.ways }
    ensures counted { CountsOneSearch probes.old probes.new cache.old.ways }
{
    // It goes over a line of the word, so it finds room.
    let _ = cache.fill(word, line, probes);
}

// Marks the line, which is its unit's line of the word.
fn mark_line(caches: &mut [Cache], held: &HeldLine, mark: &MarkingStore, probes: &mut Probes)
    requires held { IsHeld caches.old mark.now.word.0 held.now }
    requires ends { (bound : ℕ) × EndBelow caches.old bound }
    requires room { HasRoomFor probes.old caches.old 1 }
    ensures lines { (u a : ℕ) → held_line caches.new u a ≡ overtaken_where
        (option_map (λ (u : UnitId). u.0) mark.now.previous) mark.now.writer.0 u
        ((a == mark.now.word.0) && (held.now.unit.0 == u)) (held_line caches.old u a) }
    ensures sizes { SameSizes caches.old caches.new }
    ensures counted { CountsSearches probes.old probes.new 1 }
{
    let line = overtaken_line(held, mark);
    refill(&mut caches[held.unit.0 as usize], mark.word, line, probes);
}

/// Marks these lines, each its unit's line of the word: sets T on each, and links the version before the stored one to
/// the writer. Each takes one search.
pub(crate) fn mark_lines(
    caches: &mut [Cache],
    lines: &[HeldLine],
    mark: &MarkingStore,
    probes: &mut Probes,
)
    requires held { AreHeld caches.old mark.now.word.0 lines.now }
    requires ends { (bound : ℕ) × EndBelow caches.old bound }
    requires room { HasRoomFor probes.old caches.old (length lines.now) }
    ensures lines { (u a : ℕ) → held_line caches.new u a ≡ overtaken_where
        (option_map (λ (u : UnitId). u.0) mark.now.previous) mark.now.writer.0 u
        ((a == mark.now.word.0) && is_named lines.now u) (held_line caches.old u a) }
    ensures sizes { SameSizes caches.old caches.new }
    ensures counted { CountsSearches probes.old probes.new (length lines.now) }
{
    for held in lines {
        mark_line(caches, held, mark, probes);
    }
}
