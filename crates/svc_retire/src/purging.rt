//! A purge: a word's newest committed version goes to memory, and its committed versions leave the caches.

ghost use Rattle.std.specs.Prelude.{◌≡◌, ◌+◌, ◌<◌, ◌==◌, ◌&&◌, ℕ, None, cond, length, get_or};
ghost use Rattle.svc_vol.specs.Lines.{lines_in};
ghost use Rattle.svc_vol.specs.Value.{AreCommitted};
ghost use Rattle.svc_retire.specs.Caches.{held_line, SameSizes};
ghost use Rattle.svc_retire.specs.Purges.{CanPurge, CountsSearches, HasRoomFor, IsNewest, committed_in, drops};
ghost use Rattle.svc_retire.specs.Purges.{is_purged};
ghost use Rattle.svc_retire.specs.Purges.{keeps, line_after_purge, purges};

use crate::memory::store;
use svc_base::{UnitId, WordAddr};
use svc_cache::{Cache, Probes};
use svc_vol::{HeldLine, VersionList};

/// The value of the newest version among committed lines; the oldest comes first.
pub fn newest_value(committed: &[HeldLine]) -> Option<u32>
    ensures { IsNewest committed.now (length committed.now) result }
{
    let mut newest = None;
    for held in committed {
        if held.line.bits.is_dirty() {
            newest = Some(held.line.value);
        }
    }
    newest
}

// The unit's line stays.
fn is_kept(keep: Option<UnitId>, unit: UnitId) -> bool
    ensures { result ≡ keeps keep unit.0 }
{
    match keep {
        None => false,
        Some(kept) => kept.0 == unit.0,
    }
}

// The committed line becomes invalid if it holds a version, unless its unit keeps it.
fn drop_version(
    caches: &mut [Cache],
    held: &HeldLine,
    word: WordAddr,
    keep: Option<UnitId>,
    probes: &mut Probes,
)
    requires known { held.now.unit.0 < length caches.old }
    requires room { HasRoomFor probes.old caches.old 1 }
    ensures lines { (u a : ℕ) → held_line caches.new u a
        ≡ cond ((a == word.0) && (drops keep held.now && (held.now.unit.0 == u))) None
        (held_line caches.old u a) }
    ensures sizes { SameSizes caches.old caches.new }
    ensures counted { CountsSearches probes.old probes.new (cond (drops keep held.now) 1 0) }
{
    if held.line.bits.is_dirty() && !is_kept(keep, held.unit) {
        caches[held.unit.0 as usize].drop_line(word, probes);
    }
}

// All of these that hold versions become invalid, except that of the unit that keeps its line.
fn drop_versions(
    caches: &mut [Cache],
    committed: &[HeldLine],
    word: WordAddr,
    keep: Option<UnitId>,
    probes: &mut Probes,
)
    requires listed { AreCommitted (lines_in caches.old word.0) (length caches.old) committed.now }
    requires room { HasRoomFor probes.old caches.old (length caches.old) }
    ensures lines { (u a : ℕ) → held_line caches.new u a ≡ line_after_purge keep word.0 u a (held_line caches.old u a) }
    ensures sizes { SameSizes caches.old caches.new }
    ensures counted { CountsSearches probes.old probes.new (purges caches.old keep word.0) }
{
    for held in committed {
        drop_version(caches, held, word, keep, probes);
    }
}

/// Purges the word: of its committed lines that hold versions, the newest one's value goes to the backing memory, and
/// all of them become invalid. The line of `keep` stays in its place, for a read or write of that unit that fills over
/// it at once.
///
/// `list` is the version list of the word. Each line that becomes invalid takes one search.
pub fn purge(
    caches: &mut [Cache],
    backing: &mut [u32],
    list: &VersionList,
    word: WordAddr,
    keep: Option<UnitId>,
    probes: &mut Probes,
)
    requires purge { CanPurge caches.old backing.old list.now word.0 }
    requires room { HasRoomFor probes.old caches.old (length caches.old) }
    ensures lines { (u a : ℕ) → held_line caches.new u a ≡ line_after_purge keep word.0 u a (held_line caches.old u a) }
    ensures memory { (a : ℕ) → get_or backing.new a 0 ≡ cond (a == word.0) (committed_in caches.old backing.old word.0)
        (get_or backing.old a 0) }
    ensures sizes { SameSizes caches.old caches.new }
    ensures counted { CountsSearches probes.old probes.new (purges caches.old keep word.0) }
{
    let committed = list.committed();
    store(backing, word.0 as usize, newest_value(committed));
    drop_versions(caches, committed, word, keep, probes);
}
