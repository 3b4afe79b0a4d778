//! The lines of a word after a store.

ghost use Rattle.std.specs.Prelude.{◌≡◌, ℕ, ◌+◌, ◌<◌, ◌≤◌, ◌==◌, true, false, cond, Option, Some, None, length, get_or};
ghost use Rattle.std.specs.Prelude.{option_map, IfOk, OnOk, OnErr, MatchResult};
ghost use Rattle.svc_base.specs.declared.ids.UnitId.{UnitId};
ghost use Rattle.svc_base.specs.declared.refusal.Refusal.TheVariants as refusal;
ghost use Rattle.svc_line.specs.Bits.{bits_of};
ghost use Rattle.svc_line.specs.Line.{seen_line};
ghost use Rattle.svc_vol.specs.declared.list.TheConstants.{CAPACITY};
ghost use Rattle.svc_bus_laws.specs.Steps.{with_at};
ghost use Rattle.svc_retire.specs.Caches.{held_line, SameSizes};
ghost use Rattle.svc_retire.specs.Purges.{committed_in, HasRoomFor};
ghost use Rattle.svc_bus.specs.Looking.{CountsUpTo};
ghost use Rattle.svc_bus.specs.Marks.{EndBelow};
ghost use Rattle.svc_bus.specs.Requests.{IsBusRequest};
ghost use Rattle.svc_bus.specs.Room.{full_in};
ghost use Rattle.svc_bus.specs.Stores.{CanChange, left_line, stored_line};

use crate::marks::{MarkingStore, mark_lines};
use crate::request::put_line;
use svc_base::{Refusal, UnitId, WordAddr};
use svc_cache::{Cache, Probes};
use svc_line::Line;
use svc_order::TaskQueue;
use svc_retire::{Spill, squash_lines};
use svc_vol::{HeldLine, VersionList};

/// What a store does to the lines of its word.
#[derive(Clone, Copy)]
pub(crate) struct Store<'a> {
    /// The unit that stores.
    pub unit: UnitId,
    /// The word.
    pub word: WordAddr,
    /// The unit's line of the word after the store.
    pub line: Line,
    /// The unit of the version before the stored one.
    pub previous: Option<UnitId>,
    /// The other lines of the word that change, with their units: those that it overtakes, and the version before.
    pub changed: &'a [HeldLine],
    /// How many tasks it leaves.
    pub tasks_left: usize,
}

/// The unit's line of the word becomes the stored one, the word is purged in the other caches, the overtaken lines get
/// T, the version before links to the unit, and only the tasks that are left keep their lines. If the unit's cache has
/// no line of the word and no room for one, nothing changes.
///
/// `list` is the version list of the word. There are at most as many searches as caches.
pub(crate) fn store_line(
    caches: &mut [Cache],
    backing: &mut [u32],
    queue: &TaskQueue,
    list: &VersionList,
    store: &Store,
    probes: &mut Probes,
) -> Result<(), Refusal>
    requires request { IsBusRequest caches.old backing.old list.now store.now.unit.0 store.now.word.0 }
    requires few { length caches.old ≤ CAPACITY }
    requires units { (p : ℕ) → p < length queue.now → get_or queue.now p 0 < length caches.old }
    requires change { CanChange caches.old store.now.unit.0 store.now.word.0 store.now.changed.now }
    requires ends { EndBelow caches.old (length backing.old) }
    requires valid { (bits_of store.now.line.bits).valid ≡ true }
    requires active { (bits_of store.now.line.bits).commit ≡ false }
    requires room { HasRoomFor probes.old caches.old (1 + (length caches.old + length caches.old)) }
    ensures refused { let full = full_in caches.old store.now.unit.0 (length backing.old) store.now.word.0 in
        MatchResult result (λ _. full ≡ None)
        (λ e. option_map (λ named. refusal.SetFull (record { 0 = named })) full ≡ Some e) }
    ensures same_caches { OnErr result (caches.new ≡ caches.old) }
    ensures same_memory { OnErr result (backing.new ≡ backing.old) }
    ensures lines { OnOk result ((u a : ℕ) → held_line caches.new u a
        ≡ left_line queue.now store.now.tasks_left u (stored_line (held_line caches.old)
        store.now.unit.0 store.now.word.0 (Some (seen_line store.now.line))
        (option_map (λ (u : UnitId). u.0) store.now.previous) store.now.changed.now u a)) }
    ensures memory { OnOk result ((a : ℕ) → get_or backing.new a 0
        ≡ with_at (λ x. get_or backing.old x 0) store.now.word.0
        (committed_in caches.old backing.old store.now.word.0) a) }
    ensures sizes { SameSizes caches.old caches.new }
    ensures searches { OnOk result (CountsUpTo probes.old probes.new (length caches.old)) }
{
    let Store {
        unit,
        word,
        line,
        previous,
        changed,
        tasks_left,
    } = *store;
    put_line(caches, backing, list, unit, word, line, probes)?;
    let mark = MarkingStore {
        word,
        writer: unit,
        previous,
    };
    mark_lines(caches, changed, &mark, probes);
    squash_lines(caches, queue, tasks_left);
    Ok(())
}

/// Once the head has stored the word, the spilled version is no longer its version.
pub(crate) fn empty_spill(spill: &mut Spill, place: usize, word: WordAddr)
    requires { word.0 < length spill.old }
    ensures versions { (a : ℕ) → get_or spill.new a None ≡ with_at (λ x. get_or spill.old x None) word.0
        (cond (place == 0) None (get_or spill.old word.0 None)) a }
    ensures size { length spill.new ≡ length spill.old }
{
    if place == 0 {
        spill.clear(word);
    }
}
