//! The plan of a write.

ghost use Rattle.std.specs.Prelude.{◌≡◌, ◌≢◌, ◌<◌, ◌≤◌, ◌+◌, ◌++◌, ◌||◌, ℕ, Bool, Option, Some, true, is_some, length};
ghost use Rattle.std.specs.Prelude.{option_map};
ghost use Rattle.svc_line.specs.Bits.{bits_of};
ghost use Rattle.svc_bus_laws.specs.LineTable.{LineTable};
ghost use Rattle.svc_bus_laws.specs.Versioned.{survivors, victim};
ghost use Rattle.svc_bus_laws.specs.BusLine.{purged_line, version_of_line};
ghost use Rattle.svc_bus_laws.specs.BusState.{BusState};
ghost use Rattle.svc_bus_laws.specs.BusSteps.{bus_write, line_after_cut};
ghost use Rattle.svc_bus_laws.specs.BusView.{bus_line_at, bus_map};
ghost use Rattle.svc_links_laws.specs.LinkSteps.{place_after, place_before, unit_of};
ghost use Rattle.svc_vcl.specs.Listed.{nearest_version_in};
ghost use Rattle.svc_vcl.specs.Described.{IsRequest, line_with};
ghost use Rattle.svc_vcl.specs.Planned.{becomes_stale, copies_in, is_fresh_copy, is_named, changed_in, marked_where};
ghost use Rattle.svc_vcl.specs.Planned.{own_bits, passed_in, relinked_in, unit_in, unmarked_line};

use crate::search::{is_overtaken, nearest_version, next_version, victim};
use arrayvec::ArrayVec;
use bitflags::Flags;
use svc_base::UnitId;
use svc_line::{Line, LineBits};
use svc_vol::{CAPACITY, HeldLine, VersionList};

/// The types allow at most this many lines to become stale: all of a version list.
pub const STALE_CAPACITY: usize = 2 * CAPACITY;

/// What a write does, apart from the lines of other units that change.
#[derive(Clone, Copy)]
pub struct WritePlan {
    /// The place of the task that is squashed, with all after it.
    pub victim: Option<usize>,
    /// The unit's line after the write. It links to the unit of the next newer version among the tasks that are left.
    pub line: Line,
    /// The unit with the nearest older version of an active task. The write links that version to the writer's unit.
    pub previous: Option<UnitId>,
}

// T is set.
#[tactic(auto, unfolding(svc_line::specs::Bits::bits_of))]
fn is_stale(bits: LineBits) -> bool
    ensures { result ≡ (bits_of bits).stale }
{
    bits.contains(LineBits::STALE)
}

// The bits of the unit's active line, or no bits if it has no such line.
#[tactic(auto, unfolding(svc_line::specs::Bits::bits_of))]
fn own_bits(slot: &Option<HeldLine>) -> LineBits
    ensures { bits_of result ≡ own_bits slot.now }
{
    match slot {
        Some(own) => own.line.bits,
        None => LineBits::empty(),
    }
}

// The line is clean, and T is clear on it.
fn is_fresh_copy(held: &HeldLine) -> bool
    ensures { result ≡ is_fresh_copy held.now }
{
    !held.line.bits.is_dirty() && !is_stale(held.line.bits)
}

// Lists the committed copies that become stale.
fn list_copies(
    stale: &mut ArrayVec<HeldLine, STALE_CAPACITY>,
    committed: &[HeldLine],
    writer: UnitId,
)
    requires room { length stale.old.items + length committed.now ≤ STALE_CAPACITY }
    ensures size { length stale.new.items ≤ length stale.old.items + length committed.now }
    ensures listed { stale.new.items ≡ stale.old.items ++ copies_in committed.now writer.0 }
{
    for held in committed {
        if held.unit.0 != writer.0 && is_fresh_copy(held) {
            stale.push(*held);
        }
    }
}

// The line in a slot, if T is clear on it.
fn unmarked_line(slot: &Option<HeldLine>) -> Option<HeldLine>
    ensures { result ≡ unmarked_line slot.now }
{
    match slot {
        Some(held) if !is_stale(held.line.bits) => Some(*held),
        _ => None,
    }
}

// Lists the lines of earlier tasks that become stale.
fn list_earlier(stale: &mut ArrayVec<HeldLine, STALE_CAPACITY>, earlier: &[Option<HeldLine>])
    requires room { length stale.old.items + length earlier.now ≤ STALE_CAPACITY }
    ensures size { length stale.new.items ≤ length stale.old.items + length earlier.now }
    ensures listed { stale.new.items ≡ stale.old.items ++ passed_in earlier.now }
{
    for slot in earlier {
        if let Some(held) = unmarked_line(slot) {
            stale.push(held);
        }
    }
}

// Lists the version, if T is set on it already.
fn list_previous(stale: &mut ArrayVec<HeldLine, STALE_CAPACITY>, previous: Option<HeldLine>)
    requires room { length stale.old.items < STALE_CAPACITY }
    ensures listed { stale.new.items ≡ stale.old.items ++ relinked_in previous }
{
    if let Some(version) = previous
        && is_stale(version.line.bits)
    {
        stale.push(version);
    }
}

// The version's unit.
fn unit_of(version: Option<HeldLine>) -> Option<UnitId>
    ensures { option_map (λ unit. unit.0) result ≡ unit_in version }
{
    match version {
        Some(version) => Some(version.unit),
        None => None,
    }
}

/// The plan of a write by the unit of the task at a place: the victim, if any, the unit's line after it, and the link
/// of the version before it. (A write purges the word, so no committed version is left.)
///
/// `changed` is large, so it is filled in place. It gets the lines of other units that the write changes, as they were
/// before it: the committed copies and the lines of earlier tasks, which become stale, and the version before, which is
/// linked.
pub fn plan_write(
    list: &VersionList,
    unit: UnitId,
    place: usize,
    value: u32,
    changed: &mut ArrayVec<HeldLine, STALE_CAPACITY>,
) -> WritePlan
    requires { place < length list.now.active }
    ensures victim { (b : BusState) (t : LineTable) (a : ℕ) → IsRequest b t a list.now unit.0 place
        → result.victim ≡ victim (bus_map b) place a }
    ensures line { (b : BusState) (t : LineTable) (a : ℕ) → IsRequest b t a list.now unit.0 place
        → (bus_write b place a value).lines unit.0 a ≡ Some (line_with value (bits_of result.line.bits)) }
    ensures value { result.line.value ≡ value }
    ensures valid { (bits_of result.line.bits).valid ≡ true }
    // the links
    ensures next { (b : BusState) (t : LineTable) (a : ℕ) → IsRequest b t a list.now unit.0 place
        → option_map (λ unit. unit.0) result.line.next ≡ unit_of b.units
        (place_after (survivors (bus_map b) place a) (λ q. is_some (version_of_line (bus_line_at b q a))) place) }
    ensures previous { (b : BusState) (t : LineTable) (a : ℕ) → IsRequest b t a list.now unit.0 place
        → option_map (λ unit. unit.0) result.previous ≡ unit_of b.units
        (place_before (λ q. is_some (version_of_line (bus_line_at b q a))) place) }
    ensures linked { (other : ℕ) → option_map (λ unit. unit.0) result.previous ≡ Some other
        → is_named changed.new.items other ≡ true }
    ensures listed { changed.new.items ≡ changed_in list.now unit.0 place }
    // what the write makes of another unit's line
    ensures others { (b : BusState) (t : LineTable) (a value other : ℕ) → IsRequest b t a list.now unit.0 place
        → other ≢ unit.0 → (bus_write b place a value).lines other a
        ≡ marked_where (is_named changed.new.items other)
        (purged_line (line_after_cut b (survivors (bus_map b) place a) other a)) }
    ensures stale { (b : BusState) (t : LineTable) (a other : ℕ) → IsRequest b t a list.now unit.0 place
        → is_named changed.new.items other
        ≡ (becomes_stale b place a other || is_named (relinked_in (nearest_version_in list.now.active place)) other) }
{
    let active = list.active();
    let victim = victim(active, place);
    let left = victim.unwrap_or(active.len());
    let overtaken = is_overtaken(active, left, place);
    let bits = own_bits(&active[place]).on_store(overtaken);
    let next = unit_of(next_version(active, left, place));
    let nearest = nearest_version(active, place);
    changed.clear();
    list_copies(changed, list.committed(), unit);
    list_earlier(changed, &active[..place]);
    list_previous(changed, nearest);
    WritePlan {
        victim,
        line: Line { value, bits, next },
        previous: unit_of(nearest),
    }
}
