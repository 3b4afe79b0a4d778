//! The walk along the links of committed versions, from the oldest to the newest.

ghost use Rattle.std.specs.Prelude.{◌≡◌, ◌≤◌, ◌<◌, ℕ, true, false, Some, None, length, map, option_map, MatchOption};
ghost use Rattle.std.specs.Prelude.{IsTrue, IsFalse};
ghost use Rattle.svc_line.specs.Line.{seen_line};
ghost use Rattle.svc_links_laws.specs.LinkOrder.{IsFirst};
ghost use Rattle.svc_links_laws.specs.LinkSteps.{is_unit};
ghost use Rattle.svc_vol.specs.Lines.{IsRanked, is_committed_version, lines_found, links_of, versions_of};
ghost use Rattle.svc_vol.specs.Walked.{is_before, AreWalked};

use crate::list::CAPACITY;
use arrayvec::ArrayVec;
use bitflags::Flags;
use svc_line::{Line, LineBits};

// The line is a committed version.
#[tactic(auto, unfolding(svc_line::specs::Bits::bits_of))]
fn is_version(line: &Option<Line>) -> bool
    ensures { result ≡ is_committed_version (option_map seen_line line.now) }
{
    match line {
        Some(line) => {
            line.bits.contains(LineBits::COMMIT) && line.bits.contains(LineBits::STORE)
        }
        None => false,
    }
}

// The line links to the unit.
fn links_to(line: &Line, unit: usize) -> bool
    ensures { result ≡ is_unit (seen_line line.now).next unit }
{
    match line.next {
        Some(next) => next.0 as usize == unit,
        None => false,
    }
}

// The line is a committed version, and links to the unit.
fn is_before(line: &Option<Line>, unit: usize) -> bool
    ensures { result ≡ is_before (option_map seen_line line.now) unit }
{
    match line {
        Some(own) => is_version(line) && links_to(own, unit),
        None => false,
    }
}

// Some committed version links to the unit.
fn is_named(found: &[Option<Line>], unit: usize) -> bool
    ensures named { IsTrue result → (v : ℕ) × (versions_of (lines_found found.now) v ≡ true)
        × (links_of (lines_found found.now) v ≡ Some unit) }
    ensures unnamed { IsFalse result → (v : ℕ) → versions_of (lines_found found.now) v ≡ true
        → links_of (lines_found found.now) v ≡ Some unit → ⊥ }
{
    for place in 0..found.len() {
        if is_before(&found[place], unit) {
            return true;
        }
    }
    false
}

// The unit of the oldest committed version, if there is one.
fn first_of(found: &[Option<Line>]) -> Option<usize>
    requires { IsRanked (length found.now) (lines_found found.now) }
    ensures { MatchOption result ((u : ℕ) → versions_of (lines_found found.now) u ≡ false)
        (λ first. IsFirst (versions_of (lines_found found.now)) (links_of (lines_found found.now)) first) }
{
    for place in 0..found.len() {
        if is_version(&found[place]) && !is_named(found, place) {
            return Some(place);
        }
    }
    None
}

// The unit's line is a committed version.
fn has_version(found: &[Option<Line>], unit: usize) -> bool
    ensures { result ≡ versions_of (lines_found found.now) unit }
{
    unit < found.len() && is_version(&found[unit])
}

// The unit of the next newer committed version.
fn next_of(found: &[Option<Line>], unit: usize) -> Option<usize>
    requires { unit < length found.now }
    ensures { MatchOption result ((v : ℕ) → links_of (lines_found found.now) unit ≡ Some v
        → versions_of (lines_found found.now) v ≡ false)
        (λ next. (links_of (lines_found found.now) unit ≡ Some next)
        × (versions_of (lines_found found.now) next ≡ true)) }
{
    let next = found[unit]?.next?.0 as usize;
    if has_version(found, next) {
        Some(next)
    } else {
        None
    }
}

/// The units of the committed versions, oldest first: along the links, from the version that no other links to.
pub(crate) fn oldest_first(order: &mut ArrayVec<usize, CAPACITY>, found: &[Option<Line>])
    requires few { length found.now ≤ CAPACITY }
    requires ranked { IsRanked (length found.now) (lines_found found.now) }
    ensures walked { AreWalked (lines_found found.now) (length found.now) order.new.items }
{
    order.clear();
    let Some(first) = first_of(found) else { return };
    order.push(first);
    let mut last = first;
    for count in 1..found.len() {
        let Some(next) = next_of(found, last) else {
            return
        };
        order.push(next);
        last = next;
    }
}
