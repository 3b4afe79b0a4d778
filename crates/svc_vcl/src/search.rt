//! Searches in a version list: the nearest version, the victim, and what a store overtakes.

ghost use Rattle.std.specs.Prelude.{◌≡◌, ◌<◌, ◌≤◌, length};
ghost use Rattle.svc_vcl.specs.Listed.{is_exposure, is_overtaken_in, is_version, nearest_version_in, next_version_in};
ghost use Rattle.svc_vcl.specs.Listed.{newest_version_in, reusable_copy_in, victim_in};

use svc_base::UnitId;
use svc_vol::HeldLine;

/// The task of the slot has a version: an active line that it stored to.
pub(crate) fn is_version(slot: &Option<HeldLine>) -> bool
    ensures { result ≡ is_version slot.now }
{
    match slot {
        Some(version) => version.line.bits.is_dirty(),
        None => false,
    }
}

/// The task of the slot read the word before it wrote it.
pub(crate) fn is_exposure(slot: &Option<HeldLine>) -> bool
    ensures { result ≡ is_exposure slot.now }
{
    match slot {
        Some(version) => version.line.bits.is_exposed(),
        None => false,
    }
}

/// The version of the nearest earlier task that has one.
pub(crate) fn nearest_version(active: &[Option<HeldLine>], place: usize) -> Option<HeldLine>
    requires { place ≤ length active.now }
    ensures { result ≡ nearest_version_in active.now place }
{
    let mut nearest = None;
    for earlier in 0..place {
        if is_version(&active[earlier]) {
            nearest = active[earlier];
        }
    }
    nearest
}

/// The version of the nearest later task that has one, among the first `count` tasks.
pub(crate) fn next_version(
    active: &[Option<HeldLine>],
    count: usize,
    place: usize,
) -> Option<HeldLine>
    requires within { place < length active.now }
    requires few { count ≤ length active.now }
    ensures { result ≡ next_version_in active.now count place }
{
    for later in place + 1..count {
        if is_version(&active[later]) {
            return active[later];
        }
    }
    None
}

/// The place of the task that a write squashes. It is the first after the writer's that read the word before it wrote
/// it, unless a task between the two has a version.
pub(crate) fn victim(active: &[Option<HeldLine>], place: usize) -> Option<usize>
    requires { place < length active.now }
    ensures { result ≡ victim_in active.now place }
{
    for later in place + 1..active.len() {
        if is_exposure(&active[later]) {
            return Some(later);
        }
        if is_version(&active[later]) {
            return None;
        }
    }
    None
}

/// One of the first `count` tasks stands after the place and has a version.
pub(crate) fn is_overtaken(active: &[Option<HeldLine>], count: usize, place: usize) -> bool
    requires { count ≤ length active.now }
    ensures { result ≡ is_overtaken_in active.now count place }
{
    let mut overtaken = false;
    for later in 0..count {
        overtaken = overtaken || place < later && is_version(&active[later]);
    }
    overtaken
}

/// The newest committed version.
pub fn newest_version(committed: &[HeldLine]) -> Option<HeldLine>
    ensures { result ≡ newest_version_in committed.now }
{
    let mut newest = None;
    for place in 0..committed.len() {
        if committed[place].line.bits.is_dirty() {
            newest = Some(committed[place]);
        }
    }
    newest
}

/// The unit's committed copy, if no later store has made it stale.
pub(crate) fn reusable_copy(committed: &[HeldLine], unit: UnitId) -> Option<HeldLine>
    ensures { result ≡ reusable_copy_in committed.now unit.0 }
{
    for place in 0..committed.len() {
        let held = committed[place];
        if held.unit.0 == unit.0 && held.line.bits.is_reusable() {
            return Some(held);
        }
    }
    None
}
