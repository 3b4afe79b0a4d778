// What a search has seen, with a schedule that shows each.

ghost use Rattle.std.specs.Prelude.{◌≡◌, ◌↔◌, IsFalse, IsTrue, OnOk, option_to_list};
ghost use Rattle.svc_explore_laws.specs.Closed.{AreIn, IsIn};
ghost use Rattle.svc_explore.specs.Found.{AddsSeen, IsNewlySeen, are_seen};

use std::alloc::{AllocError, Global};
use svc_base::UnitId;
use svc_explore_laws::{By, Observation};

/// An observation, and a schedule that shows it: the moves of these units, one after another, and then one of the last
/// unit.
#[derive(Drop)]
pub struct Seen {
    /// What was seen.
    pub what: Observation,
    /// The units that move before it, in order.
    pub path: Vec<UnitId>,
    /// The unit whose move shows it.
    pub last: UnitId,
}

fn same_reason(one: By, other: By) -> bool
    ensures { IsTrue result ↔ (one ≡ other) }
{
    one == other
}

fn same_by(one: Option<By>, other: Option<By>) -> bool
    ensures { IsTrue result ↔ (one ≡ other) }
{
    match (one, other) {
        (Some(one), Some(other)) => same_reason(one, other),
        (None, None) => true,
        _ => false,
    }
}

// Whether each field of two observations is the same.
fn is_same(one: &Observation, other: &Observation) -> bool
    ensures { IsTrue result ↔ (one.now ≡ other.now) }
{
    one.what == other.what
        && one.task == other.task
        && one.word == other.word
        && one.value == other.value
        && same_by(one.by, other.by)
}

// Whether the observation was seen.
fn is_seen(found: &[Seen], what: Observation) -> bool
    ensures seen { IsTrue result → IsIn what (are_seen found.now) }
    ensures fresh { IsFalse result → IsIn what (are_seen found.now) → ⊥ }
{
    for seen in found {
        if is_same(&seen.what, &what) {
            return true;
        }
    }
    false
}

// Adds an observation, with its schedule.
fn push_seen(
    alloc: Global,
    found: &mut Vec<Seen>,
    what: Observation,
    path: &[UnitId],
    last: UnitId,
) -> Result<(), AllocError>
    requires fresh { IsIn what (are_seen found.old.items) → ⊥ }
    ensures { OnOk result (IsNewlySeen found.old.items found.new.items what path.now last) }
{
    let path = Vec::from_slice(alloc, path)?;
    found.push(Seen { what, path, last })?;
    Ok(())
}

// Notes what was seen, if anything was, unless it was seen before.
pub(crate) fn note_seen(
    alloc: Global,
    found: &mut Vec<Seen>,
    what: Option<Observation>,
    path: &[UnitId],
    last: UnitId,
) -> Result<(), AllocError>
    ensures listed { OnOk result (AreIn (option_to_list what) (are_seen found.new.items)) }
    ensures adds { OnOk result (AddsSeen found.old.items found.new.items what path.now last) }
{
    let Some(what) = what else {
        return Ok(());
    };
    if is_seen(found.as_slice(), what) {
        return Ok(());
    }
    push_seen(alloc, found, what, path, last)
}
