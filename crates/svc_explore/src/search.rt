// One step of the search: a unit's move where a schedule leads.

ghost use Rattle.std.specs.Prelude.{◌≡◌, ◌<◌, ◌≤◌, ◌++◌, ◌∷◌, [], List, IfOk, IfSome, IsNone, length};
ghost use Rattle.svc_machine_laws.specs.Standing.{opened_at};
ghost use Rattle.svc_history.specs.Recorded.{standing_of};
ghost use Rattle.svc_base.specs.declared.ids.UnitId.{UnitId};
ghost use Rattle.svc_explore_laws.specs.Moves.{HasRoom};
ghost use Rattle.svc_explore.specs.Recorders.{GaveFew, Leads, LeadsNowhere, LeadsOnly, PlaysTo};
ghost use Rattle.svc_explore.specs.Tries.{IsOff, IsTried, ShowsIt, TriedBy};
ghost use Rattle.svc_history_laws.specs.declared.entry.Entry.{Entry};

use crate::key::key_of;
use crate::moves::{keeps, make_move};
use std::alloc::{AllocError, Global};
use svc_base::{Config, UnitId};
use svc_explore_laws::Observation;
use svc_history::Recorder;
use svc_history_laws::Entry;
use svc_image::Image;
use svc_observations::{happened, roster_of, squashed};

// A machine of the image before any event.
pub(crate) fn open_recorder(
    alloc: Global,
    image: &Image,
    config: Config,
) -> Result<Recorder, AllocError>
    ensures image { IfOk result (λ r. r.machine.image ≡ image.now) }
    ensures config { IfOk result (λ r. r.machine.config ≡ config) }
    ensures none { IfOk result (λ r. r.entries ≡ []) }
    ensures opened { IfOk result (λ r. standing_of r ≡ opened_at image.now config 0) }
{
    let Ok(own) = image.copy(alloc) else {
        return Err(AllocError);
    };
    let Ok(recorder) = Recorder::open(alloc, own, config) else {
        return Err(AllocError);
    };
    Ok(recorder)
}

// The machine where a schedule leads, if it leads anywhere.
pub(crate) fn replay(
    alloc: Global,
    image: &Image,
    config: Config,
    path: &[UnitId],
    most: u32,
) -> Result<Option<Recorder>, AllocError>
    ensures image { IfOk result (λ o. IfSome o (λ r. r.machine.image ≡ image.now)) }
    ensures config { IfOk result (λ o. IfSome o (λ r. r.machine.config ≡ config)) }
    ensures few { IfOk result (λ o. IfSome o (λ r. GaveFew (standing_of r))) }
    ensures leads { IfOk result (λ o. IfSome o (λ r.
        Leads image.now config most (opened_at image.now config 0) path.now (standing_of r))) }
    ensures only { IfOk result (λ o. IfSome o (λ r. LeadsOnly image.now config most path.now (standing_of r))) }
    ensures short { IfOk result (λ o. IfSome o (λ r. (standing_of r).plain.accepted ≤ length path.now)) }
    ensures plays { IfOk result (λ o. IfSome o (λ r.
        PlaysTo image.now config most (opened_at image.now config 0) r.entries (standing_of r))) }
    ensures none { IfOk result (λ o. IsNone o → LeadsNowhere image.now config most path.now) }
{
    let mut recorder = open_recorder(alloc, image, config)?;
    for unit in path {
        keeps(&recorder);
        if recorder.machine().is_full() {
            return Ok(None);
        }
        if !make_move(&mut recorder, *unit, most) {
            return Ok(None);
        }
    }
    Ok(Some(recorder))
}

// What trying a unit at a key came to.
pub(crate) enum Tried {
    // The history is full there, or the schedule leads nowhere.
    Off,
    // The unit has no move that is accepted.
    Rests,
    // Its move shows this, and leads to this key.
    Moves {
        happened: Option<Observation>,
        squashed: Option<Observation>,
        key: Vec<u64>,
    },
}

// The unit makes its move.
fn try_move(
    alloc: Global,
    recorder: &mut Recorder,
    most: u32,
    unit: UnitId,
) -> Result<Tried, AllocError>
    requires room { HasRoom recorder.old.machine.config (standing_of recorder.old).plain }
    ensures tried { IfOk result (IsTried most recorder.old unit.0) }
    ensures on { IfOk result (λ tried. IsOff tried → ⊥) }
    ensures image { recorder.new.machine.image ≡ recorder.old.machine.image }
    ensures config { recorder.new.machine.config ≡ recorder.old.machine.config }
{
    let roster = roster_of(alloc, recorder)?;
    if !make_move(recorder, unit, most) {
        return Ok(Tried::Rests);
    }
    let entry = last_entry(recorder);
    let key = key_of(alloc, recorder)?;
    Ok(Tried::Moves {
        happened: happened(&roster, &entry),
        squashed: squashed(&entry),
        key,
    })
}

// The unit makes its move, unless the history is full.
fn try_at(
    alloc: Global,
    recorder: &mut Recorder,
    most: u32,
    unit: UnitId,
) -> Result<Tried, AllocError>
    requires few { GaveFew (standing_of recorder.old) }
    ensures tried { IfOk result (λ tried. (path : List UnitId)
        → LeadsOnly recorder.old.machine.image recorder.old.machine.config most path (standing_of recorder.old)
        → TriedBy recorder.old.machine.image recorder.old.machine.config most path unit.0 tried) }
    ensures shown { IfOk result (λ tried. (path : List UnitId)
        → Leads recorder.old.machine.image recorder.old.machine.config most
        (opened_at recorder.old.machine.image recorder.old.machine.config 0) path (standing_of recorder.old)
        → ShowsIt recorder.old.machine.image recorder.old.machine.config most path unit tried) }
    ensures off { IfOk result (λ tried. IsOff tried
        → recorder.old.machine.config.events ≤ (standing_of recorder.old).plain.accepted) }
    ensures image { recorder.new.machine.image ≡ recorder.old.machine.image }
    ensures config { recorder.new.machine.config ≡ recorder.old.machine.config }
{
    keeps(recorder);
    if recorder.machine().is_full() {
        return Ok(Tried::Off);
    }
    try_move(alloc, recorder, most, unit)
}

// The unit makes its move from where a recorder stands, in another one.
pub(crate) fn try_unit(
    alloc: Global,
    there: &Recorder,
    mover: &mut Recorder,
    most: u32,
    unit: UnitId,
) -> Result<Tried, AllocError>
    requires image { mover.old.machine.image ≡ there.now.machine.image }
    requires config { mover.old.machine.config ≡ there.now.machine.config }
    requires few { GaveFew (standing_of there.now) }
    ensures tried { IfOk result (λ tried. (path : List UnitId)
        → LeadsOnly there.now.machine.image there.now.machine.config most path (standing_of there.now)
        → TriedBy there.now.machine.image there.now.machine.config most path unit.0 tried) }
    ensures shown { IfOk result (λ tried. (path : List UnitId)
        → Leads there.now.machine.image there.now.machine.config most
        (opened_at there.now.machine.image there.now.machine.config 0) path (standing_of there.now)
        → ShowsIt there.now.machine.image there.now.machine.config most path unit tried) }
    ensures off { IfOk result (λ tried. IsOff tried
        → there.now.machine.config.events ≤ (standing_of there.now).plain.accepted) }
    ensures image { mover.new.machine.image ≡ there.now.machine.image }
    ensures config { mover.new.machine.config ≡ there.now.machine.config }
{
    mover.copy_from(there);
    try_at(alloc, mover, most, unit)
}

// The last entry of a history.
fn last_entry(recorder: &Recorder) -> Entry
    requires some { 0 < length recorder.now.entries }
    ensures { (es : List Entry) (x : Entry) → recorder.now.entries ≡ es ++ x ∷ [] → result ≡ x }
{
    let entries = recorder.entries();
    entries[entries.len() - 1]
}
