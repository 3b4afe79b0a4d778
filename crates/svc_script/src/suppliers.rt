//! The replay of a trace whose reads may name other suppliers, as those of another model of the cache do.

ghost use Rattle.std.specs.Prelude.{◌≡◌, ◌≢◌, ◌↔◌, [], IfOk, IfErr, IsTrue, OnOk, true};
ghost use Rattle.svc_image.specs.Image.{IsImage};
ghost use Rattle.svc_history.specs.Recorded.{IsLegal};
ghost use Rattle.svc_script.specs.Suppliers.{AreAlike, Follows, IsFaultOfRest, IsSoundWith, IsWrongElsewhere};
ghost use Rattle.svc_script.specs.Suppliers.{has_numbers, supplied_as};

use crate::leading::step_to;
use crate::playing::{Answer, Kept, do_step};
use std::alloc::Global;
use svc_base::Config;
use svc_history::same::is_same;
use svc_history::{Entry, Kind, Recorder, TraceFault, TraceFaultKind, open_trace};
use svc_image::Image;

/// Replays a trace from before any event, and compares each column but those that name a supplier, `served` and `from`.
/// The recorder has the same entries with the suppliers of this machine. It succeeds exactly when they are legal with
/// some suppliers, unless memory is refused.
///
/// Errors: the first faulty entry, with what is wrong with it.
pub fn check_but_suppliers(
    alloc: Global,
    image: Image,
    config: Config,
    entries: &[Entry],
) -> Result<Recorder, TraceFault>
    ensures image { IfOk result (λ r. r.machine.image ≡ image) }
    ensures config { IfOk result (λ r. r.machine.config ≡ config) }
    ensures sound { IfOk result (λ r. IsSoundWith image config entries.now r.entries) }
    ensures legal { IfOk result IsLegal }
    ensures fault { IfErr result (IsFaultOfRest image config entries.now) }
{
    // what the type guarantees: it is an image
    let _start = image.start();
    let mut recorder = open_trace(alloc, image, config)?;
    follow_all(alloc, &mut recorder, entries)?;
    // what the type guarantees: its history is legal
    let _legal = recorder.entries();
    Ok(recorder)
}

// Follows the entries from before any event.
fn follow_all(alloc: Global, recorder: &mut Recorder, entries: &[Entry]) -> Result<(), TraceFault>
    requires image { IsImage recorder.old.machine.image }
    requires none_yet { recorder.old.entries ≡ [] }
    ensures image { recorder.new.machine.image ≡ recorder.old.machine.image }
    ensures config { recorder.new.machine.config ≡ recorder.old.machine.config }
    ensures sound { OnOk result (IsSoundWith recorder.old.machine.image recorder.old.machine.config entries.now
        recorder.new.entries) }
    ensures fault { IfErr result
        (IsFaultOfRest recorder.old.machine.image recorder.old.machine.config entries.now) }
{
    // No step keeps a burst.
    let mut kept = Vec::new(alloc);
    for index in 0..entries.len() {
        if let Err(kind) = follow(recorder, &mut kept, &entries[index]) {
            return Err(TraceFault { index, kind });
        }
    }
    // what the type guarantees: its history is legal
    let _legal = recorder.entries();
    Ok(())
}

// Does the step that leads to an entry, and compares what it is answered.
fn follow(recorder: &mut Recorder, kept: &mut Kept, entry: &Entry) -> Result<(), TraceFaultKind>
    ensures follows { OnOk result (Follows recorder.old entry.now recorder.new) }
    ensures wrong { IfErr result (IsWrongElsewhere recorder.old entry.now) }
    ensures image { recorder.new.machine.image ≡ recorder.old.machine.image }
    ensures config { recorder.new.machine.config ≡ recorder.old.machine.config }
    ensures legal { IsLegal recorder.old }
{
    let _legal = recorder.entries();
    if !has_numbers(entry) {
        return Err(TraceFaultKind::Refused);
    }
    match do_step(recorder, kept, &step_to(entry)) {
        Answer::Accepted(found) if are_alike(&found, entry) => Ok(()),
        Answer::Accepted(_) => Err(TraceFaultKind::Differs),
        _ => Err(TraceFaultKind::Refused),
    }
}

// Whether an entry has the numbers that its event needs.
pub(crate) fn has_numbers(entry: &Entry) -> bool
    ensures { result ≡ has_numbers entry.now.kind entry.now }
{
    match entry.kind {
        Kind::Assign | Kind::Replace => entry.arg.is_some(),
        Kind::Submit => entry.local.is_some() && entry.ask.is_some(),
        Kind::Cancel | Kind::Commit => true,
    }
}

// Whether two entries are the same but for the supplier.
fn are_alike(found: &Entry, entry: &Entry) -> bool
    ensures { IsTrue result ↔ AreAlike found.now entry.now }
{
    let supplied = Entry {
        served: found.served,
        from: found.from,
        ..*entry
    };
    is_same(found, &supplied)
}
