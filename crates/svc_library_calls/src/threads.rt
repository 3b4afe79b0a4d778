//! A unit's turns over a shared bus.

ghost use Rattle.std.specs.Prelude.{◌≡◌, is_some};
ghost use Rattle.svc_library_calls.specs.Calls.{is_one_of, unit_calls};

use crate::attempt::{Attempt, Refused, ready};
use std::alloc::Global;
use std::sync::Wait;
use svc_base::{Config, OpenError, UnitId};
use svc_core_laws::Ending;
use svc_history::same::is_same;
use svc_history::{Entry, Recorder};
use svc_image::Image;
use svc_image::samples::P1;
use svc_samples::SIX_ENTRIES;
use svc_threads::{BoardPass, Gate, Phase, RunError, SharedBus, run_unit};

/// Makes the call of this name, if it is one of these.
pub fn attempt<R: Wait>(rt: &R, alloc: Global, name: &str) -> Option<Attempt>
    ensures { is_some result ≡ is_one_of unit_calls name.now }
{
    match name {
        "run_unit" => Some(run_alone(rt, alloc)),
        _ => None,
    }
}

// Lets every event through.
struct Open;

impl Gate for Open {
    fn pass(&self, _unit: UnitId, _phase: Phase<'_>) -> bool {
        true
    }
}

// The turns of the unit: more than its six events.
const TURNS: u32 = 50;

// The image of one task.
fn one_task(alloc: Global) -> Result<Image, Refused> {
    ready(Image::read(alloc, &P1))
}

// A recorder of one unit.
fn one_unit(alloc: Global) -> Result<Recorder, Refused> {
    let config = ready(Config::new(1, 16, 2, 100, TURNS))?;
    ready(Recorder::open(alloc, one_task(alloc)?, config))
}

// The entries are the first of the unit's, field by field.
fn are_first(entries: &[Entry]) -> bool {
    if entries.len() > SIX_ENTRIES.len() {
        return false;
    }
    for (entry, one) in entries.iter().zip(&SIX_ENTRIES) {
        if !is_same(entry, one) {
            return false;
        }
    }
    true
}

// How many slips the unit's thread brings back.
fn slips<R: Wait>(
    rt: &R,
    alloc: Global,
    bus: &SharedBus,
    pass: BoardPass,
    image: &Image,
) -> Result<usize, RunError>
    requires { pass.board ≡ bus.now }
{
    run_unit(rt, alloc, bus, UnitId(0), pass, image, TURNS, &Open).map(|slips| slips.len())
}

// The thread brought back a slip of each event and the task is committed, or it reported that memory was refused.
fn judged(slips: Result<usize, RunError>, recorder: &Recorder) -> Attempt {
    let begins_rightly = are_first(recorder.entries());
    match slips {
        Ok(slips) => Ok(
            begins_rightly
                && slips == SIX_ENTRIES.len()
                && recorder.machine().ending() == Ending::Exit(5),
        ),
        Err(RunError::Memory) if begins_rightly => Err(Refused::Told),
        Err(_) => Ok(false),
    }
}

/// A unit runs one task over a bus of its own.
fn run_alone<R: Wait>(rt: &R, alloc: Global) -> Attempt {
    let image = one_task(alloc)?;
    match SharedBus::open(rt, alloc, one_unit(alloc)?) {
        Ok((bus, pass)) => {
            let slips = slips(rt, alloc, &bus, pass, &image);
            judged(slips, &bus.into_recorder())
        }
        Err(OpenError::Memory) => Err(Refused::Told),
    }
}
