// What the tests use: images, configurations, buses, and events. What isn't expected ends the process: a function that
// can return early while owning such values is expensive to prove, since every exit drops them.

ghost use Rattle.std.specs.Prelude.{◌≡◌};

use std::alloc::Global;
use std::process::Abort;
use std::sync::Wait;
use std::thread::Threads;
use svc_base::{Config, UnitId};
use svc_core::MAX_BURST_TURNS;
use svc_core_laws::Ending;
use svc_history::{Event, Kind, Recorder, Slip};
use svc_image::Image;
use svc_image::samples::P1;
use svc_samples::{Line, P};
use svc_threads::{BoardPass, Gate, Outcome, RunError, SharedBus, run_units};

/// Unit 1 begins at a wrong entry, and is squashed with unit 2 by unit 0's commit.
pub(crate) const WRONG_GUESS: [Line; 6] = [
    Line::Assign(0, 0),
    Line::Assign(1, 0),
    Line::Assign(2, 12),
    Line::Submit(0),
    Line::Commit(0),
    Line::Assign(1, 0),
];

/// The image of a file.
pub(crate) fn image_of(rt: &impl Abort, alloc: Global, file: &[u8]) -> Image {
    Image::read(alloc, file).expect(rt, "an image")
}

/// The sample of two tasks.
pub(crate) fn two_tasks(rt: &impl Abort, alloc: Global) -> Image {
    image_of(rt, alloc, &P)
}

/// The sample of one task.
pub(crate) fn one_task(rt: &impl Abort, alloc: Global) -> Image {
    image_of(rt, alloc, &P1)
}

/// Puts a word at a place of a file's bytes.
pub(crate) fn put(bytes: &mut [u8], place: usize, word: u32) {
    for (byte, new) in bytes.iter_mut().skip(place).zip(word.to_le_bytes()) {
        *byte = new;
    }
}

/// The sample of two tasks, with another limit of turns and another word in place of its store.
pub(crate) fn changed(rt: &impl Abort, alloc: Global, limit: u32, word: u32) -> Image {
    let mut bytes = P;
    put(&mut bytes, 16, limit);
    put(&mut bytes, 164, word);
    image_of(rt, alloc, &bytes)
}

/// A configuration with two ways.
pub(crate) fn config(rt: &impl Abort, units: u32, sets: u32, events: u32, turns: u32) -> Config {
    Config::new(units, sets, 2, events, turns).expect(rt, "a configuration")
}

/// A bus over an opened recorder, and a pass of its board.
pub(crate) fn opened<R: Wait + Abort>(
    rt: &R,
    alloc: Global,
    image: Image,
    config: Config,
) -> (SharedBus, BoardPass)
    ensures { result.1.board ≡ result.0 }
{
    let recorder = Recorder::open(alloc, image, config).expect(rt, "a recorder");
    SharedBus::open(rt, alloc, recorder).expect(rt, "a bus")
}

/// Does an event of the sample of two tasks, if it is accepted.
pub(crate) fn take<R: Wait>(rt: &R, bus: &SharedBus, image: &Image, line: Line) -> Option<Slip> {
    match line {
        Line::Assign(unit, guess) => {
            let unit = UnitId(unit);
            bus.apply(rt, Event::Assign { unit, guess }).ok()
        }
        Line::Submit(unit) => submit(rt, bus, image, UnitId(unit)),
        Line::Cancel(unit) => bus.apply(rt, Event::Cancel { unit: UnitId(unit) }).ok(),
        Line::Commit(unit) => bus.apply(rt, Event::Commit { by: UnitId(unit) }).ok(),
    }
}

// Submits a burst of the unit's task, if it has one and that is accepted.
fn submit<R: Wait>(rt: &R, bus: &SharedBus, image: &Image, unit: UnitId) -> Option<Slip> {
    let lease = bus.lease(rt, unit).ok()?.lease?;
    let burst = lease.advance(image, MAX_BURST_TURNS);
    bus.apply(rt, Event::Submit { burst: &burst }).ok()
}

/// Does events of the sample of two tasks until one is refused, and answers how many were accepted.
pub(crate) fn play<R: Wait + Abort>(
    rt: &R,
    alloc: Global,
    bus: &SharedBus,
    lines: &[Line],
) -> usize {
    let image = two_tasks(rt, alloc);
    let mut accepted = 0_usize;
    for line in lines {
        if take(rt, bus, &image, *line).is_none() {
            break;
        }
        accepted = accepted.saturating_add(1);
    }
    accepted
}

/// What a run of units on threads has left, as plain values.
#[derive(Clone, Copy)]
pub(crate) struct Left {
    pub(crate) entries: usize,
    pub(crate) third: Option<Kind>,
    pub(crate) committed: u64,
    pub(crate) ending: Ending,
    pub(crate) words: usize,
    pub(crate) first_word: Option<u32>,
    pub(crate) lists: usize,
}

fn left_by(outcome: &Outcome) -> Left {
    let entries = outcome.recorder.entries();
    let machine = outcome.recorder.machine();
    let output = machine.output();
    Left {
        entries: entries.len(),
        third: entries.get(2).map(|entry| entry.kind),
        committed: machine.committed_tasks(),
        ending: machine.ending(),
        words: output.len(),
        first_word: output.first().copied(),
        lists: outcome.slips.len(),
    }
}

/// Runs an image's units, and answers what they have left.
pub(crate) fn run<G: Gate + Sync, R: Threads + Wait + Abort + Sync>(
    rt: &R,
    alloc: Global,
    image: &Image,
    config: Config,
    gate: &G,
) -> Left {
    let outcome = run_units(rt, alloc, image, config, gate).expect(rt, "an outcome");
    left_by(&outcome)
}

/// How many slips a unit's thread brought back.
pub(crate) fn count(slips: Result<Vec<Slip>, RunError>) -> Option<usize> {
    match slips {
        Ok(slips) => Some(slips.len()),
        Err(_) => None,
    }
}
