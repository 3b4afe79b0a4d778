// What no text shows: what a unit's thread sees. Scripts and traces, with what they print, are cases of the program.
// What is expected follows from the sample's text by hand.

use crate::script::{first, four_units, taken};
use std::alloc::Global;
use std::process::Abort;
use svc_base::{Refusal, UnitId};
use svc_history::{Event, Recorder, Slip};
use svc_image::Image;
use svc_samples::{Line, P};

mod glances;

// Plays a line; a submission without a lease is refused as an idle unit's.
fn step(recorder: &mut Recorder, line: Line) -> Result<Slip, Refusal> {
    match line {
        Line::Assign(unit, guess) => {
            let unit = UnitId(unit);
            recorder.apply(Event::Assign { unit, guess })
        }
        Line::Submit(unit) => match taken(recorder.machine(), unit) {
            Some(burst) => recorder.apply(Event::Submit { burst: &burst }),
            None => Err(Refusal::Idle),
        },
        Line::Cancel(unit) => recorder.apply(Event::Cancel { unit: UnitId(unit) }),
        Line::Commit(by) => recorder.apply(Event::Commit { by: UnitId(by) }),
    }
}

// Each of these lines is accepted.
fn play(rt: &impl Abort, recorder: &mut Recorder, lines: &[Line]) {
    for line in lines {
        let _slip = step(recorder, *line).expect(rt, "an accepted line");
    }
}

// A recorder of four units on the sample of two tasks, with room for this many events, after this many of the ten.
fn after(rt: &impl Abort, alloc: Global, room: u32, count: usize) -> Recorder {
    let image = Image::read(alloc, &P).expect(rt, "an image");
    let opened = Recorder::open(alloc, image, four_units(rt, room));
    let mut recorder = opened.expect(rt, "a recorder");
    play(rt, &mut recorder, first(count));
    recorder
}
