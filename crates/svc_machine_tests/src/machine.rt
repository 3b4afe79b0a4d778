// What no script shows: what the reads answer, bursts of other images and machines, and the last epochs. Scripts with
// what they print are cases of the program. What is expected follows from the sample's text by hand.

use crate::script::{four_units, taken};
use std::alloc::Global;
use std::process::Abort;
use svc_base::{Refusal, UnitId};
use svc_image::Image;
use svc_machine::{Event, Machine, Reply};
use svc_samples::Line;

mod driven;
mod limits;
mod reads;

// The answer to an event.
type Answer = Result<Reply, Refusal>;

// A machine of four units on the image of this file; the first assignment gets this epoch.
fn opened_from(rt: &impl Abort, alloc: Global, file: &[u8], first: u64) -> Machine {
    let image = Image::read(alloc, file).expect(rt, "an image");
    Machine::open_from(alloc, image, four_units(rt, 10), first).expect(rt, "a machine")
}

// The answer to a line. A submission without a lease is refused as an idle unit's.
fn step(machine: &mut Machine, line: Line) -> Answer {
    match line {
        Line::Assign(unit, guess) => {
            let unit = UnitId(unit);
            machine.step(Event::Assign { unit, guess })
        }
        Line::Submit(unit) => match taken(machine, unit) {
            Some(burst) => machine.step(Event::Submit { burst: &burst }),
            None => Err(Refusal::Idle),
        },
        Line::Cancel(unit) => machine.step(Event::Cancel { unit: UnitId(unit) }),
        Line::Commit(by) => machine.step(Event::Commit { by: UnitId(by) }),
    }
}

// Each of these lines is accepted.
fn play(rt: &impl Abort, machine: &mut Machine, lines: &[Line]) {
    for line in lines {
        let _reply = step(machine, *line).expect(rt, "an accepted line");
    }
}
