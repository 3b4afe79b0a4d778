// Epochs, leases of other images, and bursts that are submitted twice.

use super::reads::changed;
use super::{Answer, opened_from, play, step};
use std::alloc::Global;
use std::process::Abort;
use svc_base::{Refusal, UnitId, WordAddr};
use svc_core::{Burst, MAX_BURST_TURNS};
use svc_image::Image;
use svc_machine::{Event, Reply, What};
use svc_samples::{Line, P};

const BEGIN: Line = Line::Assign(0, 0);

const NEXT: Line = Line::Assign(1, 12);

// Why the last line is refused after the others, if the first assignment gets this epoch.
fn refusal(
    rt: &impl Abort,
    alloc: Global,
    first: u64,
    lines: &[Line],
    last: Line,
) -> Option<Refusal> {
    let mut machine = opened_from(rt, alloc, &P, first);
    play(rt, &mut machine, lines);
    step(&mut machine, last).err()
}

#[test]
fn no_epoch_is_given_at_the_last(rt: HostRuntime) {
    let refused = refusal(&rt, rt.alloc(), u64::MAX, &[], BEGIN);
    assert_eq!(rt; refused, Some(Refusal::EpochsSpent));
}

#[test]
fn one_epoch_is_given_before_the_last(rt: HostRuntime) {
    let refused = refusal(&rt, rt.alloc(), u64::MAX - 1, &[BEGIN], NEXT);
    assert_eq!(rt; refused, Some(Refusal::EpochsSpent));
}

// A cancel gives no epoch back.
#[test]
fn no_epoch_is_given_twice(rt: HostRuntime) {
    let lines = [BEGIN, NEXT, Line::Cancel(1)];
    let refused = refusal(&rt, rt.alloc(), u64::MAX - 2, &lines, NEXT);
    assert_eq!(rt; refused, Some(Refusal::EpochsSpent));
}

// The burst of the first task, from a machine of its own, on the image of this file.
pub fn first_burst(rt: &impl Abort, alloc: Global, file: &[u8]) -> Burst {
    let mut machine = opened_from(rt, alloc, &P, 0);
    play(rt, &mut machine, &[BEGIN]);
    let lease = machine.lease(UnitId(0)).expect(rt, "a lease");
    let image = Image::read(alloc, file).expect(rt, "an image");
    lease.advance(&image, MAX_BURST_TURNS)
}

// How that burst is answered when it is submitted, and when it is submitted again.
fn answers_twice(rt: &impl Abort, alloc: Global, file: &[u8]) -> [Answer; 2] {
    let burst = first_burst(rt, alloc, file);
    let mut machine = opened_from(rt, alloc, &P, 0);
    play(rt, &mut machine, &[BEGIN]);
    let submits = Event::Submit { burst: &burst };
    [machine.step(submits), machine.step(submits)]
}

#[test]
fn text_of_another_image_is_refused(rt: HostRuntime) {
    let file = changed(160, 0x0060_0093);
    let answers = answers_twice(&rt, rt.alloc(), &file);
    assert_eq!(rt; answers, [Err(Refusal::ForeignText); 2]);
}

// The end of a burst follows from its start and its looks, so it may come from another machine of the same image.
#[test]
fn a_burst_is_taken_once(rt: HostRuntime) {
    let what = What::Stored {
        addr: WordAddr(0),
        word: 5,
        served: None,
    };
    let stored = Ok(Reply { what, cut: None });
    let answers = answers_twice(&rt, rt.alloc(), &P);
    assert_eq!(rt; answers, [stored, Err(Refusal::Stale)]);
}
