// Lists of events, some of which come too early and are passed over.

use super::limits::first_burst;
use super::reads::{of_the_run, of_the_word};
use super::{opened_from, play};
use crate::script::{agrees, first, four_units, taken};
use std::alloc::Global;
use std::process::Abort;
use svc_base::UnitId;
use svc_core::Burst;
use svc_image::Image;
use svc_machine::{Event, drive};
use svc_samples::P;

// A machine that is driven over an assignment, a commit too early, a submission and a commit.
#[test]
fn a_commit_too_early_is_passed_over(rt: HostRuntime) {
    let burst = first_burst(&rt, rt.alloc(), &P);
    let begins = Event::Assign {
        unit: UnitId(0),
        guess: 0,
    };
    let ends = Event::Commit { by: UnitId(3) };
    let submits = Event::Submit { burst: &burst };
    let events = [begins, ends, submits, ends];
    let image = Image::read(rt.alloc(), &P).expect(&rt, "an image");
    let driven = drive(rt.alloc(), image, four_units(&rt, 10), &events);
    let machine = driven.expect(&rt, "a machine");
    let run = "4 1 Some(12) Some(12) [] None Open(12)";
    agrees(&rt, of_the_run(rt.alloc(), &machine), run);
    agrees(&rt, of_the_word(rt.alloc(), &machine), "5 0");
}

// The burst that this unit submits after this many of the ten events.
fn burst_after(rt: &impl Abort, alloc: Global, count: usize, unit: u8) -> Burst {
    let mut machine = opened_from(rt, alloc, &P, 0);
    play(rt, &mut machine, first(count));
    taken(&machine, unit).expect(rt, "a burst")
}

// The ten events with these bursts, and a commit after each of the first three.
fn with_early_commits(bursts: &[Burst; 5]) -> [Event<'_>; 13] {
    let (zero, one) = (UnitId(0), UnitId(1));
    let early = Event::Commit { by: UnitId(3) };
    [
        Event::Assign {
            unit: zero,
            guess: 0,
        },
        early,
        Event::Assign {
            unit: one,
            guess: 12,
        },
        early,
        Event::Submit { burst: &bursts[0] },
        early,
        Event::Submit { burst: &bursts[1] },
        Event::Commit { by: zero },
        Event::Assign {
            unit: one,
            guess: 0,
        },
        Event::Submit { burst: &bursts[2] },
        Event::Submit { burst: &bursts[3] },
        Event::Submit { burst: &bursts[4] },
        Event::Commit { by: one },
    ]
}

// Driven over these, a machine is that of the ten events.
#[test]
fn commits_too_early_leave_the_ten_events(rt: HostRuntime) {
    let bursts = [
        burst_after(&rt, rt.alloc(), 2, 1),
        burst_after(&rt, rt.alloc(), 3, 0),
        burst_after(&rt, rt.alloc(), 6, 1),
        burst_after(&rt, rt.alloc(), 7, 1),
        burst_after(&rt, rt.alloc(), 8, 1),
    ];
    let events = with_early_commits(&bursts);
    let image = Image::read(rt.alloc(), &P).expect(&rt, "an image");
    let driven = drive(rt.alloc(), image, four_units(&rt, 10), &events);
    let machine = driven.expect(&rt, "a machine");
    let run = "4 2 None None [5] Some(Exit(5)) Exit(5)";
    agrees(&rt, of_the_run(rt.alloc(), &machine), run);
    agrees(&rt, of_the_word(rt.alloc(), &machine), "5 5");
}
