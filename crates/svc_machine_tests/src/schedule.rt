// Runs of the sample of two tasks. Expected numbers of events come from the twin in unproved Rust.

ghost use Rattle.std.specs.Prelude.{◌<◌, ◌≤◌};
ghost use Rattle.svc_base.specs.declared.limits.TheConstants.{MAX_BURST_TURNS};

use arrayvec::ArrayVec;
use std::alloc::Global;
use std::process::Abort;
use svc_base::{Config, UnitId};
use svc_core::{Ending, MAX_BURST_TURNS};
use svc_history::Recorder;
use svc_image::Image;
use svc_samples::P;
use svc_schedule::{Policy, Rotate, run_schedule};

// Names one unit, whether it can move or not.
#[derive(Drop)]
struct Always(u8);

impl Policy for Always {
    ghost use Rattle.std.specs.Prelude.{⊤};

    ghost gives = { λ _ _ _ _. ⊤ };

    fn order(&mut self, _recorder: &Recorder) -> ArrayVec<UnitId, 16> {
        let mut order = ArrayVec::new();
        order.push(UnitId(self.0));
        order
    }
}

// How a run of four units ends, and how many events it has.
fn end_of<R: Abort, Q: Policy>(
    rt: &R,
    alloc: Global,
    config: Config,
    burst: u32,
    policy: &mut Q,
) -> (Ending, usize)
    requires some { 0 < burst }
    requires few { burst ≤ MAX_BURST_TURNS }
{
    let image = Image::read(alloc, &P).expect(rt, "an image");
    let run = run_schedule(alloc, &image, config, burst, policy).expect(rt, "a run");
    (run.machine().ending(), run.entries().len())
}

// A configuration of four units.
fn limits(rt: &impl Abort, events: u32, turns: u32) -> Config {
    Config::new(4, 16, 2, events, turns).expect(rt, "a configuration")
}

#[test]
fn each_step_is_an_event_up_to_the_limit(rt: HostRuntime) {
    for events in 1..=42_u32 {
        let config = limits(&rt, events, 1_000);
        let (_, entries) = end_of(&rt, rt.alloc(), config, 1, &mut Rotate);
        assert_eq!(rt; entries, events.min(40) as usize);
    }
}

#[test]
fn steps_are_counted_by_turns(rt: HostRuntime) {
    let config = limits(&rt, 1_000, 4);
    let end = end_of(&rt, rt.alloc(), config, MAX_BURST_TURNS, &mut Rotate);
    assert_eq!(rt; end, (Ending::Open(0), 4));
}

// Unit 3 mostly waits, and there is no unit 200.
#[test]
fn units_that_are_left_out_are_asked(rt: HostRuntime) {
    for unit in [3, 200] {
        let config = limits(&rt, 1_000, 1_000);
        let (ending, _) = end_of(&rt, rt.alloc(), config, MAX_BURST_TURNS, &mut Always(unit));
        assert_eq!(rt; ending, Ending::Exit(5));
    }
}
