//! Scripts of events alone, played without a line for each step.

ghost use Rattle.std.specs.Prelude.{◌≡◌, All, IfSome, None, length};
ghost use Rattle.svc_history.specs.Recorded.{IsLegal};
ghost use Rattle.svc_script.specs.Events.{HasLedOn, IsEvent, IsFirstOther, is_event};

use crate::playing::do_step;
use crate::script::{Step, StepKind};
use std::alloc::Global;
use svc_history::Recorder;

// Whether it asks for an event, and neither takes a burst nor gives one.
fn is_event(kind: StepKind) -> bool
    ensures { result ≡ is_event kind }
{
    !matches!(kind, StepKind::Take(_) | StepKind::Give)
}

/// The row of the first step that takes a burst or gives one, if any does: counted from 1 with the header, as the rows
/// of scripts are.
pub fn first_other(steps: &[Step]) -> Option<u64>
    ensures none { result ≡ None → All IsEvent steps.now }
    ensures row { IfSome result (IsFirstOther steps.now) }
{
    for index in 0..steps.len() {
        if !is_event(steps[index].kind) {
            return Some(index as u64 + 2);
        }
    }
    None
}

/// Does the steps of a script of events alone. An event that is refused is passed over: it changes nothing.
pub fn lead_on(alloc: Global, recorder: &mut Recorder, steps: &[Step])
    requires { All IsEvent steps.now }
    ensures led { HasLedOn steps.now (length steps.now) recorder.old recorder.new }
    ensures legal { IsLegal recorder.new }
{
    // No step keeps a burst.
    let mut kept = Vec::new(alloc);
    for step in steps {
        let _answer = do_step(recorder, &mut kept, step);
    }
    let _entries = recorder.entries();
}
