//! What a machine answers to the event that an entry names.

ghost use Rattle.std.specs.Prelude.{◌≡◌, IfSome, is_some};
ghost use Rattle.svc_script.specs.Answering.{IsAnswerTo};
ghost use Rattle.svc_script.specs.Suppliers.{has_numbers};

use crate::leading::step_to;
use crate::playing::{Answer, do_step};
use crate::suppliers::has_numbers;
use std::alloc::Global;
use svc_history::{Entry, Recorder};

/// Tries the event that an entry names, whatever else the entry says, where the recorder's history leads. If it is
/// accepted, the answer is the entry with which the history stays legal. There is no answer if the entry lacks a number
/// that its event needs.
pub fn retry(alloc: Global, recorder: &mut Recorder, entry: &Entry) -> Option<Answer>
    ensures answer { IfSome result (IsAnswerTo recorder.old.machine.image recorder.old.machine.config
        recorder.old.entries entry.now) }
    ensures numbers { is_some result ≡ has_numbers entry.now.kind entry.now }
{
    // what the type guarantees: its history is legal
    let _legal = recorder.entries();
    if !has_numbers(entry) {
        return None;
    }
    // No step keeps a burst.
    let mut kept = Vec::new(alloc);
    Some(do_step(recorder, &mut kept, &step_to(entry)))
}
