// The words of which a machine holds something.

ghost use Rattle.std.specs.Prelude.{IfOk};
ghost use Rattle.svc_core_laws.specs.Turns.{data_words};
ghost use Rattle.svc_bus.specs.State.{bus_state};
ghost use Rattle.svc_held.specs.Held.{IsHeldBy};

use crate::holds::words_of;
use crate::named::{Named, named_words};
use std::alloc::{AllocError, Global};
use svc_history::Recorder;
use svc_span::Span;

/// The words of a history's machine that can be in a line or spilled, those that its entries name, and those that are
/// asked for, in their order. No other word need be looked up.
///
/// Errors: [`AllocError`], if memory runs out.
pub fn held_words(
    alloc: Global,
    recorder: &Recorder,
    asked: Option<Span>,
) -> Result<Vec<Named>, AllocError>
    ensures { let m = recorder.now.machine in
        IfOk result (λ named. IsHeldBy (bus_state m.bus) (data_words m.image) asked named.items) }
{
    let machine = recorder.machine();
    // its image is sound, so its history names each word that is held
    let _start = machine.image().start();
    named_words(alloc, recorder.entries(), words_of(machine), asked)
}
