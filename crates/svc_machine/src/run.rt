//! Whole lists of events.

ghost use Rattle.std.specs.Prelude.{◌≡◌, map, IfOk};
ghost use Rattle.svc_machine_laws.specs.Events.{IsEvent};
ghost use Rattle.svc_machine_laws.specs.Standing.{accepted_commits, after_events, opened_at, whole_opened};
ghost use Rattle.svc_machine.specs.Events.{event_of};
ghost use Rattle.svc_machine.specs.Value.{StandsAt, IsSequentialMachine};

use crate::event::Event;
use crate::machine::Machine;
use std::alloc::Global;
use svc_base::{Config, OpenError};
use svc_image::Image;

/// A machine after these events; refused ones are skipped.
///
/// **The headline**: the committed tasks are the first k tasks of the program's sequential order, where k is the number
/// of accepted commits among the events, and committed memory and output are exactly what the plain evaluator gives by
/// running those k tasks one after another on one flat memory.
///
/// Errors: [`OpenError::Memory`].
pub fn drive(
    alloc: Global,
    image: Image,
    config: Config,
    events: &[Event<'_>],
) -> Result<Machine, OpenError>
    ensures image { IfOk result (λ m. m.image ≡ image) }
    ensures config { IfOk result (λ m. m.config ≡ config) }
    ensures standing { IfOk result
        (λ m. StandsAt m (after_events image config (opened_at image config 0) (map event_of events.now))) }
    ensures headline { IfOk result
        (λ m. IsSequentialMachine
        (accepted_commits image config (whole_opened image config 0) (map event_of events.now)) m) }
{
    let mut machine = Machine::open(alloc, image, config)?;
    for event in events {
        see(*event);
        let _refused = machine.step(*event);
    }
    let _open = &machine.image;
    Ok(machine)
}

// An event's burst, if it has one, ends where its looks lead from its start: its type guarantees that.
fn see(event: Event<'_>)
    ensures { IsEvent (event_of event.entry) }
{
    if let Event::Submit { burst } = event {
        let _end = burst.end();
    }
}
