//! Calls that open machines and recorders. What they open then takes ten events, for which it asks for no more memory.

ghost use Rattle.std.specs.Prelude.{◌≡◌, is_some};
ghost use Rattle.svc_library_calls.specs.Calls.{machine_calls, is_one_of};

use crate::attempt::{Attempt, Refused, ready};
use crate::images::sample;
use std::alloc::Global;
use svc_base::{Config, OpenError, UnitId};
use svc_core::{Burst, Core, Lease, MAX_BURST_TURNS};
use svc_core_laws::Ending;
use svc_history::{Event, Machine, Recorder, TraceFaultKind, check_trace};
use svc_machine::drive;
use svc_samples::{Line, TEN, TEN_ENTRIES};
use svc_schedule::{Youngest, run_schedule};

/// Makes the call of this name, if it is one of these.
pub fn attempt(alloc: Global, name: &str) -> Option<Attempt>
    ensures { is_some result ≡ is_one_of machine_calls name.now }
{
    match name {
        "machine_open" => Some(open(alloc)),
        "machine_open_from" => Some(open_from(alloc)),
        "drive" => Some(driven(alloc)),
        "recorder_open" => Some(record(alloc)),
        "check_trace" => Some(check(alloc)),
        "run_schedule" => Some(scheduled(alloc)),
        _ => None,
    }
}

// Four units, and room for only the ten events.
fn four_units() -> Result<Config, Refused> {
    ready(Config::new(4, 16, 2, 10, 1))
}

// The burst by which the unit of a line runs its task on.
fn burst(machine: &Machine, line: Line) -> Option<Burst> {
    match line {
        Line::Submit(unit) => {
            let lease = machine.lease(UnitId(unit))?;
            Some(lease.advance(machine.image(), MAX_BURST_TURNS))
        }
        Line::Assign(..) | Line::Cancel(_) | Line::Commit(_) => None,
    }
}

// The event of a line, with that burst.
fn event(line: Line, burst: &Option<Burst>) -> Option<Event<'_>> {
    match line {
        Line::Assign(unit, guess) => Some(Event::Assign {
            unit: UnitId(unit),
            guess,
        }),
        Line::Submit(_) => burst.as_ref().map(|burst| Event::Submit { burst }),
        Line::Cancel(unit) => Some(Event::Cancel { unit: UnitId(unit) }),
        Line::Commit(by) => Some(Event::Commit { by: UnitId(by) }),
    }
}

// Both tasks are committed, and the second has output what the first stored.
fn is_done(machine: &Machine) -> bool {
    machine.output() == [5].as_slice()
        && machine.committed_tasks() == 2
        && machine.ending() == Ending::Exit(5)
}

// The machine takes each of the ten events.
fn steps(machine: &mut Machine) -> bool {
    for line in TEN {
        let burst = burst(machine, line);
        let Some(event) = event(line, &burst) else {
            return false;
        };
        if machine.step(event).is_err() {
            return false;
        }
    }
    is_done(machine)
}

// The recorder takes each of the ten events.
fn applies(recorder: &mut Recorder) -> bool {
    for line in TEN {
        let burst = burst(recorder.machine(), line);
        let Some(event) = event(line, &burst) else {
            return false;
        };
        if recorder.apply(event).is_err() {
            return false;
        }
    }
    recorder.entries().len() == 10 && is_done(recorder.machine())
}

// What an opening answers, and then the events.
fn stepped(opened: Result<Machine, OpenError>) -> Attempt {
    match opened {
        Ok(mut machine) => Ok(steps(&mut machine)),
        Err(OpenError::Memory) => Err(Refused::Told),
    }
}

/// A machine is opened, and takes ten events.
fn open(alloc: Global) -> Attempt {
    let config = four_units()?;
    stepped(Machine::open(alloc, sample(alloc)?, config))
}

/// A machine is opened from a later epoch on, and takes ten events.
fn open_from(alloc: Global) -> Attempt {
    let config = four_units()?;
    stepped(Machine::open_from(alloc, sample(alloc)?, config, 7))
}

/// A recorder is opened, and takes ten events.
fn record(alloc: Global) -> Attempt {
    let config = four_units()?;
    match Recorder::open(alloc, sample(alloc)?, config) {
        Ok(mut recorder) => Ok(applies(&mut recorder)),
        Err(OpenError::Memory) => Err(Refused::Told),
    }
}

/// A machine is driven over the first task: it is begun, its store is submitted, and it is committed. If that is
/// refused, another machine takes the ten events.
fn driven(alloc: Global) -> Attempt {
    let config = four_units()?;
    let image = sample(alloc)?;
    let lease = Lease::new(UnitId(0), 0, Core::start(&image, image.start()));
    let burst = lease.advance(&image, MAX_BURST_TURNS);
    let events = [
        Event::Assign {
            unit: UnitId(0),
            guess: 0,
        },
        Event::Submit { burst: &burst },
        Event::Commit { by: UnitId(0) },
    ];
    match drive(alloc, image, config, &events) {
        Ok(machine) => Ok(machine.committed_tasks() == 1 && machine.due() == Some(12)),
        Err(OpenError::Memory) => match open(alloc) {
            Ok(true) => Err(Refused::Told),
            _ => Ok(false),
        },
    }
}

/// Both tasks are run by four units in one thread, the youngest task first.
fn scheduled(alloc: Global) -> Attempt {
    let config = ready(Config::new(4, 16, 2, 100, 1_000))?;
    let image = sample(alloc)?;
    match run_schedule(alloc, &image, config, MAX_BURST_TURNS, &mut Youngest) {
        Ok(recorder) => Ok(recorder.entries().len() == 54 && is_done(recorder.machine())),
        Err(OpenError::Memory) => Err(Refused::Told),
    }
}

/// The history of the ten events is replayed.
fn check(alloc: Global) -> Attempt {
    let config = four_units()?;
    let image = sample(alloc)?;
    match check_trace(alloc, image, config, &TEN_ENTRIES) {
        Ok(replayed) => Ok(is_done(replayed.machine())),
        Err(fault) if fault.kind == TraceFaultKind::Memory && fault.index == 0 => {
            Err(Refused::Told)
        }
        Err(_) => Ok(false),
    }
}
