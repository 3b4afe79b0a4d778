//! Scripts played on a recorder: the events of a script, one after another, and the line of each step.

ghost use Rattle.std.specs.Prelude.{◌≡◌, ◌<◌, length, replicate, slice_set, None, Some, IfOk, IfErr, OnOk};
ghost use Rattle.std.specs.Io.KnownBytes.{Appends};
ghost use Rattle.svc_base.specs.declared.refusal.Refusal.TheVariants as refusal;
ghost use Rattle.svc_machine.specs.Events.{event_of};
ghost use Rattle.svc_machine.specs.Reads.{lease_of};
ghost use Rattle.svc_request.specs.Faults.{IsOutputFault};
ghost use Rattle.svc_script.specs.Playing.{DoesKind, Gives, HasBurst, HasPlayed, Submits, Takes, Tries, answer_row};
ghost use Rattle.svc_script.specs.Playing.{kept_for};

use crate::script::{Step, StepKind};
use std::alloc::Global;
use std::io::Write;
use svc_base::{OpenError, Refusal, UnitId};
use svc_core::Burst;
use svc_history::{Entry, Event, Recorder};
use svc_report::write_entry;
use svc_request::Fault;

/// The outcome of a step of a script.
#[derive(Clone, Copy)]
pub enum Answer {
    /// Its event was accepted.
    Accepted(Entry),
    /// Its event was refused, and changed nothing.
    Refused(Refusal),
    /// A burst is kept: its number of local turns, and whether it asks.
    Taken { local: u32, ask: bool },
    /// There was no task to run on, or no burst to submit.
    Nothing,
}

/// The bursts that are kept, by unit.
pub type Kept = Vec<Option<Burst>>;

/// A place for each unit, with no burst in it.
///
/// Errors: [`OpenError::Memory`].
pub fn no_bursts(alloc: Global, units: u32) -> Result<Kept, OpenError>
    ensures { IfOk result (λ kept. kept.items ≡ replicate units None) }
{
    let mut kept = Vec::new(alloc);
    for _unit in 0..units {
        if kept.push(None).is_err() {
            return Err(OpenError::Memory);
        }
    }
    Ok(kept)
}

/// Does the steps, and prints a line for each.
///
/// Errors: a line couldn't be printed. The steps up to the one whose line it is are done.
pub fn play<O: Write>(
    alloc: Global,
    recorder: &mut Recorder,
    kept: &mut Kept,
    steps: &[Step],
    out: &mut O,
) -> Result<(), Fault>
    ensures played { OnOk result (HasPlayed steps.now
        (length steps.now) recorder.old kept.old.items recorder.new kept.new.items (O.contents out.old)
        (O.contents out.new)) }
    ensures fault { IfErr result IsOutputFault }
{
    for step in steps {
        let answer = do_step(recorder, kept, step);
        write_answer(alloc, &answer, out)?;
    }
    Ok(())
}

// Does a step.
pub(crate) fn do_step(recorder: &mut Recorder, kept: &mut Kept, step: &Step) -> Answer
    ensures step { DoesKind step.now.kind step.now.unit recorder.old kept.old.items result recorder.new kept.new.items }
    ensures image { recorder.new.machine.image ≡ recorder.old.machine.image }
    ensures config { recorder.new.machine.config ≡ recorder.old.machine.config }
{
    let unit = step.unit;
    match step.kind {
        StepKind::Assign(guess) => try_event(recorder, Event::Assign { unit, guess }),
        StepKind::Submit(turns) => submit(recorder, unit, turns),
        StepKind::Replace(addr) => try_event(recorder, Event::Replace { unit, addr }),
        StepKind::Cancel => try_event(recorder, Event::Cancel { unit }),
        StepKind::Commit => try_event(recorder, Event::Commit { by: unit }),
        StepKind::Take(turns) => take(recorder, kept, unit, turns),
        StepKind::Give => give(recorder, kept, unit),
    }
}

// Tries an event.
fn try_event(recorder: &mut Recorder, event: Event<'_>) -> Answer
    ensures tries { Tries recorder.old (event_of event.entry) result recorder.new }
    ensures image { recorder.new.machine.image ≡ recorder.old.machine.image }
    ensures config { recorder.new.machine.config ≡ recorder.old.machine.config }
{
    match recorder.apply(event) {
        Ok(slip) => Answer::Accepted(slip.entry),
        Err(refusal) => Answer::Refused(refusal),
    }
}

// The burst that runs the unit's task on by at most this many turns.
fn burst(recorder: &Recorder, unit: UnitId, turns: u32) -> Result<Burst, Refusal>
    ensures { HasBurst recorder.now unit turns (lease_of recorder.now.machine unit.0) result }
{
    let machine = recorder.machine();
    match machine.lease(unit) {
        Some(lease) => Ok(lease.advance(machine.image(), turns)),
        None if u32::from(unit.0) < machine.config().units => Err(Refusal::Idle),
        None => Err(Refusal::NoSuchUnit),
    }
}

// Runs the unit's task on, and submits that burst.
fn submit(recorder: &mut Recorder, unit: UnitId, turns: u32) -> Answer
    ensures submits { Submits (lease_of recorder.old.machine unit.0) turns unit recorder.old result recorder.new }
    ensures image { recorder.new.machine.image ≡ recorder.old.machine.image }
    ensures config { recorder.new.machine.config ≡ recorder.old.machine.config }
{
    match burst(recorder, unit, turns) {
        Ok(burst) => try_event(recorder, Event::Submit { burst: &burst }),
        Err(refusal) => Answer::Refused(refusal),
    }
}

// Runs the unit's task on, and keeps that burst.
fn take(recorder: &Recorder, kept: &mut Kept, unit: UnitId, turns: u32) -> Answer
    ensures { Takes (lease_of recorder.now.machine unit.0) turns unit recorder.now kept.old.items result
        kept.new.items }
{
    let Ok(burst) = burst(recorder, unit, turns) else {
        return Answer::Nothing;
    };
    let local = burst.local();
    let ask = !burst.ask().is_nothing();
    let place = unit.0 as usize;
    if place < kept.len() {
        kept[place] = Some(burst);
    }
    Answer::Taken { local, ask }
}

// Submits the burst kept for the unit, which is then no longer kept.
fn give(recorder: &mut Recorder, kept: &mut Kept, unit: UnitId) -> Answer
    ensures gives { Gives (kept_for kept.old.items unit) recorder.old result recorder.new }
    ensures kept { kept.new.items ≡ slice_set kept.old.items unit.0 None }
    ensures image { recorder.new.machine.image ≡ recorder.old.machine.image }
    ensures config { recorder.new.machine.config ≡ recorder.old.machine.config }
{
    match take_out(kept, unit) {
        Some(burst) => try_event(recorder, Event::Submit { burst: &burst }),
        None => Answer::Nothing,
    }
}

// Takes the unit's burst out of its place.
fn take_out(kept: &mut Kept, unit: UnitId) -> Option<Burst>
    ensures burst { result ≡ kept_for kept.old.items unit }
    ensures kept { kept.new.items ≡ slice_set kept.old.items unit.0 None }
{
    let place = unit.0 as usize;
    if place < kept.len() {
        kept[place].take()
    } else {
        None
    }
}

// Prints the line of an answer.
fn write_answer<O: Write>(alloc: Global, answer: &Answer, out: &mut O) -> Result<(), Fault>
    ensures text { OnOk result (Appends (O.contents out.old) (O.contents out.new) (answer_row answer.now)) }
    ensures fault { IfErr result IsOutputFault }
{
    match answer {
        Answer::Accepted(entry) => write_entry(alloc, entry, out)?,
        Answer::Refused(refusal) => writeln!(out, "refused,{}", refusal.number())?,
        Answer::Taken { local, ask: true } => writeln!(out, "taken,{local},1")?,
        Answer::Taken { local, ask: false } => writeln!(out, "taken,{local},0")?,
        Answer::Nothing => writeln!(out, "none")?,
    }
    Ok(())
}
