// A trace, replayed and checked.

ghost use Rattle.std.specs.Prelude.{◌≡◌, ◌≢◌, ◌++◌, ◌∷◌, [], ◌≤◌, None, IfOk, IfErr, IfSome, OnOk, length, take};
ghost use Rattle.svc_machine.specs.Events.{event_of};
ghost use Rattle.svc_machine_laws.specs.Events.{Submit};
ghost use Rattle.svc_history_laws.specs.Replay.{IsReplay, Lacks, ReplaysAs};
ghost use Rattle.svc_history.specs.Recorded.{IsLegal};
ghost use Rattle.svc_history.specs.Faults.{IsFault, IsWrongThere};

use crate::recorder::Recorder;
use crate::same::is_same;
use std::alloc::Global;
use svc_base::{Config, UnitId, WordAddr};
use svc_core::Burst;
use svc_history_laws::{Entry, Kind};
use svc_image::Image;
use svc_machine::{Event, Machine};
use thiserror::Error;

/// What is wrong with an entry of a trace.
#[derive(Clone, Copy, Debug, PartialEq, Eq, Error)]
pub enum TraceFaultKind {
    /// The allocator refused memory; the index is 0.
    #[error("out of memory")]
    Memory,
    /// Its event is refused there, or the entry lacks what its event needs.
    #[error("its event is refused there, or lacks what it needs")]
    Refused,
    /// Its event has another entry there.
    #[error("its event has another entry there")]
    Differs,
}

/// The first faulty entry of a trace.
#[derive(Clone, Copy, Debug, PartialEq, Eq, Error)]
#[error("entry {index}: {kind}")]
pub struct TraceFault {
    /// How many entries stand before it.
    pub index: usize,
    /// What is wrong with it.
    pub kind: TraceFaultKind,
}

// Replaces a burst by the one that an entry of a submission names where its machine stands. It answers `None` if the
// entry lacks what that needs.
fn make_burst(burst: &mut Burst, machine: &Machine, entry: &Entry) -> Option<()>
    ensures replay { IfSome result (λ _.
        ReplaysAs Kind.Submit machine.now.image machine.now.plain entry.now (Submit burst.new)) }
    ensures lacks { result ≡ None → Lacks Kind.Submit machine.now.image machine.now.plain entry.now }
{
    let lease = machine.lease(entry.unit)?;
    let turns = u32::from(entry.local?) + u32::from(entry.ask?);
    burst.refill(lease, machine.image(), turns);
    Some(())
}

// Replays the event that the entry names. A submission's burst replaces another one.
fn replay(recorder: &mut Recorder, burst: &mut Burst, entry: &Entry) -> Result<(), TraceFaultKind>
    ensures entries { OnOk result (recorder.new.entries ≡ recorder.old.entries ++ entry.now ∷ []) }
    ensures image { recorder.new.machine.image ≡ recorder.old.machine.image }
    ensures config { recorder.new.machine.config ≡ recorder.old.machine.config }
    ensures fault { IfErr result (IsWrongThere recorder.old entry.now) }
    ensures legal { IsLegal recorder.old }
{
    let machine = recorder.machine();
    let unit = entry.unit;
    match entry.kind {
        Kind::Assign => {
            let Some(guess) = entry.arg else {
                return Err(TraceFaultKind::Refused);
            };
            compare(recorder, entry, Event::Assign { unit, guess })
        }
        Kind::Submit => {
            let Some(()) = make_burst(burst, machine, entry) else {
                return Err(TraceFaultKind::Refused);
            };
            compare(recorder, entry, Event::Submit { burst })
        }
        Kind::Replace => {
            let Some(word) = entry.arg else {
                return Err(TraceFaultKind::Refused);
            };
            let addr = WordAddr(word);
            compare(recorder, entry, Event::Replace { unit, addr })
        }
        Kind::Cancel => compare(recorder, entry, Event::Cancel { unit }),
        Kind::Commit => compare(recorder, entry, Event::Commit { by: unit }),
    }
}

// Applies the event that the entry names, and compares its entry.
fn compare(recorder: &mut Recorder, entry: &Entry, event: Event<'_>) -> Result<(), TraceFaultKind>
    requires { IsReplay recorder.old.machine.image recorder.old.machine.plain entry.now (event_of event) }
    ensures entries { OnOk result (recorder.new.entries ≡ recorder.old.entries ++ entry.now ∷ []) }
    ensures image { recorder.new.machine.image ≡ recorder.old.machine.image }
    ensures config { recorder.new.machine.config ≡ recorder.old.machine.config }
    ensures fault { IsLegal recorder.old → IfErr result (IsWrongThere recorder.old entry.now) }
{
    match recorder.apply(event) {
        Ok(slip) if is_same(&slip.entry, entry) => Ok(()),
        Ok(_) => Err(TraceFaultKind::Differs),
        Err(_) => Err(TraceFaultKind::Refused),
    }
}

/// A recorder before any event.
///
/// Errors: [`TraceFaultKind::Memory`], at the index 0.
pub fn open_trace(alloc: Global, image: Image, config: Config) -> Result<Recorder, TraceFault>
    ensures image { IfOk result (λ r. r.machine.image ≡ image) }
    ensures config { IfOk result (λ r. r.machine.config ≡ config) }
    ensures entries { IfOk result (λ r. r.entries ≡ []) }
    ensures fault { IfErr result (λ fault. (fault.index ≡ 0) × (fault.kind ≡ TraceFaultKind.Memory)) }
{
    match Recorder::open(alloc, image, config) {
        Ok(recorder) => Ok(recorder),
        Err(_) => Err(TraceFault {
            index: 0,
            kind: TraceFaultKind::Memory,
        }),
    }
}

/// Continues the replay of these entries, of which the recorder has the first ones, up to the given number of them.
///
/// Errors: the first faulty entry, with what is wrong with it. The recorder's history may then end with an entry other
/// than the trace's. It takes no memory, so none is refused.
pub fn check_on(recorder: &mut Recorder, entries: &[Entry], count: usize) -> Result<(), TraceFault>
    requires begun { recorder.old.entries ≡ take (length recorder.old.entries) entries.now }
    requires further { length recorder.old.entries ≤ count }
    requires inside { count ≤ length entries.now }
    ensures image { recorder.new.machine.image ≡ recorder.old.machine.image }
    ensures config { recorder.new.machine.config ≡ recorder.old.machine.config }
    ensures entries { OnOk result (recorder.new.entries ≡ take count entries.now) }
    ensures fault { IfErr result
        (IsFault recorder.old.machine.image recorder.old.machine.config entries.now) }
    ensures no_memory { IfErr result (λ fault. fault.kind ≢ TraceFaultKind.Memory) }
{
    let mut burst = Burst::empty(UnitId(0));
    for index in recorder.entries().len()..count {
        if let Err(kind) = replay(recorder, &mut burst, &entries[index]) {
            return Err(TraceFault { index, kind });
        }
    }
    Ok(())
}

/// A recorder with exactly these entries, replayed from before any event. It succeeds exactly when they are legal,
/// unless memory is refused.
///
/// Errors: the first faulty entry, with what is wrong with it.
pub fn check_trace(
    alloc: Global,
    image: Image,
    config: Config,
    entries: &[Entry],
) -> Result<Recorder, TraceFault>
    ensures image { IfOk result (λ r. r.machine.image ≡ image) }
    ensures config { IfOk result (λ r. r.machine.config ≡ config) }
    ensures entries { IfOk result (λ r. r.entries ≡ entries.now) }
    ensures legal { IfOk result IsLegal }
    ensures fault { IfErr result (IsFault image config entries.now) }
{
    let mut recorder = open_trace(alloc, image, config)?;
    check_on(&mut recorder, entries, entries.len())?;
    // what the type guarantees: its history is legal
    let _legal = recorder.entries();
    Ok(recorder)
}
