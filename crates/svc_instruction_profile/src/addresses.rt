// At which instruction each entry of a trace asks.

ghost use Rattle.std.specs.Prelude.{◌≡◌, ◌+◌, ◌<◌, ◌≤◌, ◌++◌, ◌∷◌, [], Some, IfOk, IfErr, OnOk, length, slice_get};
ghost use Rattle.std.specs.Prelude.{take};
ghost use Rattle.svc_base.specs.declared.config.TheConstants.{MAX_EVENTS};
ghost use Rattle.svc_history.specs.Faults.{IsFault};
ghost use Rattle.svc_history_laws.specs.declared.entry.Entry.{Entry};
ghost use Rattle.svc_history_laws.specs.Legal.{LegalEntry, LegalHistory};
ghost use Rattle.svc_machine_laws.specs.Standing.{Standing};
ghost use Rattle.svc_instruction_profile.specs.Addresses.{address_at, address_there, addresses, asks};

use std::alloc::Global;
use svc_base::{Config, UnitId};
use svc_core::Burst;
use svc_history::{
    Entry, Kind, Machine, Recorder, TraceFault, TraceFaultKind, check_on, open_trace,
};
use svc_history_laws::history_leads_on;
use svc_image::Image;

// The entry has an asked turn.
fn asks(entry: &Entry) -> bool
    ensures { result ≡ asks entry.now }
{
    match entry.kind {
        Kind::Submit => entry.ask.unwrap_or(false),
        Kind::Assign | Kind::Replace | Kind::Cancel | Kind::Commit => false,
    }
}

// The address of the instruction at which an entry asks, if it does. A burst is made in the place of another one.
fn address_at(machine: &Machine, burst: &mut Burst, entry: &Entry) -> Option<u32>
    ensures { (s : Standing) → s.plain ≡ machine.now.plain
        → LegalEntry machine.now.image machine.now.config s entry.now
        → result ≡ address_at machine.now.image machine.now.plain entry.now }
{
    if !asks(entry) {
        return None;
    }
    let lease = machine.lease(entry.unit)?;
    let local = u32::from(entry.local.unwrap_or(0));
    burst.refill(lease, machine.image(), local + 1);
    Some(burst.end().pc())
}

// A fault of the allocator.
fn no_memory() -> TraceFault
    ensures { (result.index ≡ 0) × (result.kind ≡ TraceFaultKind.Memory) }
{
    TraceFault {
        index: 0,
        kind: TraceFaultKind::Memory,
    }
}

// Adds the address of an entry.
fn push_address(asked: &mut Vec<Option<u32>>, address: Option<u32>) -> Result<(), TraceFault>
    ensures added { OnOk result (asked.new.items ≡ asked.old.items ++ address ∷ []) }
    ensures fault { IfErr result (λ fault. (fault.index ≡ 0) × (fault.kind ≡ TraceFaultKind.Memory)) }
{
    if asked.push(address).is_err() {
        return Err(no_memory());
    }
    Ok(())
}

// Replays the next entry, and tells the address of the instruction at which it asks, if it does.
fn note(
    recorder: &mut Recorder,
    burst: &mut Burst,
    entries: &[Entry],
    index: usize,
) -> Result<Option<u32>, TraceFault>
    requires begun { recorder.old.entries ≡ take index entries.now }
    requires inside { index < length entries.now }
    ensures image { recorder.new.machine.image ≡ recorder.old.machine.image }
    ensures config { recorder.new.machine.config ≡ recorder.old.machine.config }
    ensures entries { OnOk result (recorder.new.entries ≡ take (index + 1) entries.now) }
    ensures address { IfOk result (λ address. (e : Entry) → slice_get entries.now index ≡ Some e
        → address ≡ address_there recorder.old.machine.image recorder.old.machine.config (take index entries.now) e) }
    ensures fault { IfErr result
        (IsFault recorder.old.machine.image recorder.old.machine.config entries.now) }
{
    let address = address_at(recorder.machine(), burst, &entries[index]);
    check_on(recorder, entries, index + 1)?;
    // what the type guarantees: its history is legal
    let _legal = recorder.entries();
    Ok(address)
}

// Replays all entries, and adds the address of each.
fn note_all(
    recorder: &mut Recorder,
    entries: &[Entry],
    asked: &mut Vec<Option<u32>>,
) -> Result<(), TraceFault>
    requires none_yet { recorder.old.entries ≡ [] }
    requires none { asked.old.items ≡ [] }
    ensures image { recorder.new.machine.image ≡ recorder.old.machine.image }
    ensures config { recorder.new.machine.config ≡ recorder.old.machine.config }
    ensures entries { OnOk result (recorder.new.entries ≡ entries.now) }
    ensures asked { OnOk result (asked.new.items
        ≡ addresses recorder.old.machine.image recorder.old.machine.config entries.now) }
    ensures fault { IfErr result
        (IsFault recorder.old.machine.image recorder.old.machine.config entries.now) }
{
    let mut burst = Burst::empty(UnitId(0));
    for index in 0..entries.len() {
        let address = note(recorder, &mut burst, entries, index)?;
        push_address(asked, address)?;
    }
    Ok(())
}

/// The address of the instruction at which each entry asks, if it does. The entries are replayed from before any event.
/// It succeeds exactly when they are legal, unless memory is refused.
///
/// Errors: the first faulty entry, with what is wrong with it.
pub fn asked_at(
    alloc: Global,
    image: Image,
    config: Config,
    entries: &[Entry],
) -> Result<Vec<Option<u32>>, TraceFault>
    ensures asked { IfOk result (λ asked. asked.items ≡ addresses image config entries.now) }
    ensures same { IfOk result (λ asked. length asked.items ≡ length entries.now) }
    ensures legal { IfOk result (λ asked. LegalHistory image config entries.now) }
    ensures few { IfOk result (λ asked. length entries.now ≤ MAX_EVENTS) }
    ensures fault { IfErr result (IsFault image config entries.now) }
{
    // a legal history has no more entries than the configuration allows
    let _start = image.start();
    let mut recorder = open_trace(alloc, image, config)?;
    let mut asked = Vec::new(alloc);
    note_all(&mut recorder, entries, &mut asked)?;
    // what the type guarantees: its history is legal
    let _legal = recorder.entries();
    history_leads_on();
    Ok(asked)
}
