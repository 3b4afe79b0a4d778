// What is seen of a move: what its entry says happened to which task, by the numbers that tasks had before it.

ghost use Rattle.std.specs.Prelude.{◌≡◌, ◌==◌, ◌≤◌, ◌<◌, ◌++◌, ◌∷◌, [], IfOk, IfSome, OnOk, length, map, option_map};
ghost use Rattle.std.specs.Prelude.{position, slice_get, unwrap_or};
ghost use Rattle.svc_machine_laws.specs.Events.{place_in};
ghost use Rattle.svc_history.specs.Recorded.{standing_of};
ghost use Rattle.svc_explore_laws.specs.Observations.{happened, happened_so, happening_of, numbers, squashed};
ghost use Rattle.svc_explore_laws.specs.Observations.{squashed_so, supplier_of, task_of, value_of, why_of};
ghost use Rattle.svc_explore_laws.specs.Observations.{word_violated};
ghost use Rattle.svc_observations.specs.Rosters.{numbers_in, unit_numbers, unit_told};

use crate::roster::Roster;
use std::alloc::{AllocError, Global};
use svc_base::{UnitId, WordAddr};
use svc_explore_laws::{By, Happening, Observation};
use svc_history::Recorder;
use svc_history_laws::{CutKind, Entry, ReplyKind, ServedKind};
use svc_machine::Machine;

// Adds the unit of the active task at a place, where there is one.
fn push_unit_at(units: &mut Vec<UnitId>, machine: &Machine, place: usize) -> Result<(), AllocError>
    ensures { OnOk result (unit_numbers units.new.items
        ≡ unit_numbers units.old.items ++ unit_told (slice_get machine.now.plain.tasks place)) }
{
    match machine.task_at(place) {
        Some(task) => push_unit(units, task.unit),
        None => Ok(()),
    }
}

fn push_unit(units: &mut Vec<UnitId>, unit: UnitId) -> Result<(), AllocError>
    ensures { OnOk result (unit_numbers units.new.items ≡ unit_numbers units.old.items ++ unit.0 ∷ []) }
{
    units.push(unit)?;
    Ok(())
}

// The units of the active tasks, the oldest first.
fn units_of(alloc: Global, machine: &Machine) -> Result<Vec<UnitId>, AllocError>
    ensures { IfOk result (λ units. unit_numbers units.items ≡ map (λ task. task.unit) machine.now.plain.tasks) }
{
    let mut units = Vec::new(alloc);
    for place in 0..machine.active_tasks() {
        push_unit_at(&mut units, machine, place)?;
    }
    Ok(units)
}

/// The numbers of the tasks where a recorder's history leads.
///
/// Errors: [`AllocError`], if memory runs out.
pub fn roster_of(alloc: Global, recorder: &Recorder) -> Result<Roster, AllocError>
    ensures { IfOk result (λ roster. numbers_in roster ≡ numbers (standing_of recorder.now).plain) }
{
    let machine = recorder.machine();
    let _start = machine.image().start();
    let _config = machine.config();
    let units = units_of(alloc, machine)?;
    Ok(Roster {
        head: machine.committed_tasks(),
        units,
    })
}

fn find_unit(units: &[UnitId], unit: UnitId) -> Option<usize>
    ensures place { result ≡ position (λ other. other.0 == unit.0) units.now }
    ensures within { IfSome result (λ place. place < length units.now) }
{
    units.iter().position(|other| other.0 == unit.0)
}

// The place of the unit, or how many there are.
fn place_of(units: &[UnitId], unit: UnitId) -> usize
    ensures place { result ≡ unwrap_or (place_in (unit_numbers units.now) unit.0) (length units.now) }
    ensures within { result ≤ length units.now }
{
    match find_unit(units, unit) {
        Some(place) => place,
        None => units.len(),
    }
}

// The number of the unit's task, or of the next one to begin.
fn number_of(roster: &Roster, unit: UnitId) -> u64
    ensures { result ≡ (numbers_in roster.now).of_unit unit.0 }
{
    roster.head + place_of(&roster.units, unit) as u64
}

fn happening_of(reply: ReplyKind) -> Option<Happening>
    ensures { result ≡ happening_of reply }
{
    match reply {
        ReplyKind::Assigned => Some(Happening::Begin),
        ReplyKind::Ran => None,
        ReplyKind::Loaded => Some(Happening::Load),
        ReplyKind::Stored => Some(Happening::Store),
        ReplyKind::Emitted => Some(Happening::Output),
        ReplyKind::Trapped => Some(Happening::Trap),
        ReplyKind::Replaced => Some(Happening::Replace),
        ReplyKind::Cancelled => None,
        ReplyKind::Committed => Some(Happening::Commit),
    }
}

fn supplier_of(roster: &Roster, from: Option<UnitId>, served: ServedKind) -> By
    ensures { result ≡ supplier_of (numbers_in roster.now) from served }
{
    match served {
        ServedKind::Hit => By::Hit,
        ServedKind::Reuse => By::Reuse,
        ServedKind::Version => By::Version(number_of(roster, from.unwrap_or(UnitId(0)))),
        ServedKind::Spill => By::Spill,
        ServedKind::Committed => By::Committed,
        ServedKind::Memory => By::Memory,
    }
}

fn task_of(roster: &Roster, entry: &Entry, what: Happening) -> u64
    ensures { result ≡ task_of (numbers_in roster.now) entry.now what }
{
    match what {
        Happening::Commit => roster.head,
        _ => number_of(roster, entry.unit),
    }
}

fn value_of(what: Happening, word: Option<u32>) -> Option<u32>
    ensures { result ≡ value_of what word }
{
    match what {
        Happening::Commit => None,
        _ => word,
    }
}

fn address_of(addr: Option<WordAddr>) -> Option<u32>
    ensures { result ≡ option_map (λ addr. addr.0) addr }
{
    match addr {
        Some(addr) => Some(addr.0),
        None => None,
    }
}

fn supplied_by(roster: &Roster, entry: &Entry) -> Option<By>
    ensures { result ≡ option_map (supplier_of (numbers_in roster.now) entry.now.from) entry.now.served }
{
    match entry.served {
        Some(served) => Some(supplier_of(roster, entry.from, served)),
        None => None,
    }
}

fn happened_so(roster: &Roster, entry: &Entry, what: Happening) -> Observation
    ensures { result ≡ happened_so (numbers_in roster.now) entry.now what }
{
    Observation {
        what,
        task: task_of(roster, entry, what),
        word: address_of(entry.addr),
        value: value_of(what, entry.word),
        by: supplied_by(roster, entry),
    }
}

/// What the entry's answer says happened, where the roster has the numbers of the tasks before it.
pub fn happened(roster: &Roster, entry: &Entry) -> Option<Observation>
    ensures { result ≡ happened (numbers_in roster.now) entry.now }
{
    match happening_of(entry.reply) {
        Some(what) => Some(happened_so(roster, entry, what)),
        None => None,
    }
}

fn why_of(why: CutKind) -> By
    ensures { result ≡ why_of why }
{
    match why {
        CutKind::Violation => By::Violation,
        CutKind::Guess => By::Guess,
        CutKind::Cancel => By::Cancel,
    }
}

fn word_violated(entry: &Entry, why: CutKind) -> Option<u32>
    ensures { result ≡ word_violated entry.now why }
{
    match why {
        CutKind::Violation => address_of(entry.addr),
        CutKind::Guess => None,
        CutKind::Cancel => None,
    }
}

fn number_told(first: Option<u32>) -> u64
    ensures { result ≡ unwrap_or first 0 }
{
    match first {
        Some(number) => u64::from(number),
        None => 0,
    }
}

fn squashed_so(entry: &Entry, why: CutKind) -> Observation
    ensures { result ≡ squashed_so entry.now why }
{
    Observation {
        what: Happening::Squash,
        task: number_told(entry.first),
        word: word_violated(entry, why),
        value: entry.squashed,
        by: Some(why_of(why)),
    }
}

/// Which tasks the entry says were squashed.
pub fn squashed(entry: &Entry) -> Option<Observation>
    ensures { result ≡ squashed entry.now }
{
    match entry.cause {
        Some(why) => Some(squashed_so(entry, why)),
        None => None,
    }
}
