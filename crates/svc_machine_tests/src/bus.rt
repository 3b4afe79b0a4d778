//! A bus: rows of calls with their answers.

ghost use Rattle.std.specs.Prelude.{◌≡◌, ◌<◌, ◌≤◌, true, false, length, IfOk, IsTrue};
ghost use Rattle.std.specs.Int.{is_power_of_two};
ghost use Rattle.svc_base.specs.declared.config.TheConstants.{MAX_SETS, MAX_WAYS};
ghost use Rattle.svc_bus_laws.specs.Refusals.{is_head};
ghost use Rattle.svc_bus.specs.State.{bus_state};
ghost use Rattle.svc_bus.specs.Calls.{IsAtWork};

use bitflags::Flags;
use std::alloc::Global;
use std::process::Abort;
use svc_base::{Refusal, UnitId, WordAddr};
use svc_bus::{Bus, Served, Victim};

mod rows;

// The unit has a task.
fn is_at_work(bus: &Bus, unit: UnitId) -> bool
    ensures yes { result ≡ true → IsAtWork (bus_state bus.now) unit.0 }
    ensures no { result ≡ false → ¬ IsAtWork (bus_state bus.now) unit.0 }
{
    for position in 0..bus.active_tasks() {
        if bus.unit_at(position).0 == unit.0 {
            return true;
        }
    }
    false
}

// The unit's task is the oldest one.
fn runs_head(bus: &Bus, unit: UnitId) -> bool
    ensures { result ≡ is_head (bus_state bus.now).units unit.0 }
{
    bus.active_tasks() > 0 && bus.unit_at(0).0 == unit.0
}

// A call of a bus.
#[derive(Clone, Copy)]
enum Step {
    Begin(u8),
    Read(u8, u32),
    Write(u8, u32, u32),
    Replace(u8, u32),
    Commit,
    Squash(u8),
    Memory(u32),
    Backing(u32),
    Line(u8, u32),
    Full(u8, u32),
}

// What it answers.
#[derive(Clone, Copy, Debug, PartialEq, Eq)]
enum Answer {
    Done,
    WasRead(Result<(u32, Served), Refusal>),
    Written(Result<Option<Victim>, Refusal>),
    Replaced(Result<(), Refusal>),
    Word(u32),
    // the bits and the value
    Line(Option<(u8, u32)>),
    Named(Option<WordAddr>),
}

// The bits of a line.
const V: u8 = 1;

const S: u8 = 2;

const L: u8 = 4;

const C: u8 = 8;

const T: u8 = 16;

const UNITS: u32 = 4;

// A bus of four units.
fn open(rt: &impl Abort, alloc: Global, sets: u32, ways: u32, words: &[u32]) -> Bus
    requires few_sets { sets ≤ MAX_SETS }
    requires some_ways { 1 ≤ ways }
    requires few_ways { ways ≤ MAX_WAYS }
{
    assert!(rt; sets.is_power_of_two());
    assert!(rt; words.len() < 100);
    let memory = Vec::from_slice(alloc, words).expect(rt, "memory");
    Bus::open(alloc, UNITS, sets, ways, memory).expect(rt, "a bus")
}

fn begin(rt: &impl Abort, bus: &mut Bus, unit: UnitId) {
    assert!(rt; usize::from(unit.0) < bus.units());
    assert!(rt; !is_at_work(bus, unit));
    bus.begin(unit);
}

fn commit(rt: &impl Abort, bus: &mut Bus) {
    assert!(rt; bus.active_tasks() > 0);
    assert!(rt; bus.committed_tasks() < 1_000_000_000);
    bus.commit_head();
}

fn squash(rt: &impl Abort, bus: &mut Bus, unit: UnitId) {
    assert!(rt; is_at_work(bus, unit));
    assert!(rt; !runs_head(bus, unit));
    bus.squash_from(unit);
}

fn read(
    rt: &impl Abort,
    bus: &mut Bus,
    unit: UnitId,
    word: WordAddr,
) -> Result<(u32, Served), Refusal> {
    assert!(rt; is_at_work(bus, unit));
    assert!(rt; (word.0 as usize) < bus.words());
    bus.read(unit, word)
}

fn write(
    rt: &impl Abort,
    bus: &mut Bus,
    unit: UnitId,
    word: WordAddr,
    value: u32,
) -> Result<Option<Victim>, Refusal> {
    assert!(rt; is_at_work(bus, unit));
    assert!(rt; (word.0 as usize) < bus.words());
    bus.write(unit, word, value)
}

fn replace(rt: &impl Abort, bus: &mut Bus, unit: UnitId, word: WordAddr) -> Result<(), Refusal> {
    assert!(rt; usize::from(unit.0) < bus.units());
    bus.replace(unit, word)
}

fn committed(rt: &impl Abort, bus: &Bus, word: WordAddr) -> u32 {
    assert!(rt; (word.0 as usize) < bus.words());
    bus.committed_memory(word)
}

fn backing(rt: &impl Abort, bus: &Bus, word: WordAddr) -> u32 {
    assert!(rt; (word.0 as usize) < bus.words());
    bus.backing(word)
}

fn line(rt: &impl Abort, bus: &Bus, unit: UnitId, word: WordAddr) -> Option<(u8, u32)> {
    assert!(rt; usize::from(unit.0) < bus.units());
    let (bits, value) = bus.line_at(unit, word)?;
    Some((bits.bits(), value))
}

fn named(rt: &impl Abort, bus: &Bus, unit: UnitId, word: WordAddr) -> Option<WordAddr> {
    assert!(rt; usize::from(unit.0) < bus.units());
    bus.set_full(unit, word)
}

// The call's answer.
fn perform(rt: &impl Abort, bus: &mut Bus, step: Step) -> Answer {
    match step {
        Step::Begin(unit) => {
            begin(rt, bus, UnitId(unit));
            Answer::Done
        }
        Step::Read(unit, word) => Answer::WasRead(read(rt, bus, UnitId(unit), WordAddr(word))),
        Step::Write(unit, word, value) => {
            Answer::Written(write(rt, bus, UnitId(unit), WordAddr(word), value))
        }
        Step::Replace(unit, word) => Answer::Replaced(replace(
            rt,
            bus,
            UnitId(unit),
            WordAddr(word),
        )),
        Step::Commit => {
            commit(rt, bus);
            Answer::Done
        }
        Step::Squash(unit) => {
            squash(rt, bus, UnitId(unit));
            Answer::Done
        }
        Step::Memory(word) => Answer::Word(committed(rt, bus, WordAddr(word))),
        Step::Backing(word) => Answer::Word(backing(rt, bus, WordAddr(word))),
        Step::Line(unit, word) => Answer::Line(line(rt, bus, UnitId(unit), WordAddr(word))),
        Step::Full(unit, word) => Answer::Named(named(rt, bus, UnitId(unit), WordAddr(word))),
    }
}

// A hit makes one look-up, a reuse at least one, any other accepted read or write at least one for each unit, and none
// more than two for each; anything except an accepted read or write leaves the number.
fn check_probes(rt: &impl Abort, units: u32, answer: Answer, before: u32, after: u32) {
    let few = u64::from(after) <= 2 * u64::from(units);
    match answer {
        Answer::WasRead(Ok((_, Served::Hit))) => assert_eq!(rt; after, 1),
        Answer::WasRead(Ok((_, Served::Reuse))) => assert!(rt; after >= 1 && few),
        Answer::WasRead(Ok(_)) | Answer::Written(Ok(_)) => assert!(rt; after >= units && few),
        _ => assert_eq!(rt; before, after),
    }
}
