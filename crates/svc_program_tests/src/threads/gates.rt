// Gates, and runs to their end.

use crate::threads::given::{Left, changed, config, one_task, opened, run, two_tasks};
use crossbeam_utils::Backoff;
use std::alloc::Global;
use std::process::Abort;
use std::sync::Wait;
use std::sync::atomic::{AtomicU64, Ordering};
use std::test::*;
use std::thread::Threads;
use svc_base::UnitId;
use svc_core_laws::Ending;
use svc_history::{Entry, Event, Recorder, Slip};
use svc_image::Image;
use svc_plain::run_tasks;
use svc_threads::{Gate, Outcome, Phase, run_unit, run_units};

/// The most snoozes of one wait.
pub(crate) const LIMIT: u32 = 1_000_000;

/// Lets every event through.
pub(crate) struct Open;

impl Gate for Open {
    fn pass(&self, _unit: UnitId, _phase: Phase<'_>) -> bool {
        true
    }
}

/// Waits until the counter has reached this number, for at most the limit of snoozes. It says whether it has.
pub(crate) fn wait_for(counter: &AtomicU64, count: u64) -> bool {
    let backoff = Backoff::new();
    for _ in 0..LIMIT {
        if counter.load(Ordering::SeqCst) >= count {
            return true;
        }
        backoff.snooze();
    }
    false
}

/// A counter for each of four units.
#[derive(Drop)]
pub(crate) struct Counters {
    of: [AtomicU64; 4],
}

impl Counters {
    pub(crate) fn new() -> Counters {
        Counters {
            of: [
                AtomicU64::new(0),
                AtomicU64::new(0),
                AtomicU64::new(0),
                AtomicU64::new(0),
            ],
        }
    }

    /// Counts one more for a unit, and says how many that makes.
    pub(crate) fn add(&self, unit: UnitId) -> u64 {
        match self.of.get(usize::from(unit.0)) {
            Some(counter) => counter.fetch_add(1, Ordering::SeqCst).saturating_add(1),
            None => 0,
        }
    }

    /// Waits until the unit's counter has reached this number.
    pub(crate) fn wait(&self, unit: u8, count: u64) -> bool {
        match self.of.get(usize::from(unit)) {
            Some(counter) => wait_for(counter, count),
            None => false,
        }
    }
}

/// The first assignment of each of four units waits for that of every other, and so do their submits, each for the
/// others' with its number.
#[derive(Drop)]
struct Meeting {
    assigns: Counters,
    submits: Counters,
    rounds: u64,
    missed: AtomicU64,
}

impl Meeting {
    fn meet(&self, counters: &Counters, count: u64) {
        for unit in 0..4 {
            if !counters.wait(unit, count) {
                self.missed.fetch_add(1, Ordering::SeqCst);
            }
        }
    }
}

impl Gate for Meeting {
    fn pass(&self, unit: UnitId, phase: Phase<'_>) -> bool {
        match phase {
            Phase::Before(Event::Assign { .. }) => {
                if self.assigns.add(unit) == 1 {
                    self.meet(&self.assigns, 1);
                }
            }
            Phase::Before(Event::Submit { .. }) => {
                let count = self.submits.add(unit);
                if count <= self.rounds {
                    self.meet(&self.submits, count);
                }
            }
            _ => {}
        }
        true
    }
}

// What a run of four units that meet leaves, and how often one waited in vain.
fn run_meeting<R: Threads + Wait + Abort + Sync>(rt: &R, alloc: Global) -> (Left, u64) {
    let config = config(rt, 4, 16, 100_000, 1_000_000);
    let image = changed(rt, alloc, 6_300, 0x0000_006F);
    let gate = Meeting {
        assigns: Counters::new(),
        submits: Counters::new(),
        rounds: 101,
        missed: AtomicU64::new(0),
    };
    let left = run(rt, alloc, &image, config, &gate);
    (left, gate.missed.load(Ordering::SeqCst))
}

#[test]
fn four_units_meet_at_each_submit(rt: HostRuntime) {
    let (left, missed) = run_meeting(&rt, rt.alloc());
    assert_eq!(rt; missed, 0);
    assert_eq!(rt; left.ending, Ending::Trap(1));
    assert_eq!(rt; left.committed, 1);
    assert_eq!(rt; left.lists, 4);
}

// What a run of four units on the sample of two tasks leaves.
fn run_two<R: Threads + Wait + Abort + Sync>(rt: &R, alloc: Global) -> Left {
    let config = config(rt, 4, 16, 1_000_000, 10_000_000);
    run(rt, alloc, &two_tasks(rt, alloc), config, &Open)
}

#[test]
fn four_units_run_two_tasks(rt: HostRuntime) {
    let left = run_two(&rt, rt.alloc());
    assert_eq!(rt; left.first_word, Some(5));
    assert_eq!(rt; left.words, 1);
    assert_eq!(rt; left.committed, 2);
    assert_eq!(rt; left.ending, Ending::Exit(5));
}

/// Says no at the n-th call of one unit.
#[derive(Drop)]
struct Closes {
    unit: UnitId,
    at: u64,
    calls: AtomicU64,
}

impl Gate for Closes {
    fn pass(&self, unit: UnitId, _phase: Phase<'_>) -> bool {
        unit != self.unit || self.calls.fetch_add(1, Ordering::SeqCst).saturating_add(1) != self.at
    }
}

fn closing(at: u64) -> Closes {
    Closes {
        unit: UnitId(0),
        at,
        calls: AtomicU64::new(0),
    }
}

// What a run of one unit whose gate closes leaves.
fn run_closing<R: Threads + Wait + Abort + Sync>(rt: &R, alloc: Global, at: u64) -> Left {
    let config = config(rt, 1, 16, 100_000, 10_000);
    run(rt, alloc, &one_task(rt, alloc), config, &closing(at))
}

#[test]
fn a_gate_that_closes_ends_one_unit(rt: HostRuntime) {
    for at in 1..13usize {
        let left = run_closing(&rt, rt.alloc(), at as u64);
        assert_eq!(rt; left.entries, at / 2);
        let committed = if at == 12 { 1 } else { 0 };
        assert_eq!(rt; left.committed, committed);
    }
}

// The output is what the plain evaluator gives for that many tasks: nothing, or 5.
fn output_is_sound(rt: &impl Abort, alloc: Global, image: &Image, outcome: &Outcome) -> bool {
    let machine = outcome.recorder.machine();
    let plain = run_tasks(alloc, image, machine.committed_tasks()).expect(rt, "a plain run");
    matches!(machine.output(), [] | [5]) && machine.output() == plain.output.as_slice()
}

// The same for a run of four units, the first of which has a gate that closes.
fn closing_is_sound<R: Threads + Wait + Abort + Sync>(rt: &R, alloc: Global, at: u64) -> bool {
    let config = config(rt, 4, 16, 100_000, 10_000);
    let image = two_tasks(rt, alloc);
    let outcome = run_units(rt, alloc, &image, config, &closing(at)).expect(rt, "an outcome");
    output_is_sound(rt, alloc, &image, &outcome)
}

#[test]
fn a_gate_that_closes_leaves_a_sound_run(rt: HostRuntime) {
    for at in 1..21u64 {
        assert!(rt; closing_is_sound(&rt, rt.alloc(), at));
    }
}

// What the one unit's thread brings back, and the recorder that it leaves.
fn one_unit<R: Wait + Abort>(rt: &R, alloc: Global) -> (Vec<Slip>, Recorder) {
    let config = config(rt, 1, 16, 100, 50);
    let (bus, pass) = opened(rt, alloc, one_task(rt, alloc), config);
    let image = one_task(rt, alloc);
    let slips = run_unit(rt, alloc, &bus, UnitId(0), pass, &image, 50, &Open);
    (slips.expect(rt, "slips"), bus.into_recorder())
}

// The entries are those of the slips.
fn are_of(slips: &[Slip], entries: &[Entry]) -> bool {
    let mut same = slips.len() == entries.len();
    for (slip, entry) in slips.iter().zip(entries) {
        same = same && slip.entry == *entry;
    }
    same
}

// With how many slips the one unit's thread ended, and whether its entries are those of its slips.
fn run_one<R: Wait + Abort>(rt: &R, alloc: Global) -> (usize, bool) {
    let (slips, recorder) = one_unit(rt, alloc);
    (slips.len(), are_of(&slips, recorder.entries()))
}

#[test]
fn a_unit_ends_with_the_run(rt: HostRuntime) {
    assert_eq!(rt; run_one(&rt, rt.alloc()), (6, true));
}
