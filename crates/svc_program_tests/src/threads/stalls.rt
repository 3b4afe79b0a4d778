// Units that stall, and go on.

use crate::threads::gates::{Counters, Open};
use crate::threads::given::{Left, changed, config, count, run};
use crossbeam_utils::Backoff;
use std::alloc::Global;
use std::process::Abort;
use std::sync::Wait;
use std::sync::atomic::{AtomicU64, Ordering};
use std::test::*;
use std::thread::Threads;
use svc_base::{Refusal, UnitId};
use svc_core::{Core, Lease, MAX_BURST_TURNS};
use svc_core_laws::Ending;
use svc_history::{Event, Glance, Slip};
use svc_image::Image;
use svc_threads::{Board, Gate, Phase, Port, run_unit};

/// A bus on which a unit's task has ended, and isn't the head.
#[derive(Drop)]
struct Waiting {
    board: Board,
    core: Core,
    leases: AtomicU64,
    events: AtomicU64,
}

impl Port for Waiting {
    ghost board_of = { λ w. w.board };

    fn lease<R: Wait>(&self, _rt: &R, unit: UnitId) -> Result<Glance, Refusal> {
        self.leases.fetch_add(1, Ordering::SeqCst);
        Ok(Glance {
            ended: false,
            lease: Some(Lease::new(unit, 0, self.core)),
            is_head: false,
            guess: None,
        })
    }

    fn apply<R: Wait>(&self, _rt: &R, _event: Event<'_>) -> Result<Slip, Refusal> {
        self.events.fetch_add(1, Ordering::SeqCst);
        Err(Refusal::Idle)
    }

    fn board(&self) -> &Board {
        &self.board
    }
}

// The state of the sample's first task after a burst.
fn after_a_burst(image: &Image) -> Core {
    let lease = Lease::new(UnitId(0), 0, Core::start(image, image.start()));
    *lease.advance(image, MAX_BURST_TURNS).end()
}

// What a unit does whose task has ended.
#[derive(Clone, Copy)]
struct Stalled {
    running: bool,
    slips: Option<usize>,
    leases: u64,
    events: u64,
}

// The unit's thread takes 50 turns.
fn stall<R: Wait + Abort>(rt: &R, alloc: Global) -> Stalled {
    let image = changed(rt, alloc, 100, 0xFF9F_F06F);
    let (board, pass) = Board::open(alloc).expect(rt, "a board");
    let core = after_a_burst(&image);
    let port = Waiting {
        board,
        core,
        leases: AtomicU64::new(0),
        events: AtomicU64::new(0),
    };
    let slips = count(run_unit(rt, alloc, &port, UnitId(0), pass, &image, 50, &Open));
    Stalled {
        running: core.is_running(),
        slips,
        leases: port.leases.load(Ordering::SeqCst),
        events: port.events.load(Ordering::SeqCst),
    }
}

#[test]
fn a_stalled_unit_keeps_off_the_lock(rt: HostRuntime) {
    let seen = stall(&rt, rt.alloc());
    assert!(rt; !seen.running);
    assert_eq!(rt; seen.slips, Some(0));
    assert_eq!(rt; seen.leases, 1);
    assert_eq!(rt; seen.events, 0);
}

const ASSIGN: u64 = 1;

const SUBMIT: u64 = 2;

/// Holds two units so that unit 0 stalls while unit 1's task is the head, and lets it go on after that.
#[derive(Drop)]
struct Held {
    came: Counters,
    assigned: Counters,
    submits: Counters,
    submitted: Counters,
    // what each of the two units asked for last
    asked: [AtomicU64; 2],
    missed: AtomicU64,
}

impl Held {
    fn miss(&self, met: bool) {
        if !met {
            self.missed.fetch_add(1, Ordering::SeqCst);
        }
    }

    fn ask(&self, unit: UnitId, what: u64) {
        if let Some(asked) = self.asked.get(usize::from(unit.0)) {
            asked.store(what, Ordering::SeqCst);
        }
    }

    // The first assignments: unit 0's waits until unit 1's has come, and unit 1's until unit 0's is answered.
    fn before_assign(&self, unit: UnitId) {
        self.ask(unit, ASSIGN);
        if self.came.add(unit) == 1 {
            if unit == UnitId(0) {
                self.miss(self.came.wait(1, 1));
            } else {
                self.miss(self.assigned.wait(0, 1));
            }
        }
    }

    // The first submits: unit 0's waits until unit 1's first assignment is answered, and unit 1's until unit 0's second
    // submit is answered, and a thousand snoozes more.
    fn before_submit(&self, unit: UnitId) {
        self.ask(unit, SUBMIT);
        if self.submits.add(unit) == 1 {
            if unit == UnitId(0) {
                self.miss(self.assigned.wait(1, 1));
            } else {
                self.miss(self.submitted.wait(0, 2));
                snooze(1_000);
            }
        }
    }

    fn after(&self, unit: UnitId) {
        if let Some(asked) = self.asked.get(usize::from(unit.0)) {
            let what = asked.swap(0, Ordering::SeqCst);
            if what == ASSIGN {
                self.assigned.add(unit);
            } else if what == SUBMIT {
                self.submitted.add(unit);
            }
        }
    }
}

fn snooze(count: u32) {
    let backoff = Backoff::new();
    for _ in 0..count {
        backoff.snooze();
    }
}

impl Gate for Held {
    fn pass(&self, unit: UnitId, phase: Phase<'_>) -> bool {
        match phase {
            Phase::Before(Event::Assign { .. }) => self.before_assign(unit),
            Phase::Before(Event::Submit { .. }) => self.before_submit(unit),
            Phase::Before(_) => {}
            Phase::After => self.after(unit),
        }
        true
    }
}

// What a run of two units that are held this way leaves, and how often one waited in vain.
fn run_held<R: Threads + Wait + Abort + Sync>(rt: &R, alloc: Global) -> (Left, u64) {
    let config = config(rt, 2, 16, 100, 10_000_000);
    let image = changed(rt, alloc, 100, 0xFF9F_F06F);
    let gate = Held {
        came: Counters::new(),
        assigned: Counters::new(),
        submits: Counters::new(),
        submitted: Counters::new(),
        asked: [AtomicU64::new(0), AtomicU64::new(0)],
        missed: AtomicU64::new(0),
    };
    let left = run(rt, alloc, &image, config, &gate);
    (left, gate.missed.load(Ordering::SeqCst))
}

#[test]
fn a_stalled_unit_goes_on_again(rt: HostRuntime) {
    let (left, missed) = run_held(&rt, rt.alloc());
    assert_eq!(rt; missed, 0);
    assert_eq!(rt; left.entries, 100);
    assert_eq!(rt; left.ending, Ending::Full(0));
}
