// What a unit's thread sees.

use super::after;
use crate::script::agrees;
use std::alloc::{AllocError, Global};
use std::process::Abort;
use svc_base::{Refusal, UnitId};
use svc_history::{Glance, Move};

// A move, with the guess of the task that it begins, or the place of the task that it runs on.
#[derive(Clone, Copy, Debug, PartialEq, Eq)]
enum Step {
    Begin(u32),
    RunOn(u32),
    Commit,
    Wait,
    Ended,
}

fn step_of(next: Move<'_>) -> Step {
    match next {
        Move::Begin { guess } => Step::Begin(guess),
        Move::RunOn(lease) => Step::RunOn(lease.core.pc()),
        Move::Commit => Step::Commit,
        Move::Wait => Step::Wait,
        Move::Ended => Step::Ended,
    }
}

fn next_step(glance: Glance) -> Step {
    step_of(glance.next_move())
}

fn place_of(glance: Glance) -> Option<u32> {
    match glance.lease {
        Some(lease) => Some(lease.core.pc()),
        None => None,
    }
}

// Whether the run has ended, where the unit's task stands, whether that is the head, and the guess.
fn seen(alloc: Global, glance: Glance) -> Result<String, AllocError> {
    let ended = glance.ended;
    let is_head = glance.is_head;
    let guess = glance.guess;
    let at = place_of(glance);
    format!(in alloc; "{ended} {at:?} {is_head} {guess:?}")
}

// The step that the recorder answers after this many of the ten events.
fn told(rt: &impl Abort, alloc: Global, count: usize, unit: u8) -> Step {
    let recorder = after(rt, alloc, 1_000, count);
    step_of(recorder.next_move(UnitId(unit)).expect(rt, "a move"))
}

// The unit's glance at a recorder with room for this many entries, after this many of the ten events.
fn glance(rt: &impl Abort, alloc: Global, room: u32, count: usize, unit: u8) -> Glance {
    let recorder = after(rt, alloc, room, count);
    recorder.glance(UnitId(unit)).expect(rt, "a glance")
}

// Why a unit has no glance.
fn refusal(rt: &impl Abort, alloc: Global, unit: u8) -> Option<Refusal> {
    let recorder = after(rt, alloc, 1_000, 0);
    recorder.glance(UnitId(unit)).err()
}

// What the unit sees after this many of the ten events.
const GLANCES: [(usize, u8, &str); 7] = [
    (0, 3, "false None false Some(0)"),
    (1, 0, "false Some(0) true Some(12)"),
    (2, 0, "false Some(0) true Some(0)"),
    (2, 1, "false Some(12) false Some(0)"),
    (5, 0, "false None false Some(12)"),
    (10, 0, "true None false None"),
    (10, 3, "true None false None"),
];

#[test]
fn glances_follow_the_events(rt: HostRuntime) {
    let refused = [refusal(&rt, rt.alloc(), 9), refusal(&rt, rt.alloc(), 4)];
    assert_eq!(rt; refused, [Some(Refusal::NoSuchUnit); 2]);
    for (count, unit, wanted) in &GLANCES {
        let glance = glance(&rt, rt.alloc(), 1_000, *count, *unit);
        agrees(&rt, seen(rt.alloc(), glance), wanted);
    }
}

#[test]
fn a_full_history_has_ended(rt: HostRuntime) {
    let (before, full) = ("false None false Some(12)", "true None false Some(12)");
    let glance_before = glance(&rt, rt.alloc(), 5, 4, 1);
    agrees(&rt, seen(rt.alloc(), glance_before), before);
    let glance_full = glance(&rt, rt.alloc(), 5, 5, 1);
    agrees(&rt, seen(rt.alloc(), glance_full), full);
}

// What the unit does next after this many of the ten events.
const MOVES: [(usize, u8, Step); 7] = [
    (0, 1, Step::Begin(0)),
    (2, 3, Step::Begin(0)),
    (2, 1, Step::RunOn(12)),
    (4, 0, Step::Commit),
    (9, 1, Step::Commit),
    (10, 0, Step::Ended),
    (10, 3, Step::Ended),
];

// A unit begins at the guess, runs its task on, and commits it once that has ended and is the head; until then it
// waits.
#[test]
fn a_unit_moves_by_what_it_sees(rt: HostRuntime) {
    for (count, unit, wanted) in &MOVES {
        let glance = glance(&rt, rt.alloc(), 1_000, *count, *unit);
        assert_eq!(rt; next_step(glance), *wanted);
        assert_eq!(rt; told(&rt, rt.alloc(), *count, *unit), *wanted);
    }
}

// The moves of a glance, and of the same if the unit isn't the head, if it has no task and there is a guess or none,
// and if the run has ended.
fn turned(glance: Glance) -> [Step; 5] {
    let later = Glance {
        is_head: false,
        ..glance
    };
    let idle = Glance {
        lease: None,
        guess: Some(12),
        ..glance
    };
    let lost = Glance {
        guess: None,
        ..idle
    };
    let over = Glance {
        ended: true,
        ..glance
    };
    [
        next_step(glance),
        next_step(later),
        next_step(idle),
        next_step(lost),
        next_step(over),
    ]
}

// Each field on which the move depends, changed by itself.
#[test]
fn the_first_case_that_holds_tells_the_move(rt: HostRuntime) {
    let glance = glance(&rt, rt.alloc(), 1_000, 4, 0);
    let moves = [
        Step::Commit,
        Step::Wait,
        Step::Begin(12),
        Step::Wait,
        Step::Ended,
    ];
    assert_eq!(rt; turned(glance), moves);
}
