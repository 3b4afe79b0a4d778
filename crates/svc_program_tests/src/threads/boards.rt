// What the board shows, and what a unit may lease.

ghost use Rattle.std.specs.Prelude.{◌≡◌};

use crate::threads::given::{WRONG_GUESS, config, opened, play, two_tasks};
use std::alloc::Global;
use std::process::Abort;
use std::sync::Wait;
use std::test::*;
use std::thread;
use std::thread::Threads;
use svc_base::UnitId;
use svc_history::Recorder;
use svc_samples::{Line, TEN};
use svc_threads::{BoardPass, BoardRow, SharedBus};

fn row(events: u64, assigned: u64, committed: u64, squashed: u64) -> BoardRow {
    BoardRow {
        events,
        assigned,
        committed,
        squashed,
    }
}

// A bus on the sample of two tasks, for four units.
fn bus_of_two<R: Wait + Abort>(rt: &R, alloc: Global) -> (SharedBus, BoardPass)
    ensures { result.1.board ≡ result.0 }
{
    let config = config(rt, 4, 16, 100, 1);
    opened(rt, alloc, two_tasks(rt, alloc), config)
}

// What some events leave.
#[derive(Clone, Copy)]
struct Seen {
    // what the board shows before them
    before: BoardRow,
    // how many are accepted, up to the first that is not
    accepted: usize,
    // what the board shows after them
    after: BoardRow,
    // the epoch of unit 0's task then
    epoch: Option<u64>,
    // whether a unit that doesn't exist may lease
    stranger: bool,
    // what another board shows that is opened then
    again: BoardRow,
}

fn epoch_of<R: Wait>(rt: &R, bus: &SharedBus, unit: UnitId) -> Option<u64> {
    let lease = bus.lease(rt, unit).ok()?.lease?;
    Some(lease.epoch)
}

// What a board opened on the recorder shows.
fn shown<R: Wait + Abort>(rt: &R, alloc: Global, recorder: Recorder) -> BoardRow {
    let (bus, mut pass) = SharedBus::open(rt, alloc, recorder).expect(rt, "a bus");
    bus.board().read(rt, &mut pass)
}

fn see<R: Wait + Abort>(rt: &R, alloc: Global, lines: &[Line]) -> Seen {
    let (bus, mut pass) = bus_of_two(rt, alloc);
    let before = bus.board().read(rt, &mut pass);
    let accepted = play(rt, alloc, &bus, lines);
    let after = bus.board().read(rt, &mut pass);
    let epoch = epoch_of(rt, &bus, UnitId(0));
    let stranger = bus.lease(rt, UnitId(4)).is_ok();
    Seen {
        before,
        accepted,
        after,
        epoch,
        stranger,
        again: shown(rt, alloc, bus.into_recorder()),
    }
}

#[test]
fn a_thread_reads_what_it_did(rt: HostRuntime) {
    let seen = see(&rt, rt.alloc(), &[Line::Assign(0, 0)]);
    assert_eq!(rt; seen.before, row(0, 0, 0, 0));
    assert_eq!(rt; seen.accepted, 1);
    assert_eq!(rt; seen.after, row(1, 1, 0, 0));
    assert_eq!(rt; seen.epoch, Some(0));
    assert!(rt; !seen.stranger);
}

#[test]
fn a_refused_event_leaves_the_board(rt: HostRuntime) {
    let lines = [Line::Assign(0, 0), Line::Commit(0)];
    let seen = see(&rt, rt.alloc(), &lines);
    assert_eq!(rt; seen.accepted, 1);
    assert_eq!(rt; seen.after, row(1, 1, 0, 0));
}

#[test]
fn a_board_counts_a_violation(rt: HostRuntime) {
    let seen = see(&rt, rt.alloc(), &TEN);
    assert_eq!(rt; seen.accepted, 10);
    assert_eq!(rt; seen.after, row(10, 3, 2, 1));
    assert_eq!(rt; seen.again, row(10, 3, 2, 1));
}

#[test]
fn a_board_counts_a_wrong_guess(rt: HostRuntime) {
    let seen = see(&rt, rt.alloc(), &WRONG_GUESS);
    assert_eq!(rt; seen.accepted, 6);
    assert_eq!(rt; seen.after, row(6, 4, 1, 2));
}

// The row is in order, and no number of it is below the one before.
fn is_sound(before: BoardRow, now: BoardRow) -> bool {
    now.committed.saturating_add(now.squashed) <= now.assigned
        && now.assigned <= now.events
        && before.events <= now.events
        && before.assigned <= now.assigned
        && before.committed <= now.committed
        && before.squashed <= now.squashed
}

// A hundred reads are sound.
fn reads_are_sound<R: Wait>(rt: &R, bus: &SharedBus, mut pass: BoardPass) -> bool
    requires { pass.board ≡ bus.now }
{
    let mut last = row(0, 0, 0, 0);
    let mut sound = true;
    for _ in 0..100 {
        let now = bus.board().read(rt, &mut pass);
        sound = sound && is_sound(last, now);
        last = now;
    }
    sound
}

// Whether the reads of one thread are sound while another does the events, and how many of these are accepted.
fn read_beside<R: Threads + Wait + Abort + Sync>(
    rt: &R,
    alloc: Global,
    lines: &[Line],
) -> (bool, usize) {
    let (bus, pass) = bus_of_two(rt, alloc);
    let shared = &bus;
    thread::join(
        rt,
        move || -> bool
            requires { pass.board ≡ shared.now }
        { reads_are_sound(rt, shared, pass) },
        || -> usize { play(rt, alloc, shared, lines) },
    )
}

#[test]
fn another_thread_reads_whole_rows(rt: HostRuntime) {
    assert_eq!(rt; read_beside(&rt, rt.alloc(), &TEN), (true, 10));
}
