//! Calls of a bus with the answers and look-ups expected of them.

use super::Answer::{Done, Line as Shown, Named, Replaced, WasRead, Word, Written};
use super::Step::{Backing, Begin, Commit, Full, Line, Memory, Read, Replace, Squash, Write};
use super::*;
use svc_base::TaskNo;

const NO_VICTIM: Answer = Written(Ok(None));

fn answered(value: u32, served: Served) -> Answer {
    WasRead(Ok((value, served)))
}

fn shown(bits: u8, value: u32) -> Answer {
    Shown(Some((bits, value)))
}

// Each step in turn, with its answer and its look-ups.
fn follow(rt: &impl Abort, bus: &mut Bus, steps: &[(Step, Answer)]) {
    for (number, (step, expected)) in steps.iter().enumerate() {
        let before = bus.last_probes();
        let answer = perform(rt, bus, *step);
        assert_eq!(rt; answer, *expected, "at step {number}");
        check_probes(rt, UNITS, answer, before, bus.last_probes());
    }
}

// The steps from an opened bus whose word 0 is 7.
fn follow_from_start(rt: &impl Abort, alloc: Global, steps: &[(Step, Answer)]) {
    let mut bus = open(rt, alloc, 16, 2, &[7, 0, 0, 0]);
    assert_eq!(rt; bus.last_probes(), 0);
    follow(rt, &mut bus, steps);
}

#[test]
fn a_read_takes_the_version_of_the_nearest_earlier_task(rt: HostRuntime) {
    follow_from_start(
        &rt,
        rt.alloc(),
        &[
            (Begin(0), Done),
            (Begin(1), Done),
            (Begin(2), Done),
            (Begin(3), Done),
            (Write(0, 0, 1), NO_VICTIM),
            (Write(1, 0, 2), NO_VICTIM),
            (Write(2, 0, 3), NO_VICTIM),
            (Read(3, 0), answered(3, Served::Version(UnitId(2)))),
            (Line(0, 0), shown(V | S | T, 1)),
            (Line(1, 0), shown(V | S | T, 2)),
            (Line(2, 0), shown(V | S, 3)),
            (Line(3, 0), shown(V | L, 3)),
        ],
    )
}

#[test]
fn a_store_squashes_the_first_later_task_that_read_too_early(rt: HostRuntime) {
    let victim = Victim {
        first: TaskNo(1),
        tasks: 2,
    };
    follow_from_start(
        &rt,
        rt.alloc(),
        &[
            (Begin(0), Done),
            (Begin(1), Done),
            (Begin(2), Done),
            (Read(1, 0), answered(7, Served::Memory)),
            (Write(1, 0, 4), NO_VICTIM),
            (Read(2, 0), answered(4, Served::Version(UnitId(1)))),
            (Write(0, 0, 9), Written(Ok(Some(victim)))),
            (Line(0, 0), shown(V | S, 9)),
            (Line(1, 0), Shown(None)),
            (Line(2, 0), Shown(None)),
        ],
    )
}

#[test]
fn a_version_in_between_keeps_later_readers(rt: HostRuntime) {
    follow_from_start(
        &rt,
        rt.alloc(),
        &[
            (Begin(0), Done),
            (Begin(1), Done),
            (Begin(2), Done),
            (Write(1, 0, 4), NO_VICTIM),
            (Read(2, 0), answered(4, Served::Version(UnitId(1)))),
            (Write(0, 0, 9), NO_VICTIM),
            (Line(0, 0), shown(V | S | T, 9)),
            (Read(2, 0), answered(4, Served::Hit)),
        ],
    )
}

#[test]
fn a_committed_version_stays_until_the_next_request(rt: HostRuntime) {
    follow_from_start(
        &rt,
        rt.alloc(),
        &[
            (Begin(0), Done),
            (Begin(1), Done),
            (Begin(2), Done),
            (Write(0, 0, 1), NO_VICTIM),
            (Write(1, 0, 2), NO_VICTIM),
            (Commit, Done),
            (Commit, Done),
            (Memory(0), Word(2)),
            (Backing(0), Word(7)),
            (Read(2, 0), answered(2, Served::Committed(UnitId(1)))),
            (Backing(0), Word(2)),
            (Line(0, 0), Shown(None)),
            (Line(1, 0), Shown(None)),
        ],
    )
}

#[test]
fn a_committed_copy_is_reused(rt: HostRuntime) {
    follow_from_start(
        &rt,
        rt.alloc(),
        &[
            (Begin(0), Done),
            (Read(0, 0), answered(7, Served::Memory)),
            (Commit, Done),
            (Begin(0), Done),
            (Read(0, 0), answered(7, Served::Reuse)),
        ],
    )
}

#[test]
fn a_stale_copy_is_filled_anew(rt: HostRuntime) {
    follow_from_start(
        &rt,
        rt.alloc(),
        &[
            (Begin(0), Done),
            (Begin(1), Done),
            (Read(0, 0), answered(7, Served::Memory)),
            (Write(1, 0, 9), NO_VICTIM),
            (Squash(1), Done),
            (Commit, Done),
            (Line(0, 0), shown(V | L | C | T, 7)),
            (Begin(0), Done),
            (Read(0, 0), answered(7, Served::Memory)),
            (Line(0, 0), shown(V | L, 7)),
        ],
    )
}

#[test]
fn a_full_set_asks_for_a_replacement(rt: HostRuntime) {
    let mut bus = open(&rt, rt.alloc(), 1, 1, &[0, 0]);
    follow(
        &rt,
        &mut bus,
        &[
            (Begin(0), Done),
            (Begin(1), Done),
            (Replace(1, 0), Replaced(Err(Refusal::NotResident))),
            (Full(1, 1), Named(None)),
            (Write(1, 0, 8), NO_VICTIM),
            (Full(1, 0), Named(None)),
            (Full(1, 1), Named(Some(WordAddr(0)))),
            (Write(1, 1, 9), Written(Err(Refusal::SetFull(WordAddr(0))))),
            (Replace(1, 0), Replaced(Err(Refusal::Pinned))),
            (Line(1, 0), shown(V | S, 8)),
        ],
    );
    follow(
        &rt,
        &mut bus,
        &[
            (Commit, Done),
            (Replace(1, 0), Replaced(Ok(()))),
            (Memory(0), Word(0)),
            (Write(1, 1, 9), NO_VICTIM),
            (Read(1, 0), WasRead(Err(Refusal::SetFull(WordAddr(1))))),
            (Replace(1, 1), Replaced(Ok(()))),
            (Read(1, 0), answered(8, Served::Spill)),
            (Line(1, 0), shown(V, 8)),
            (Commit, Done),
            (Backing(0), Word(8)),
            (Backing(1), Word(9)),
        ],
    );
}

#[test]
fn a_replaced_version_of_the_head_goes_to_memory_with_it(rt: HostRuntime) {
    follow_from_start(
        &rt,
        rt.alloc(),
        &[
            (Begin(0), Done),
            (Begin(1), Done),
            (Write(0, 0, 1), NO_VICTIM),
            (Write(1, 0, 2), NO_VICTIM),
            (Commit, Done),
            (Replace(1, 0), Replaced(Ok(()))),
            (Backing(0), Word(1)),
            (Memory(0), Word(1)),
            (Read(1, 0), answered(2, Served::Spill)),
            (Commit, Done),
            (Backing(0), Word(2)),
        ],
    )
}

#[test]
fn a_store_of_the_head_empties_its_spill(rt: HostRuntime) {
    follow_from_start(
        &rt,
        rt.alloc(),
        &[
            (Begin(0), Done),
            (Begin(1), Done),
            (Write(0, 0, 1), NO_VICTIM),
            (Write(1, 0, 2), NO_VICTIM),
            (Commit, Done),
            (Replace(1, 0), Replaced(Ok(()))),
            (Write(1, 0, 3), NO_VICTIM),
            (Commit, Done),
            (Memory(0), Word(3)),
            (Backing(0), Word(1)),
        ],
    )
}

#[test]
fn tasks_order_versions_whatever_their_units(rt: HostRuntime) {
    follow_from_start(
        &rt,
        rt.alloc(),
        &[
            (Begin(3), Done),
            (Begin(1), Done),
            (Begin(0), Done),
            (Write(3, 0, 1), NO_VICTIM),
            (Write(1, 0, 2), NO_VICTIM),
            (Write(0, 0, 3), NO_VICTIM),
            (Commit, Done),
            (Commit, Done),
            (Memory(0), Word(2)),
            (Commit, Done),
            (Memory(0), Word(3)),
            (Begin(2), Done),
            (Read(2, 0), answered(3, Served::Committed(UnitId(0)))),
            (Backing(0), Word(3)),
        ],
    )
}

#[test]
fn a_squash_in_the_middle_keeps_the_order(rt: HostRuntime) {
    follow_from_start(
        &rt,
        rt.alloc(),
        &[
            (Begin(0), Done),
            (Begin(1), Done),
            (Begin(2), Done),
            (Write(0, 0, 1), NO_VICTIM),
            (Write(1, 0, 2), NO_VICTIM),
            (Write(2, 0, 3), NO_VICTIM),
            (Squash(1), Done),
            (Begin(2), Done),
            (Begin(1), Done),
            (Write(1, 0, 5), NO_VICTIM),
            (Write(2, 0, 4), NO_VICTIM),
            (Commit, Done),
            (Memory(0), Word(1)),
            (Commit, Done),
            (Memory(0), Word(4)),
            (Commit, Done),
            (Memory(0), Word(5)),
            (Begin(3), Done),
            (Read(3, 0), answered(5, Served::Committed(UnitId(1)))),
        ],
    )
}

// One look-up in each of the four caches, one for the line that is put in, and one for each line that is purged or
// marked stale; a hit looks only into its own cache.
#[test]
fn the_look_ups_of_each_call_are_told(rt: HostRuntime) {
    let calls = [
        (Begin(0), 0),
        // from memory, and then a hit
        (Read(0, 0), 5),
        (Read(0, 0), 1),
        (Commit, 1),
        // over a committed copy, which is marked stale
        (Begin(1), 1),
        (Write(1, 0, 9), 6),
        (Commit, 6),
        // a committed version is purged
        (Begin(2), 6),
        (Read(2, 0), 6),
        (Commit, 6),
        // the committed copy is reused
        (Begin(2), 6),
        (Read(2, 0), 5),
        (Replace(3, 0), 5),
    ];
    let mut bus = open(&rt, rt.alloc(), 16, 2, &[7, 0, 0, 0]);
    tells(&rt, &mut bus, &calls);
}

// After each call this many look-ups are reported.
fn tells(rt: &impl Abort, bus: &mut Bus, calls: &[(Step, u32)]) {
    for (number, (step, look_ups)) in calls.iter().enumerate() {
        perform(rt, bus, *step);
        assert_eq!(rt; bus.last_probes(), *look_ups, "at step {number}");
    }
}
