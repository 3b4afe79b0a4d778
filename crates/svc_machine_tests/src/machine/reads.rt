// What the machine says, from its opening to its stop.

ghost use Rattle.std.specs.Prelude.{◌<◌};

use super::{opened_from, play};
use crate::script::{agrees, first};
use std::alloc::{AllocError, Global};
use std::process::Abort;
use svc_base::{UnitId, WordAddr};
use svc_machine::Machine;
use svc_samples::{Line, P};

const BEGUN: &[Line] = &[Line::Assign(0, 0)];

const STORED: &[Line] = &[Line::Assign(0, 0), Line::Submit(0)];

// Which of the reads are made.
#[derive(Clone, Copy)]
enum Reads {
    // of the run
    Run,
    // of unit 0 and of the head
    Units,
    // of word 0
    Memory,
    // of word 0 in the caches
    Lines,
}

// How many units there are, how many tasks are committed, the due entry and the guess, the output, how the run stopped,
// and its ending.
pub fn of_the_run(alloc: Global, machine: &Machine) -> Result<String, AllocError> {
    let (units, tasks) = (machine.config().units, machine.committed_tasks());
    let (due, guess) = (machine.due(), machine.guess());
    let (output, stopped) = (machine.output(), machine.stopped());
    let ending = machine.ending();
    format!(in alloc; "{units} {tasks} {due:?} {guess:?} {output:?} {stopped:?} {ending:?}")
}

// The unit's lease: whose it is, its epoch, and where its task stands.
fn lease_of(machine: &Machine) -> Option<(u8, u64, u32)> {
    let lease = machine.lease(UnitId(0))?;
    Some((lease.unit.0, lease.epoch, lease.core.pc()))
}

// That lease, and whether each of the first two units has the head.
fn of_the_lease(alloc: Global, machine: &Machine) -> Result<String, AllocError> {
    let lease = lease_of(machine);
    let (first, second) = (machine.is_head(UnitId(0)), machine.is_head(UnitId(1)));
    format!(in alloc; "{lease:?} {first} {second}")
}

// The committed word and the backing one.
pub fn of_the_word(alloc: Global, machine: &Machine) -> Result<String, AllocError> {
    let _words = machine.image().data_words();
    let committed = machine.committed_memory(WordAddr(0));
    let backing = machine.backing(WordAddr(0));
    format!(in alloc; "{committed} {backing}")
}

// The value of the unit's line of word 0.
fn value_at(machine: &Machine, unit: u8) -> Option<u32> {
    match machine.line_at(UnitId(unit), WordAddr(0)) {
        Some((_, value)) => Some(value),
        None => None,
    }
}

// The values of unit 0's and unit 9's lines.
fn of_the_lines(alloc: Global, machine: &Machine) -> Result<String, AllocError> {
    let (first, nobody) = (value_at(machine, 0), value_at(machine, 9));
    format!(in alloc; "{first:?} {nobody:?}")
}

fn told(alloc: Global, machine: &Machine, reads: Reads) -> Result<String, AllocError> {
    match reads {
        Reads::Run => of_the_run(alloc, machine),
        Reads::Units => of_the_lease(alloc, machine),
        Reads::Memory => of_the_word(alloc, machine),
        Reads::Lines => of_the_lines(alloc, machine),
    }
}

// These reads of a machine on the image of this file, after these lines.
fn tells(rt: &impl Abort, alloc: Global, file: &[u8], lines: &[Line], reads: Reads, wanted: &str) {
    let mut machine = opened_from(rt, alloc, file, 0);
    play(rt, &mut machine, lines);
    agrees(rt, told(alloc, &machine, reads), wanted);
}

#[test]
fn an_opened_machine_has_no_task(rt: HostRuntime) {
    let run = "4 0 Some(0) Some(0) [] None Open(0)";
    tells(&rt, rt.alloc(), &P, first(0), Reads::Run, run);
    tells(
        &rt,
        rt.alloc(),
        &P,
        first(0),
        Reads::Units,
        "None false false",
    );
}

#[test]
fn the_reads_follow_the_events(rt: HostRuntime) {
    let begun = "4 0 Some(0) Some(12) [] None Open(0)";
    tells(&rt, rt.alloc(), &P, BEGUN, Reads::Run, begun);
    let units = "Some((0, 0, 0)) true false";
    tells(&rt, rt.alloc(), &P, BEGUN, Reads::Units, units);
    tells(&rt, rt.alloc(), &P, STORED, Reads::Run, begun);
    tells(&rt, rt.alloc(), &P, STORED, Reads::Memory, "0 0");
    tells(&rt, rt.alloc(), &P, STORED, Reads::Lines, "Some(5) None");
}

// The committed word stays in its cache until it is requested.
#[test]
fn a_commit_leaves_the_backing_word(rt: HostRuntime) {
    let committed = "4 1 Some(12) Some(0) [] None Open(12)";
    tells(&rt, rt.alloc(), &P, first(6), Reads::Run, committed);
    tells(&rt, rt.alloc(), &P, first(6), Reads::Memory, "5 0");
    tells(&rt, rt.alloc(), &P, first(7), Reads::Memory, "5 5");
}

#[test]
fn an_exit_stops_the_run(rt: HostRuntime) {
    let stopped = "4 2 None None [5] Some(Exit(5)) Exit(5)";
    tells(&rt, rt.alloc(), &P, first(10), Reads::Run, stopped);
}

// The guess before and after the only task has ended at its own entry, to which its last word jumps back.
#[test]
fn an_ended_task_tells_the_guess(rt: HostRuntime) {
    let file = changed(164, 0xFF9F_F06F);
    let before = "4 0 Some(0) Some(12) [] None Open(0)";
    tells(&rt, rt.alloc(), &file, BEGUN, Reads::Run, before);
    let ended = "4 0 Some(0) Some(0) [] None Open(0)";
    tells(&rt, rt.alloc(), &file, STORED, Reads::Run, ended);
}

// The sample's file with another word at this byte.
pub fn changed(at: usize, word: u32) -> [u8; 200]
    requires { at < 190 }
{
    let mut file = P;
    file[at..at + 4].copy_from_slice(&word.to_le_bytes());
    file
}
