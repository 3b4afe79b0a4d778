//! The check of a guess: the tasks after one that has ended.

ghost use Rattle.std.specs.Prelude.{suc, map, drop, vec_capacity};
ghost use Rattle.svc_machine_laws.specs.PlainMachine.{cuts_next};
ghost use Rattle.svc_machine.specs.Kept.{whole_seat};
ghost use Rattle.svc_machine.specs.Seats.{is_misled};
ghost use Rattle.svc_machine.specs.Settled.{HaveTasks, IsSettled};

use crate::cancel::cut_from;
use crate::seat::{Seat, end_at};
use svc_bus::Bus;
use svc_core_laws::End;
use svc_machine_laws::{Cause, Cut};
use svc_sequencer::Sequencer;

/// Checks the guess after the task at a place: if that task has ended and the next one was guessed wrongly, all tasks
/// after it are squashed. The cut counts them out of the given number of tasks, including those that the same event has
/// already squashed.
pub(crate) fn check_guess(
    bus: &mut Bus,
    sequencer: &mut Sequencer,
    seats: &mut Vec<Seat>,
    commits: u64,
    count: usize,
    place: usize,
) -> Option<Cut>
    requires { HaveTasks bus.old sequencer.old seats.old.items commits count place }
    ensures { IsSettled (is_misled (map whole_seat seats.old.items) place) commits count place
        bus.old bus.new sequencer.old sequencer.new seats.old.items seats.new.items
        (vec_capacity seats.old) (vec_capacity seats.new) result }
{
    match end_at(seats, place) {
        Some(end) => settle(bus, sequencer, seats, commits, count, place, end),
        None => None,
    }
}

/// Squashes the tasks after the one at a place, which has this end, if the next one was guessed wrongly.
pub(crate) fn settle(
    bus: &mut Bus,
    sequencer: &mut Sequencer,
    seats: &mut Vec<Seat>,
    commits: u64,
    count: usize,
    place: usize,
    end: End,
) -> Option<Cut>
    requires { HaveTasks bus.old sequencer.old seats.old.items commits count place }
    ensures { IsSettled (cuts_next end (drop (suc place) sequencer.old.active)) commits count place
        bus.old bus.new sequencer.old sequencer.new seats.old.items seats.new.items
        (vec_capacity seats.old) (vec_capacity seats.new) result }
{
    if !sequencer.settle(place, end) {
        return None;
    }
    let next = place + 1;
    let cut = cut_from(Cause::WrongGuess, commits, count, next);
    let unit = seats[next].lease.unit;
    bus.squash_from(unit);
    sequencer.cut_from(next);
    seats.truncate(next);
    Some(cut)
}
