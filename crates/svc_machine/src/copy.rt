//! A machine becomes equal to another one.

ghost use Rattle.std.specs.Prelude.{◌≡◌, ◌≤◌, length, vec_capacity};

use crate::machine::Machine;
use crate::seat::Seat;
use arrayvec::ArrayVec;

impl Seat {
    // An equal seat.
    fn copy(&self) -> Seat
        ensures { result ≡ self.now }
    {
        let mut waiting = ArrayVec::new();
        let _fits = waiting.try_extend_from_slice(&self.waiting);
        Seat {
            lease: self.lease,
            task_entry: self.task_entry,
            waiting,
        }
    }
}

// The seats become equal to others for which there is room.
fn copy_seats(seats: &mut Vec<Seat>, others: &[Seat])
    requires { length others.now ≤ vec_capacity seats.old }
    ensures seats { seats.new.items ≡ others.now }
    ensures room { vec_capacity seats.old ≤ vec_capacity seats.new }
{
    seats.clear();
    for seat in others {
        let _room = seats.push(seat.copy());
    }
}

// The words become equal to others for which there is room.
fn copy_words(words: &mut Vec<u32>, others: &[u32])
    requires { length others.now ≤ vec_capacity words.old }
    ensures words { words.new.items ≡ others.now }
    ensures room { vec_capacity words.old ≤ vec_capacity words.new }
{
    words.clear();
    let _room = words.extend_from_slice(others);
}

impl Machine {
    /// It becomes equal to another machine of the same image and configuration. It takes no memory.
    pub fn copy_from(&mut self, other: &Machine)
        requires image { self.old.image ≡ other.now.image }
        requires config { self.old.config ≡ other.now.config }
        ensures { self.new ≡ other.now }
    {
        self.bus.copy_from(&other.bus);
        self.sequencer.copy_from(&other.sequencer);
        copy_seats(&mut self.seats, &other.seats);
        copy_words(&mut self.output, &other.output);
        self.stopped = other.stopped;
        self.commits = other.commits;
        self.accepted = other.accepted;
        self.epoch = other.epoch;
    }
}
