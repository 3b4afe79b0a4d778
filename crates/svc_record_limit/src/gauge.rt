// How far a text of records has been read.

ghost use Rattle.std.specs.Prelude.{◌≡◌, ◌≤◌, ◌++◌, if◌then◌else◌, ℕ, List, None, Some, length, nat_lt, take};
ghost use Rattle.svc_record_limit.specs.Places.{gauge_after, passed};

use crate::place::Place;

// The most bytes of a record that are read, not counting its line end.
const MOST_BYTES: u32 = 4096;

// How far a text has been read: the place, and how many bytes the record there has so far.
#[derive(Clone, Copy)]
pub(crate) struct Gauge {
    place: Place,
    size: u32,
}

impl Gauge {
    // Before a text's first byte.
    pub(crate) fn new() -> Gauge
        ensures { result ≡ record { place = Place.Front; size = 0 } }
    {
        Gauge {
            place: Place::Front,
            size: 0,
        }
    }

    // Goes past this byte, unless that makes its record too long.
    fn pass(&mut self, byte: u8) -> bool
        ensures { gauge_after self.old byte ≡ (if result then Some self.new else None) }
    {
        self.place = self.place.after(byte);
        if self.place == Place::Between {
            self.size = 0;
        } else if self.size < MOST_BYTES {
            self.size += 1;
        } else {
            return false;
        }
        true
    }

    // Goes past as many of these bytes as may be read, and says how many those are.
    pub(crate) fn pass_all(&mut self, bytes: &[u8]) -> usize
        ensures count { result ≤ length bytes.now }
        ensures passes { (rest : List ℕ) → passed (Some self.old) (bytes.now ++ rest)
            ≡ take result bytes.now ++ passed (if nat_lt result (length bytes.now) then None else Some self.new) rest }
    {
        for count in 0..bytes.len() {
            if !self.pass(bytes[count]) {
                return count;
            }
        }
        bytes.len()
    }
}
