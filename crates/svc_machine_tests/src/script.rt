// Scripts on the sample of two tasks, for a machine and for a recorder, and the comparison of what they answer.
//
// A function that can return early while owning a machine or a recorder is expensive to prove: every exit drops it. So
// what isn't expected ends the process, and answers are compared as text.

use std::alloc::AllocError;
use std::process::Abort;
use svc_base::{Config, UnitId};
use svc_core::{Burst, MAX_BURST_TURNS};
use svc_machine::Machine;
use svc_samples::{Line, TEN};

static LINES: [Line; 10] = TEN;

/// The first of the ten events.
pub fn first(count: usize) -> &'static [Line] {
    &LINES[..count.min(10)]
}

/// The unit's lease, advanced by 63 turns; none without a lease.
pub fn taken(machine: &Machine, unit: u8) -> Option<Burst> {
    let lease = machine.lease(UnitId(unit))?;
    Some(lease.advance(machine.image(), MAX_BURST_TURNS))
}

/// Four units, with room for this many events.
pub fn four_units(rt: &impl Abort, events: u32) -> Config {
    Config::new(4, 16, 2, events, 1).expect(rt, "a configuration")
}

/// The answers are what was wanted.
pub fn agrees(rt: &impl Abort, told: Result<String, AllocError>, wanted: &str) {
    let told = told.expect(rt, wanted);
    assert_eq!(rt; told.as_str(), wanted);
}
