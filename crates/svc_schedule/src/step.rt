//! One step of a run: the first unit whose move isn't refused makes it.

ghost use Rattle.std.specs.Prelude.{◌≡◌, ◌<◌, ℕ, false, IsTrue, IsFalse, All};
ghost use Rattle.svc_history.specs.Glances.{has_ended};
ghost use Rattle.svc_history.specs.Recorded.{IsLegal};
ghost use Rattle.svc_schedule.specs.Bursts.{AreReady};
ghost use Rattle.svc_schedule.specs.Moves.{IsMade, IsPassed, RunsOnBy};
ghost use Rattle.svc_schedule.specs.Steps.{FirstMoves, asked};
ghost use Rattle.svc_image.specs.Image.{IsImage};

use crate::bursts::make_burst;
use svc_base::config::MAX_UNITS;
use svc_base::{Refusal, UnitId};
use svc_core::Burst;
use svc_history::{Event, Move, Recorder};

/// Each unit that a machine may have, by number.
pub const EVERY_UNIT: [UnitId; MAX_UNITS as usize] = [
    UnitId(0),
    UnitId(1),
    UnitId(2),
    UnitId(3),
    UnitId(4),
    UnitId(5),
    UnitId(6),
    UnitId(7),
    UnitId(8),
    UnitId(9),
    UnitId(10),
    UnitId(11),
    UnitId(12),
    UnitId(13),
    UnitId(14),
    UnitId(15),
];

/// One step of a run that has not ended: it asks the named units for their moves, and then each unit by number, until
/// one makes a move that is accepted. Some unit always does.
pub(crate) fn take_step(recorder: &mut Recorder, bursts: &mut [Burst], named: &[UnitId], most: u32)
    requires some { 0 < most }
    requires going { has_ended recorder.old.machine ≡ false }
    requires ready { AreReady recorder.old.machine.image most bursts.old }
    ensures moves { FirstMoves most recorder.old recorder.new (asked named.now) }
    ensures ready { AreReady recorder.old.machine.image most bursts.new }
{
    keeps(recorder);
    if ask_in_turn(recorder, bursts, named, most) {
        return;
    }
    let _moved = ask_in_turn(recorder, bursts, &EVERY_UNIT, most);
}

// What the type of a recorder guarantees.
pub(crate) fn keeps(recorder: &Recorder)
    ensures legal { IsLegal recorder.now }
    ensures image { IsImage recorder.now.machine.image }
{
    let machine = recorder.machine();
    let _start = machine.image().start();
}

// Asks the units for their moves, until one makes a move that is accepted. Answers whether one did.
fn ask_in_turn(recorder: &mut Recorder, bursts: &mut [Burst], units: &[UnitId], most: u32) -> bool
    requires ready { AreReady recorder.old.machine.image most bursts.old }
    ensures moved { IsTrue result → FirstMoves most recorder.old recorder.new units.now }
    ensures passed { IsFalse result → (recorder.new ≡ recorder.old) × All (IsPassed most recorder.old) units.now }
    ensures ready { AreReady recorder.old.machine.image most bursts.new }
{
    for unit in units {
        if make_move(recorder, bursts, *unit, most) {
            return true;
        }
    }
    false
}

// Asks the unit for its move. Answers whether that was accepted.
fn make_move(recorder: &mut Recorder, bursts: &mut [Burst], unit: UnitId, most: u32) -> bool
    requires ready { AreReady recorder.old.machine.image most bursts.old }
    ensures made { IsTrue result → IsMade most recorder.old recorder.new unit }
    ensures passed { IsFalse result → (recorder.new ≡ recorder.old) × IsPassed most recorder.old unit }
    ensures ready { AreReady recorder.old.machine.image most bursts.new }
{
    let Ok(next) = recorder.next_move(unit) else {
        return false;
    };
    match next {
        Move::Ended | Move::Wait => false,
        Move::Begin { guess } => recorder.apply(Event::Assign { unit, guess }).is_ok(),
        Move::Commit => recorder.apply(Event::Commit { by: unit }).is_ok(),
        Move::RunOn(lease) => {
            let burst = &mut bursts[usize::from(unit.0)];
            make_burst(burst, lease, recorder.machine().image(), most);
            run_on(recorder, burst, unit)
        }
    }
}

// The unit runs its task on by its burst or, if its cache has no room for that, replaces a line.
fn run_on(recorder: &mut Recorder, burst: &Burst, unit: UnitId) -> bool
    requires { unit.0 < recorder.old.machine.config.units }
    ensures made { IsTrue result → (most : ℕ) → RunsOnBy most recorder.old unit burst.now
        → IsMade most recorder.old recorder.new unit }
    ensures passed { IsFalse result → (most : ℕ) → RunsOnBy most recorder.old unit burst.now
        → (recorder.new ≡ recorder.old) × IsPassed most recorder.old unit }
{
    let Err(refusal) = recorder.apply(Event::Submit { burst }) else {
        return true;
    };
    match refusal {
        Refusal::SetFull(addr) => recorder.apply(Event::Replace { unit, addr }).is_ok(),
        _ => false,
    }
}
