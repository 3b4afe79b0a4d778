//! The policies that the program offers.

ghost use Rattle.std.specs.Prelude.{◌≡◌, ◌<◌, ◌≤◌, ◌+◌, ◌%◌, option_map};
ghost use Rattle.svc_base.specs.declared.config.TheConstants.{MAX_UNITS};
ghost use Rattle.svc_schedule.specs.Orders.{around, by_age, generator_of, moved_last, next_after, place_among, rank_of};

use crate::policy::Policy;
use arrayvec::ArrayVec;
use rand_core::utils::NextWord;
use rand_pcg::Pcg32;
use svc_base::UnitId;
use svc_base::config::MAX_UNITS;
use svc_core::Lease;
use svc_history::Recorder;

// The units in an order.
type Order = ArrayVec<UnitId, 16>;

/// Asks the unit after the one that moved last first (unit 0 at the start), and then the others by rising number,
/// around.
#[derive(Drop)]
pub struct Rotate;

/// Asks the units with tasks first, the oldest task first, and then the idle ones by number.
#[derive(Drop)]
pub struct Oldest;

/// Asks the idle units first, by number, and then those with tasks, the youngest task first.
#[derive(Drop)]
pub struct Youngest;

/// Asks a unit that is drawn first, and then the others by rising number, around. Each step draws one.
#[derive(Drop)]
pub struct Random {
    generator: Pcg32,
}

impl Random {
    /// The policy of a seed: the draws are those of PCG32 with that state and stream 0, each a word modulo the number
    /// of units.
    pub fn new(seed: u32) -> Random
        ensures { result.generator ≡ generator_of seed }
    {
        Random {
            generator: Pcg32::new(u64::from(seed), 0),
        }
    }
}

// Which task's unit is asked first.
#[derive(Clone, Copy)]
pub enum First {
    // The older one's.
    Older,
    // The younger one's; a unit without a task counts as having the youngest.
    Younger,
}

impl Policy for Rotate {
    ghost use Rattle.svc_schedule.specs.Orders.{Rotates};

    ghost gives = { Rotates };

    fn order(&mut self, recorder: &Recorder) -> Order {
        let units = recorder.machine().config().units;
        around(first_of_rotation(recorder, units), units)
    }
}

impl Policy for Oldest {
    ghost use Rattle.svc_schedule.specs.declared.policies.First.TheVariants.{Older};
    ghost use Rattle.svc_schedule.specs.Orders.{GoesByAge};

    ghost gives = { GoesByAge Older };

    fn order(&mut self, recorder: &Recorder) -> Order {
        by_age(recorder, First::Older)
    }
}

impl Policy for Youngest {
    ghost use Rattle.svc_schedule.specs.declared.policies.First.TheVariants.{Younger};
    ghost use Rattle.svc_schedule.specs.Orders.{GoesByAge};

    ghost gives = { GoesByAge Younger };

    fn order(&mut self, recorder: &Recorder) -> Order {
        by_age(recorder, First::Younger)
    }
}

impl Policy for Random {
    ghost use Rattle.svc_schedule.specs.Orders.{Draws};

    ghost gives = { Draws };

    fn order(&mut self, recorder: &Recorder) -> Order {
        let units = recorder.machine().config().units;
        around(self.generator.next_word() % units, units)
    }
}

// The unit that a rotation asks first.
fn first_of_rotation(recorder: &Recorder, units: u32) -> u32
    requires some { 0 < units }
    ensures unit { result ≡ next_after units (moved_last recorder.now.entries) }
    ensures below { result < units }
{
    match recorder.entries().last() {
        Some(entry) => next_after(entry.unit, units),
        None => 0,
    }
}

// The unit after one, by number, around.
fn next_after(unit: UnitId, units: u32) -> u32
    requires some { 0 < units }
    ensures unit { result ≡ (unit.0 + 1) % units }
    ensures below { result < units }
{
    (u32::from(unit.0) + 1) % units
}

// All units from one on, by rising number, around.
fn around(first: u32, units: u32) -> Order
    requires some { 0 < units }
    requires few { units ≤ MAX_UNITS }
    requires first { first < units }
    ensures { result.items ≡ around first units }
{
    let mut order = ArrayVec::new();
    for n in 0..units {
        order.push(UnitId(wrapped(first + n, units) as u8));
    }
    order
}

// The remainder of a number that is below twice the number of units: a difference costs less than a division.
fn wrapped(number: u32, units: u32) -> u32
    requires low { number < units + units }
    ensures around { result ≡ number % units }
    ensures below { result < units }
{
    if number < units {
        number
    } else {
        number - units
    }
}

// All units by the ages of their tasks, and by number if these are the same.
fn by_age(recorder: &Recorder, first: First) -> Order
    ensures { result.items ≡ by_age first recorder.now }
{
    let machine = recorder.machine();
    let units = machine.config().units;
    let mut order = ArrayVec::new();
    let mut ranks: ArrayVec<u64, 16> = ArrayVec::new();
    for number in 0..units {
        let unit = UnitId(number as u8);
        let rank = rank_of(first, machine.lease(unit));
        let place = place_among(ranks.as_slice(), rank);
        ranks.insert(place, rank);
        order.insert(place, unit);
    }
    order
}

// The rank of a unit's task: the lower rank is asked first.
fn rank_of(first: First, lease: Option<&Lease>) -> u64
    ensures { result ≡ rank_of first (option_map (λ lent. lent.now) lease.entry) }
{
    let epoch = lease.map(|lease| lease.epoch);
    match (first, epoch) {
        (First::Older, Some(epoch)) => epoch,
        (First::Older, None) => u64::MAX,
        (First::Younger, Some(epoch)) => u64::MAX - epoch,
        (First::Younger, None) => 0,
    }
}

// The place of a rank among others: after those that aren't greater.
fn place_among(ranks: &[u64], rank: u64) -> usize
    ensures { result ≡ place_among ranks.now rank }
{
    let mut place = 0;
    for other in ranks {
        if *other > rank {
            break;
        }
        place += 1;
    }
    place
}
