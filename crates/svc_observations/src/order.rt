// The order in which observations are told.

ghost use Rattle.std.specs.Prelude.{◌≡◌};
ghost use Rattle.svc_observations.specs.Order.{by_place, happening_place, number_place, places_of, version_place};

use svc_explore_laws::{By, Happening, Observation};

fn happening_place(what: Happening) -> u64
    ensures { result ≡ happening_place what }
{
    match what {
        Happening::Begin => 0,
        Happening::Load => 1,
        Happening::Store => 2,
        Happening::Output => 3,
        Happening::Trap => 4,
        Happening::Replace => 5,
        Happening::Commit => 6,
        Happening::Squash => 7,
    }
}

fn number_place(number: Option<u32>) -> u64
    ensures { result ≡ number_place number }
{
    match number {
        None => 0,
        Some(number) => u64::from(number) + 1,
    }
}

fn by_place(by: Option<By>) -> u64
    ensures { result ≡ by_place by }
{
    match by {
        None => 0,
        Some(By::Hit) => 1,
        Some(By::Reuse) => 2,
        Some(By::Version(_)) => 3,
        Some(By::Spill) => 4,
        Some(By::Committed) => 5,
        Some(By::Memory) => 6,
        Some(By::Violation) => 7,
        Some(By::Guess) => 8,
        Some(By::Cancel) => 9,
    }
}

fn version_place(by: Option<By>) -> u64
    ensures { result ≡ version_place by }
{
    match by {
        Some(By::Version(task)) => task,
        _ => 0,
    }
}

/// What is compared of two observations, one number after another.
pub fn places_of(what: &Observation) -> [u64; 6]
    ensures { result ≡ places_of what.now }
{
    [
        happening_place(what.what),
        what.task,
        number_place(what.word),
        number_place(what.value),
        by_place(what.by),
        version_place(what.by),
    ]
}
