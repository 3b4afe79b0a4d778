//! The count of look-ups.

ghost use Rattle.std.specs.Prelude.{◌≡◌};

/// Counts the work of look-ups: a caller passes it to each of them.
#[derive(Clone, Copy, Debug, Default, PartialEq, Eq)]
pub struct Probes {
    /// How many times a cache's set was searched.
    pub searches: u32,
    /// How many places these searches visited.
    pub places: u32,
}

impl Probes {
    /// No work yet.
    pub fn new() -> Probes
        ensures searches { result.searches ≡ 0 }
        ensures places { result.places ≡ 0 }
    {
        Probes {
            searches: 0,
            places: 0,
        }
    }
}
