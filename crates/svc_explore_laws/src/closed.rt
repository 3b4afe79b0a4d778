// Closed lists of keys.

ghost use Rattle.svc_explore_laws.specs.FutureLaws.{ClosedLaw};

/// Where the keys of some standings are closed under the moves of all units, every play of the machine, whichever units
/// move and however long, shows only what was found at those standings.
pub fn closed_law<K>()
    ensures { ClosedLaw K }
{}
