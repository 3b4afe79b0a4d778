// Standings with the same future.

ghost use Rattle.svc_explore_laws.specs.FutureLaws.{FutureSteps, FutureMoves, FutureOnly, FutureSights, KeysTell};

/// Accepted events that are alike have one entry, and lead to standings with the same future. Where one standing has a
/// move of a unit, each with the same future has one alike if its history has room, and no other. Reached standings
/// with one key have the same future, and standings with the same future show the same of an entry.
pub fn future_law()
    ensures steps { FutureSteps }
    ensures moves { FutureMoves }
    ensures only { FutureOnly }
    ensures keys { KeysTell }
    ensures sights { FutureSights }
{}
