// What can be seen from a standing whose units are renamed.

ghost use Rattle.svc_renaming_laws.specs.SightLaws.{RenamedMoves, RenamedObservations, RenamedPlays, SameSights};

/// A unit's move, renamed, is the renamed unit's, and shows the same; so the plays of the renamed standing are the
/// renamed plays, and what can be seen from it is what can be seen from the standing itself.
pub fn sight_law()
    ensures moves { RenamedMoves }
    ensures observations { RenamedObservations }
    ensures plays { RenamedPlays }
    ensures sights { SameSights }
{}
