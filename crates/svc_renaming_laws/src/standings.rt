// Standings whose units are renamed.

ghost use Rattle.svc_renaming_laws.specs.StandingLaws.{RenamedReached, RenamedRefusals, RenamedSteps, RenamedReplies};
ghost use Rattle.svc_renaming_laws.specs.StandingLaws.{RenamedEntries, RenamedEvents};

/// At the renamed standing the renamed event is refused for the same reason; if it is accepted, it leads to the renamed
/// standing, with the renamed answer and the renamed entry. What holds of all reached standings holds of the renamed
/// ones.
pub fn standing_law()
    ensures reached { RenamedReached }
    ensures refusals { RenamedRefusals }
    ensures steps { RenamedSteps }
    ensures replies { RenamedReplies }
    ensures entries { RenamedEntries }
    ensures events { RenamedEvents }
{}
