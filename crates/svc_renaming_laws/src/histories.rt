// Histories whose units are renamed.

ghost use Rattle.svc_renaming_laws.specs.HistoryLaws.{RenamedRuns, RenamedLegal, RenamedHistories};

/// Renamed events, accepted or refused, lead to the renamed standing. A legal history whose units are renamed is a
/// legal history.
pub fn history_law()
    ensures runs { RenamedRuns }
    ensures legal { RenamedLegal }
    ensures histories { RenamedHistories }
{}
