// A bus without numbers, and the line tables that it agrees with.

ghost use Rattle.svc_bus_laws.specs.AgreementLaws.{OpenedAgrees, OwnState, SameAgrees, SoundSeen, CommittedSeen};
ghost use Rattle.svc_bus_laws.specs.AgreementLaws.{MapSeen, ViewSeen, VictimSeen, SupplierSeen, SuppliedSeen, WalkSeen};
ghost use Rattle.svc_bus_laws.specs.AgreementLaws.{ReadAgrees, WriteAgrees, ReplaceAgrees, SquashAgrees, CommitAgrees};
ghost use Rattle.svc_bus_laws.specs.AgreementLaws.{BeginAgrees, AlikeReads, AlikeWrites, AlikeReplacements};
ghost use Rattle.svc_bus_laws.specs.AgreementLaws.{AlikeSquashes, AlikeCommits, AlikeBeginnings, AlikeMaps};
ghost use Rattle.svc_bus_laws.specs.OrderLaws.{OrderDirty, OrderStrict, OrderTransitive, OrderTotal, CommittedFirst};
ghost use Rattle.svc_bus_laws.specs.OrderLaws.{TaskOrder};

/// The opened bus agrees with the opened table, and a sound table's own state with the table. A state that agrees
/// satisfies what its table satisfies, and its look-ups decide nothing.
pub fn state_law()
    ensures opened { OpenedAgrees }
    ensures own { OwnState }
    ensures same { SameAgrees }
    ensures sound { SoundSeen }
{}

/// The committed values, the versioned map (with it each view and victim) and the supplier of a read are seen without
/// numbers, and are those of every table that agrees. The supplier that is seen holds the view, and the walk over the
/// lines that are seen finds the victim.
pub fn seen_law()
    ensures committed { CommittedSeen }
    ensures map { MapSeen }
    ensures view { ViewSeen }
    ensures victim { VictimSeen }
    ensures supplier { SupplierSeen }
    ensures supplied { SuppliedSeen }
    ensures walk { WalkSeen }
{}

/// The order of a word's dirty lines that callers see is strict and total: committed ones first, then active ones in
/// the order of their tasks.
pub fn order_law()
    ensures dirty { OrderDirty }
    ensures strict { OrderStrict }
    ensures transitive { OrderTransitive }
    ensures total { OrderTotal }
    ensures committed { CommittedFirst }
    ensures tasks { TaskOrder }
{}

/// Each step without numbers keeps a bus in agreement with every line table that it agrees with.
pub fn agreement_law()
    ensures read { ReadAgrees }
    ensures write { WriteAgrees }
    ensures replace { ReplaceAgrees }
    ensures squash { SquashAgrees }
    ensures commit { CommitAgrees }
    ensures begin { BeginAgrees }
{}

/// So the steps depend only on the order of the numbers: tables that are alike are alike again after a step, and stand
/// for one map.
pub fn alike_law()
    ensures read { AlikeReads }
    ensures write { AlikeWrites }
    ensures replace { AlikeReplacements }
    ensures squash { AlikeSquashes }
    ensures commit { AlikeCommits }
    ensures begin { AlikeBeginnings }
    ensures one_map { AlikeMaps }
{}
