// Renamings of units.

ghost use Rattle.svc_renaming_laws.specs.Orders.{OrdersRename};
ghost use Rattle.svc_renaming_laws.specs.Renamings.{SwapsRename, UnchangedRenames, UndoneRenames, FollowedRenames};

/// Two units can swap names, a renaming can be undone, and one can follow another. A list of all units renames them by
/// their places.
pub fn renaming_law()
    ensures swap { SwapsRename }
    ensures unchanged { UnchangedRenames }
    ensures undone { UndoneRenames }
    ensures followed { FollowedRenames }
    ensures order { OrdersRename }
{}
