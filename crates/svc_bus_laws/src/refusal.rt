// When a read, a write or a replacement is refused.

ghost use Rattle.svc_bus_laws.specs.RefusalLaws.{FullRefuses, RoomAllows, NamedAddress, PinnedResides, UnpinnedHead};
ghost use Rattle.svc_bus_laws.specs.RefusalLaws.{SameCache, SameFull, SameResident, SamePinned};

/// A read or a write is refused exactly when the word has no valid line in the unit's cache and its set is full. The
/// refusal names the lowest word of the set's committed lines or, if none is committed, of all its lines.
pub fn full_law()
    ensures refuses { FullRefuses }
    ensures allows { RoomAllows }
    ensures named { NamedAddress }
{}

/// A replacement that is refused as pinned isn't refused as not resident; an active line that isn't pinned is the
/// head's.
pub fn pinned_law()
    ensures resides { PinnedResides }
    ensures head { UnpinnedHead }
{}

/// A bus and every line table that it agrees with refuse the same things, with the same address.
pub fn same_refusals_law()
    ensures cache { SameCache }
    ensures full { SameFull }
    ensures resident { SameResident }
    ensures pinned { SamePinned }
{}
