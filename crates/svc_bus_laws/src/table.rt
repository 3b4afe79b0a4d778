// The line table: each step keeps what every reached table satisfies, and is the versioned map's step.

ghost use Rattle.svc_bus_laws.specs.TableLaws.{OpenedLaw, ReachedLaw, MemoryLaw, ReadLaw, OwnLineLaw, SupplierLaw};
ghost use Rattle.svc_bus_laws.specs.TableLaws.{SpillSupplies, WriteLaw, LineWalkLaw, ReplaceLaw, SquashLaw};
ghost use Rattle.svc_bus_laws.specs.TableLaws.{SquashNumbers, SquashFrom, CommitLaw, SpillLaw, BeginLaw, PurgeLaw};

/// An opened bus is sound, and stands for the map of its memory without tasks.
pub fn opened_law()
    ensures { OpenedLaw }
{}

/// Every line table that a bus reaches is sound. No line of a sound table lies past the memory.
pub fn reached_law()
    ensures sound { ReachedLaw }
    ensures in_memory { MemoryLaw }
{}

/// A read keeps the table sound, and is the map's read.
pub fn read_law()
    ensures { ReadLaw }
{}

/// The supplier of a read holds what the task reads; so does the unit's own line at a hit and at a reuse. The spill
/// supplies the head's bus request exactly when the word has a spilled value.
pub fn supplier_law()
    ensures value { SupplierLaw }
    ensures own { OwnLineLaw }
    ensures spill { SpillSupplies }
{}

/// A write keeps the table sound, and is the map's write; the walk over the later tasks' lines finds its victim.
pub fn write_law()
    ensures write { WriteLaw }
    ensures walk { LineWalkLaw }
{}

/// A replacement that is not refused as pinned keeps the table sound, and changes nothing in the map.
pub fn replace_law()
    ensures { ReplaceLaw }
{}

/// A squash keeps the table sound, and is the map's cut. It takes out the lines with the cut tasks' numbers, and a
/// squash from a unit on is one from its task's place on.
pub fn squash_law()
    ensures squash { SquashLaw }
    ensures numbers { SquashNumbers }
    ensures from_unit { SquashFrom }
{}

/// A commit keeps the table sound, and is the map's commit. A spilled value is uncommitted before it, and in memory
/// after it.
pub fn commit_law()
    ensures commit { CommitLaw }
    ensures spill { SpillLaw }
{}

/// The beginning of a task keeps the table sound, and is the map's.
pub fn begin_law()
    ensures { BeginLaw }
{}

/// A purge of a word keeps the table sound and its map; it puts the committed value into memory and leaves no committed
/// dirty line of the word.
pub fn purge_law()
    ensures { PurgeLaw }
{}
