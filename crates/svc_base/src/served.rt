// Who supplies a read.

use crate::ids::UnitId;

/// Who supplies the value that a task reads: the first of these that exists. The bus plans a read by it, and a reply
/// reports it. (Terms: Gopal, Vijaykumar, Smith, Sohi, "Speculative Versioning Cache", HPCA 1998, where the version
/// control logic supplies a load with the nearest version before it. The order of the suppliers is this simulator's
/// own.)
#[derive(Clone, Copy, Debug, PartialEq, Eq)]
pub enum Served {
    /// The active line of the task's own unit.
    Hit,
    /// The committed line of the task's own unit, which is clean and not stale.
    Reuse,
    /// The version of the nearest earlier active task, in this unit's cache.
    Version(UnitId),
    /// The head's version that a replacement took out of its cache.
    Spill,
    /// The newest committed version, in this unit's cache.
    Committed(UnitId),
    /// The backing memory.
    Memory,
}
