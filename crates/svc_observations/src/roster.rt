// Which tasks are active, as a move finds them.

ghost use Rattle.std.specs.Prelude.{◌<◌, ◌^◌};

use svc_base::UnitId;

/// The number of the head, or of the next task, and the units of the active tasks, by which they are numbered.
#[derive(Drop)]
pub struct Roster {
    pub(crate) head: u64,
    pub(crate) units: Vec<UnitId>,
    ghost few: { head < 2 ^ 32 },
}
