// The numbers of the active tasks.

ghost use Rattle.std.specs.Prelude.{◌≡◌, ◌+◌, ◌<◌, length};

use svc_machine::Machine;

/// The number of the active task at a place, counted from the oldest.
pub fn number_at(machine: &Machine, place: usize) -> u64
    requires active { place < length machine.now.plain.tasks }
    ensures { result ≡ machine.now.plain.commits + place }
{
    // its numbers are in their ranges
    let _config = machine.config();
    let first = machine.committed_tasks();
    first + place as u64
}
