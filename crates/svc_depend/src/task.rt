// One task, from its entry to its end, followed turn by turn.

ghost use Rattle.std.specs.Prelude.{◌≡◌, ◌≤◌, ◌<◌, ◌^◌, ◌+◌, ◌*◌, suc, true, Some, length};
ghost use Rattle.svc_image.specs.declared.layout.TheConstants.{MOST_WORDS};
ghost use Rattle.svc_image.specs.Image.{is_entry};
ghost use Rattle.svc_core_laws.specs.State.{State, limit_of};
ghost use Rattle.svc_depend.specs.Tracking.{IsBelow};
ghost use Rattle.svc_depend.specs.Walks.{IsWalked};

use crate::tracker::Tracker;
use crate::turn::take_turn;
use svc_core::{Core, End};
use svc_image::Image;

/// Runs the task that begins at an entry on the words of the memory, in place, to its end.
pub(crate) fn run_task(image: &Image, entry: u32, memory: &mut [u32], tracker: &mut Tracker) -> End
    requires entry { is_entry image.now entry ≡ true }
    requires words { length memory.old ≡ length image.now.words }
    requires few { length memory.old ≤ MOST_WORDS }
    requires size { length tracker.old.words.items ≡ length memory.old }
    requires early { tracker.old.task < 2 ^ 31 }
    requires room { tracker.old.turns < 2 ^ 58 }
    requires below { IsBelow (3 * tracker.old.turns) tracker.old }
    ensures few { tracker.new.turns ≤ tracker.old.turns + 65537 }
    ensures walked { (core : State) × (core.done ≡ Some result)
        × (IsWalked image.now entry (suc (limit_of image.now entry)) memory.old tracker.old core
        memory.new tracker.new) }
{
    let mut core = Core::start(image, entry);
    for _turn in 0..core.limit() + 1 {
        if !core.is_running() {
            break;
        }
        let touch = take_turn(image, &mut core, memory);
        tracker.follow(touch);
    }
    match core.done() {
        Some(end) => end,
        None => unreachable!(),
    }
}
