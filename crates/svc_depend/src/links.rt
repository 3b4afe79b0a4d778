// The words that a task needs of others, one by one.

ghost use Rattle.std.specs.Prelude.{◌≡◌, ◌≤◌, ◌<◌, ◌^◌, ◌+◌, ◌*◌, ◌++◌, [], ℕ, suc, true, Some, IfOk, IfSome, OnOk};
ghost use Rattle.std.specs.Prelude.{length, slice_index};
ghost use Rattle.svc_image.specs.declared.layout.TheConstants.{MOST_WORDS};
ghost use Rattle.svc_image.specs.Image.{is_entry};
ghost use Rattle.svc_core_laws.specs.Program.{exposed_words, no_reads, no_words, task};
ghost use Rattle.svc_core_laws.specs.State.{State, limit_of};
ghost use Rattle.svc_core_laws.specs.Words.{program};
ghost use Rattle.svc_depend_laws.specs.Chain.{Times};
ghost use Rattle.svc_depend.specs.Links.{AreLinks, links_read};
ghost use Rattle.svc_depend.specs.Tracking.{IsBelow, IsTracked};
ghost use Rattle.svc_depend.specs.Walks.{IsWalked};

use crate::tracker::Tracker;
use crate::turn::take_turn;
use std::alloc::AllocError;
use svc_core::{Core, End};
use svc_image::Image;

/// A word that a task needs of an earlier one.
#[derive(Clone, Copy)]
pub(crate) struct Link {
    /// The number of the earlier task.
    pub(crate) on: u32,
    /// The word.
    pub(crate) word: u32,
}

// Adds what the task that runs needs of another one where it reads this word, if it reads one.
fn add_link(links: &mut Vec<Link>, tracker: &Tracker, word: Option<u32>) -> Result<(), AllocError>
    requires inside { IfSome word (λ w. w < length tracker.now.words.items) }
    requires early { tracker.now.task < 2 ^ 31 }
    ensures { OnOk result (links.new.items ≡ links.old.items ++ links_read tracker.now word) }
{
    match word {
        Some(word) => match tracker.words[word as usize].origin(tracker.task) {
            Some(on) => {
                links.push(Link { on, word })?;
                Ok(())
            }
            None => Ok(()),
        },
        None => Ok(()),
    }
}

/// Runs the task that begins at an entry to its end, as `run_task` does, and adds what it needs of others.
pub(crate) fn link_task(
    image: &Image,
    entry: u32,
    memory: &mut [u32],
    tracker: &mut Tracker,
    links: &mut Vec<Link>,
) -> Result<End, AllocError>
    requires entry { is_entry image.now entry ≡ true }
    requires words { length memory.old ≡ length image.now.words }
    requires few { length memory.old ≤ MOST_WORDS }
    requires size { length tracker.old.words.items ≡ length memory.old }
    requires early { tracker.old.task < 2 ^ 31 }
    requires room { tracker.old.turns < 2 ^ 58 }
    requires below { IsBelow (3 * tracker.old.turns) tracker.old }
    requires empty { links.old.items ≡ [] }
    ensures few { OnOk result (tracker.new.turns ≤ tracker.old.turns + 65537) }
    ensures walked { IfOk result (λ end. (core : State) × (core.done ≡ Some end)
        × (IsWalked image.now entry (suc (limit_of image.now entry)) memory.old tracker.old core
        memory.new tracker.new)) }
    ensures linked { OnOk result ((times : Times) → IsTracked (program image.now) no_reads no_words times 0 tracker.old
        → AreLinks (program image.now) tracker.old.task
        (exposed_words (task (program image.now) entry (slice_index memory.old)).log) links.new.items) }
{
    let mut core = Core::start(image, entry);
    for _turn in 0..core.limit() + 1 {
        if !core.is_running() {
            break;
        }
        let touch = take_turn(image, &mut core, memory);
        add_link(links, tracker, touch.reads)?;
        tracker.follow(touch);
    }
    match core.done() {
        Some(end) => Ok(end),
        None => unreachable!(),
    }
}
