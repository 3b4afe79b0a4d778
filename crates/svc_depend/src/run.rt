// What the first tasks of a program need of one another.

ghost use Rattle.std.specs.Prelude.{◌≡◌, ◌≤◌, ◌++◌, ◌∷◌, [], false, IfOk, OnOk};
ghost use Rattle.svc_core_laws.specs.Sequence.{ending_of, plain_seq};
ghost use Rattle.svc_core_laws.specs.Words.{program};
ghost use Rattle.svc_depend_laws.specs.Needs.{IsNearestOf};
ghost use Rattle.svc_depend_laws.specs.Over.{listed};
ghost use Rattle.svc_plain.specs.Tasks.{tasks_run};
ghost use Rattle.svc_depend.specs.Told.{AreWords, task_needs, totals};

use crate::needs::{TaskNeeds, Totals};
use crate::task::run_task;
use crate::tracker::Tracker;
use crate::word::Word;
use std::alloc::{AllocError, Global};
use svc_core::Ending;
use svc_image::Image;
use svc_plain::PlainError;

/// The most tasks that are followed.
pub const MAX_TASKS: u64 = 1_000_000;

/// What tasks need of one another.
#[derive(Drop)]
pub struct Needs {
    /// Of each task, in order.
    pub tasks: Vec<TaskNeeds>,
    /// Of all of them.
    pub totals: Totals,
    /// What they did with each word.
    pub words: Vec<Word>,
    /// How the run ended, or which task would be next.
    pub ending: Ending,
}

/// Follows the first `k` tasks of a program, or as many as there are, one after another on one flat memory.
///
/// Errors: [`PlainError::Memory`], before the first task or between two.
pub fn find_needs(alloc: Global, image: &Image, k: u64) -> Result<Needs, PlainError>
    requires { k ≤ MAX_TASKS }
    ensures tasks { IfOk result (λ n. n.tasks.items ≡ listed (task_needs image.now) (tasks_run image.now k)) }
    ensures totals { IfOk result (λ n. n.totals ≡ totals image.now (tasks_run image.now k)) }
    ensures words { IfOk result (λ n. AreWords image.now (tasks_run image.now k) n.words.items) }
    ensures nearest { IfOk result (λ n. IsNearestOf (program image.now) k n.totals.nearest) }
    ensures ending { IfOk result (λ n.
        n.ending ≡ ending_of false (plain_seq image.now k).stopped (plain_seq image.now k).due) }
{
    let mut due = Some(image.start());
    let mut stopped = None;
    let mut memory = Vec::from_slice(alloc, image.data_words())?;
    let mut tracker = Tracker::new(alloc, memory.len())?;
    let mut tasks = Vec::new(alloc);
    let mut totals = Totals::none();
    for _task in 0..k {
        let Some(entry) = due else {
            break;
        };
        let before = tracker.turns;
        let end = run_task(image, entry, memory.as_mut_slice(), &mut tracker);
        let needs = tracker.task_needs(entry, before);
        push(&mut tasks, needs)?;
        totals = totals.with(&needs);
        tracker.next_task();
        due = end.next();
        stopped = end.stop();
    }
    Ok(Needs {
        tasks,
        totals,
        words: tracker.words,
        ending: Ending::of(false, stopped, due),
    })
}

fn push(tasks: &mut Vec<TaskNeeds>, needs: TaskNeeds) -> Result<(), AllocError>
    ensures { OnOk result (tasks.new.items ≡ tasks.old.items ++ needs ∷ []) }
{
    tasks.push(needs)?;
    Ok(())
}
