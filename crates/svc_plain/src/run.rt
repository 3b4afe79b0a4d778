// Tasks in sequential order.

ghost use Rattle.std.specs.Prelude.{◌≡◌, ℕ, false, IfOk, length, slice_index};
ghost use Rattle.svc_core_laws.specs.Bytes.{word_at};
ghost use Rattle.svc_core_laws.specs.Sequence.{plain_seq, ending_of};
ghost use Rattle.svc_plain.specs.Tasks.{tasks_run};

use crate::error::PlainError;
use crate::task::run_task;
use arrayvec::ArrayVec;
use std::alloc::Global;
use svc_core::Ending;
use svc_image::Image;

/// What a sequential run leaves.
#[derive(Drop)]
pub struct PlainOutcome {
    /// How many tasks were run.
    pub tasks: u64,
    /// The words of the memory.
    pub memory: Vec<u32>,
    /// The words that the tasks output, the oldest first.
    pub output: Vec<u32>,
    /// How the run ended, or which task would be next.
    pub ending: Ending,
}

/// Runs the first `k` tasks of a program, or as many as there are, one after another on one flat memory.
///
/// Errors: [`PlainError::Memory`], before the first task or between two.
pub fn run_tasks(alloc: Global, image: &Image, k: u64) -> Result<PlainOutcome, PlainError>
    ensures tasks { IfOk result (λ o. o.tasks ≡ tasks_run image.now k) }
    ensures size { IfOk result (λ o. length o.memory.items ≡ length image.now.words) }
    ensures memory { IfOk result (λ o. (a : ℕ) → slice_index o.memory.items a
        ≡ word_at (plain_seq image.now k).memory a) }
    ensures output { IfOk result (λ o. o.output.items ≡ (plain_seq image.now k).output) }
    ensures ending { IfOk result (λ o.
        o.ending ≡ ending_of false (plain_seq image.now k).stopped (plain_seq image.now k).due) }
{
    let mut due = Some(image.start());
    let slots = image.slots();
    let mut memory = Vec::from_slice(alloc, image.data_words())?;
    let mut output = Vec::new(alloc);
    let mut tasks = 0;
    let mut stopped = None;
    for _task in 0..k {
        let Some(entry) = due else {
            break;
        };
        let mut words = ArrayVec::new();
        let end = run_task(image, slots, entry, memory.as_mut_slice(), &mut words);
        output.extend_from_slice(words.as_slice())?;
        tasks += 1;
        due = end.next();
        stopped = end.stop();
    }
    Ok(PlainOutcome {
        tasks,
        memory,
        output,
        ending: Ending::of(false, stopped, due),
    })
}
