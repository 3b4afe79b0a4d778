//! `seq`: tasks of an image, one after another.

ghost use Rattle.std.specs.Prelude.{false, None, IfOk, IfErr};
ghost use Rattle.svc_plain.specs.Tasks.{tasks_run};
ghost use Rattle.svc_request.specs.declared.request.Request.TheVariants as request;
ghost use Rattle.svc_answer.specs.Requests.{IsAnswered, IsQuiet};
ghost use Rattle.svc_answer.specs.Runs.{Reports};

use std::alloc::Global;
use std::io::Write;
use svc_answer::load::load_image;
use svc_answer::summary::print;
use svc_image::Image;
use svc_plain::run_tasks;
use svc_request::{Fault, Files, Tasks};

/// Runs tasks in order, on one flat memory, and prints the summary.
pub fn sequential<F: Files, O: Write>(
    alloc: Global,
    tasks: Tasks<'_>,
    files: &F,
    out: &mut O,
) -> Result<u8, Fault>
    ensures { IsAnswered O.contents (request.Sequential tasks.entry)
        (F.held files.now) (F.held files.now) out.old out.new result }
{
    let image = load_image(alloc, tasks.image, files)?;
    run_in_order(alloc, &image, tasks.most, out)
}

// Runs at most this many tasks of an image, and prints the summary.
fn run_in_order<O: Write>(alloc: Global, image: &Image, most: u32, out: &mut O) -> Result<u8, Fault>
    ensures report { IfOk result (Reports image.now most (tasks_run image.now most) false None (O.contents out.old)
        (O.contents out.new)) }
    ensures silent { IfErr result (IsQuiet out.old out.new) }
{
    let outcome = run_tasks(alloc, image, u64::from(most))?;
    print(
        alloc,
        &outcome.output,
        outcome.tasks,
        outcome.ending,
        None,
        out,
    )
}
