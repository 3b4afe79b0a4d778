//! How `run` runs an image.

ghost use Rattle.std.specs.Prelude.{IfOk, IfErr, IfSome, OnOk, Some, option_map};
ghost use Rattle.svc_request.specs.declared.request.Request.TheVariants as request;
ghost use Rattle.svc_request.specs.Faults.{IsRunFault};
ghost use Rattle.svc_answer.specs.Requests.{GoesBy, HasEvents, IsAnswered, IsQuiet, SavesAlone, SavesAnyTrace};
ghost use Rattle.svc_answer.specs.Runs.{GoesOnBy, IsRunOf, ReportsRun};

use std::alloc::Global;
use std::io::Write;
use std::sync::Wait;
use std::thread::Threads;
use svc_answer::load::{load_events, load_image, save_trace};
use svc_answer::summary::print_run;
use svc_base::{Config, UnitId};
use svc_history::Recorder;
use svc_image::Image;
use svc_report::TableRow;
use svc_request::{Fault, Files, Order, Run, Schedule};
use svc_schedule::{Oldest, Random, Rotate, Youngest, continue_schedule};
use svc_script::lead_on;
use svc_threads::{Gate, Phase, RunError, run_units};

/// A gate at which no unit's thread waits.
struct OpenGate;

impl Gate for OpenGate {
    fn pass(&self, _unit: UnitId, _phase: Phase<'_>) -> bool {
        true
    }
}

/// Runs an image, saves the trace if a file is named for it, and prints the summary.
pub fn run<R: Threads + Wait + Sync, F: Files, O: Write>(
    rt: &R,
    alloc: Global,
    run: Run<'_>,
    files: &mut F,
    out: &mut O,
) -> Result<u8, Fault>
    ensures { IsAnswered O.contents (request.Run run.entry)
        (F.held files.old) (F.held files.new) out.old out.new result }
{
    let image = load_image(alloc, run.image, files)?;
    let recorder = run_image(rt, alloc, image, run.config, run.schedule, files)?;
    report_run(alloc, &recorder, run.trace, run.row, files, out)
}

/// Runs an image by a schedule, saves the trace if a file is named for it, and prints the summary. There are no
/// threads, so none can be started for a run without a schedule.
pub fn run_alone<F: Files, O: Write>(
    alloc: Global,
    run: Run<'_>,
    files: &mut F,
    out: &mut O,
) -> Result<u8, Fault>
    ensures { IsAnswered O.contents (request.Run run.entry)
        (F.held files.old) (F.held files.new) out.old out.new result }
{
    let image = load_image(alloc, run.image, files)?;
    let recorder = run_image_alone(alloc, image, run.config, run.schedule, files)?;
    report_run(alloc, &recorder, run.trace, run.row, files, out)
}

// Saves the trace of what was recorded, if a file is named for it, and prints its summary.
fn report_run<F: Files, O: Write>(
    alloc: Global,
    recorder: &Recorder,
    trace: Option<&str>,
    row: Option<TableRow<'_>>,
    files: &mut F,
    out: &mut O,
) -> Result<u8, Fault>
    ensures saved { IfOk result (λ _. SavesAnyTrace (F.held files.new) trace.entry recorder.now.entries) }
    ensures report { IfOk result (ReportsRun row.entry recorder.now (O.contents out.old) (O.contents out.new)) }
    ensures silent { IfErr result (IsQuiet out.old out.new) }
    ensures alone { SavesAlone (option_map (λ name. name.now) trace.entry) (F.held files.old)
        (F.held files.new) result }
{
    save_trace(alloc, recorder.entries(), trace, files)?;
    print_run(alloc, recorder, row, out)
}

// Runs the image on all units of the configuration, by the schedule if there is one, otherwise each in a thread of its
// own, until the run has stopped or has used up its events or its turns: those of the threads, or the steps of the
// schedule.
fn run_image<R: Threads + Wait + Sync, F: Files>(
    rt: &R,
    alloc: Global,
    image: Image,
    config: Config,
    schedule: Option<Schedule<'_>>,
    files: &F,
) -> Result<Recorder, Fault>
    ensures run { IfOk result (IsRunOf image config) }
    ensures goes { IfOk result (GoesBy (F.held files.now) schedule.entry image config) }
    ensures machine { IfErr result (λ f. IsRunFault f → IfSome schedule.entry
        (λ s. HasEvents (F.held files.now) s.after)) }
{
    match schedule {
        None => run_threads(rt, alloc, &image, config),
        Some(schedule) => run_scheduled(alloc, image, config, schedule, files),
    }
}

// The same where there are no threads.
fn run_image_alone<F: Files>(
    alloc: Global,
    image: Image,
    config: Config,
    schedule: Option<Schedule<'_>>,
    files: &F,
) -> Result<Recorder, Fault>
    ensures run { IfOk result (IsRunOf image config) }
    ensures goes { IfOk result (GoesBy (F.held files.now) schedule.entry image config) }
    ensures machine { IfErr result (λ f. IsRunFault f → IfSome schedule.entry
        (λ s. HasEvents (F.held files.now) s.after)) }
{
    match schedule {
        None => Err(Fault::Run(RunError::NotStarted)),
        Some(schedule) => run_scheduled(alloc, image, config, schedule, files),
    }
}

// A thread for each unit.
fn run_threads<R: Threads + Wait + Sync>(
    rt: &R,
    alloc: Global,
    image: &Image,
    config: Config,
) -> Result<Recorder, Fault>
    ensures run { IfOk result (IsRunOf image.now config) }
    ensures fault { IfErr result IsRunFault }
{
    let outcome = run_units(rt, alloc, image, config, &OpenGate)?;
    Ok(outcome.recorder)
}

// All units in this thread, by the schedule, after the events of the script that it names, if it names one.
fn run_scheduled<F: Files>(
    alloc: Global,
    image: Image,
    config: Config,
    schedule: Schedule<'_>,
    files: &F,
) -> Result<Recorder, Fault>
    ensures run { IfOk result (IsRunOf image config) }
    ensures goes { IfOk result (GoesBy (F.held files.now) (Some schedule.entry) image config) }
    ensures machine { IfErr result (λ f. IsRunFault f → HasEvents (F.held files.now) schedule.entry.after) }
{
    let steps = load_events(alloc, schedule.after, files)?;
    let mut recorder = Recorder::open(alloc, image, config)?;
    // what the type guarantees: its history is legal
    let _none = recorder.entries();
    lead_on(alloc, &mut recorder, &steps);
    go_on(alloc, &mut recorder, schedule)?;
    Ok(recorder)
}

// Goes on by the schedule from where the recorder stands.
fn go_on(alloc: Global, recorder: &mut Recorder, schedule: Schedule<'_>) -> Result<(), Fault>
    ensures goes { OnOk result (GoesOnBy schedule.entry.order schedule.entry.burst recorder.old recorder.new) }
    ensures fault { IfErr result IsRunFault }
{
    let burst = schedule.burst;
    match schedule.order {
        Order::Rotate => Ok(continue_schedule(alloc, recorder, burst, &mut Rotate)?),
        Order::Oldest => Ok(continue_schedule(alloc, recorder, burst, &mut Oldest)?),
        Order::Youngest => Ok(continue_schedule(alloc, recorder, burst, &mut Youngest)?),
        Order::Random { seed } => Ok(continue_schedule(
            alloc,
            recorder,
            burst,
            &mut Random::new(seed),
        )?),
    }
}
