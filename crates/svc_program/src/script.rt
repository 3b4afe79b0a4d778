//! `script`: the events of a script, one after another.

ghost use Rattle.std.specs.Prelude.{◌≡◌, option_map, Some, IfOk, IfErr, OnOk};
ghost use Rattle.std.specs.Io.KnownBytes.{Appends};
ghost use Rattle.svc_history.specs.Recorded.{IsLegal};
ghost use Rattle.svc_request.specs.declared.request.Request.TheVariants as request;
ghost use Rattle.svc_request.specs.Faults.{IsOutputFault};
ghost use Rattle.svc_answer.specs.Requests.{IsAnswered, IsQuiet, SavesAlone, SavesAnyTrace, SavesTrace};
ghost use Rattle.svc_answer.specs.Scripts.{HasPlayedAll, PlaysScript};

use std::alloc::Global;
use std::io::Write;
use svc_answer::load::{load_image, load_script, save_trace};
use svc_answer::output::print_text;
use svc_answer::summary::print_recorded;
use svc_history::Recorder;
use svc_image::Image;
use svc_report::ReportError;
use svc_request::{Fault, Files, Scripted};
use svc_script::{Kept, Step, no_bursts, play};

/// Does the steps of a script, and prints a line for each, and then the summary. Where a file is named for it, the
/// trace is saved before anything is printed.
pub fn script<F: Files, O: Write>(
    alloc: Global,
    scripted: Scripted<'_>,
    files: &mut F,
    out: &mut O,
) -> Result<u8, Fault>
    ensures { IsAnswered O.contents (request.Script scripted.entry)
        (F.held files.old) (F.held files.new) out.old out.new result }
{
    let image = load_image(alloc, scripted.image, files)?;
    let steps = load_script(alloc, scripted.events, files)?;
    play_script(alloc, image, scripted, &steps, files, out)
}

// Does the steps from before any event.
fn play_script<F: Files, O: Write>(
    alloc: Global,
    image: Image,
    scripted: Scripted<'_>,
    steps: &[Step],
    files: &mut F,
    out: &mut O,
) -> Result<u8, Fault>
    ensures script { IfOk result (PlaysScript image scripted.entry.config steps.now
        (SavesAnyTrace (F.held files.new) scripted.entry.trace) (O.contents out.old) (O.contents out.new)) }
    ensures silent { IfErr result (IsQuiet out.old out.new) }
    ensures alone { SavesAlone (option_map (λ name. name.now) scripted.entry.trace)
        (F.held files.old) (F.held files.new) result }
{
    let config = scripted.config;
    let mut recorder = Recorder::open(alloc, image, config)?;
    let mut kept = no_bursts(alloc, config.units)?;
    match scripted.trace {
        None => play_all(alloc, &mut recorder, &mut kept, steps, out),
        Some(trace) => play_saved(alloc, &mut recorder, &mut kept, steps, trace, files, out),
    }
}

// Does all the steps, saves the trace, and then prints a line for each step, and the summary.
fn play_saved<F: Files, O: Write>(
    alloc: Global,
    recorder: &mut Recorder,
    kept: &mut Kept,
    steps: &[Step],
    trace: &str,
    files: &mut F,
    out: &mut O,
) -> Result<u8, Fault>
    ensures start { IsLegal recorder.old }
    ensures last { OnOk result (IsLegal recorder.new) }
    ensures played { IfOk result (HasPlayedAll steps.now recorder.old kept.old.items recorder.new kept.new.items
        (O.contents out.old) (O.contents out.new)) }
    ensures saved { OnOk result (SavesTrace (F.held files.new) trace.now recorder.new.entries) }
    ensures silent { IfErr result (IsQuiet out.old out.new) }
    ensures alone { SavesAlone (Some trace.now) (F.held files.old) (F.held files.new) result }
{
    let mut text = Vec::new(alloc);
    // A vector refuses what is written to it for want of memory alone.
    let Ok(status) = play_all(alloc, recorder, kept, steps, &mut text) else {
        return Err(Fault::Report(ReportError::Memory));
    };
    save_trace(alloc, recorder.entries(), Some(trace), files)?;
    print_text(&text, out)?;
    Ok(status)
}

// Does all the steps, and prints a line for each, and then the summary.
fn play_all<O: Write>(
    alloc: Global,
    recorder: &mut Recorder,
    kept: &mut Kept,
    steps: &[Step],
    out: &mut O,
) -> Result<u8, Fault>
    ensures start { IsLegal recorder.old }
    ensures last { OnOk result (IsLegal recorder.new) }
    ensures played { IfOk result (HasPlayedAll steps.now recorder.old kept.old.items recorder.new kept.new.items
        (O.contents out.old) (O.contents out.new)) }
    ensures fault { IfErr result IsOutputFault }
{
    let _start = recorder.entries();
    play(alloc, recorder, kept, steps, out)?;
    let _last = recorder.entries();
    print_recorded(alloc, recorder, out)
}
