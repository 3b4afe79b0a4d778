//! `check`: the replay of a trace, and the script that leads to it.

ghost use Rattle.std.specs.Prelude.{◌≡◌, ◌≤◌, IfOk, IfErr, length, option_map};
ghost use Rattle.std.specs.List.{AllByRecursion};
ghost use Rattle.svc_base.specs.declared.config.TheConstants.{MAX_EVENTS};
ghost use Rattle.svc_history_laws.specs.Legal.{LegalHistory};
ghost use Rattle.svc_report.specs.Trace.{HasRow};
ghost use Rattle.svc_script.specs.Suppliers.{AllAlike};
ghost use Rattle.svc_request.specs.declared.request.Request.TheVariants as request;
ghost use Rattle.svc_request.specs.Faults.{IsOutputFault, TellsOfTrace};
ghost use Rattle.svc_answer.specs.Requests.{IsAnswered, IsQuiet, SavesAlone, SavesAnyScript, Shows};
ghost use Rattle.svc_answer.specs.Runs.{AreSameIn, TellsOfColumns, sound_row};

use std::alloc::Global;
use std::io::Write;
use svc_answer::load::{load_traced, save_script};
use svc_answer::output::print_text;
use svc_base::Config;
use svc_history::{Entry, Recorder, check_trace};
use svc_history_laws::history_leads_on;
use svc_image::Image;
use svc_report::{ReportError, legal_history_has_rows};
use svc_request::{Compared, Fault, Files, Traced};
use svc_script::check_but_suppliers;

/// Replays a trace, and prints that it is sound. Where a file is named for it, the script that leads to the trace is
/// saved before that.
pub fn check<F: Files, O: Write>(
    alloc: Global,
    traced: Traced<'_>,
    compared: Compared,
    script: Option<&str>,
    files: &mut F,
    out: &mut O,
) -> Result<u8, Fault>
    ensures { IsAnswered O.contents (request.Check traced.entry compared script.entry)
        (F.held files.old) (F.held files.new) out.old out.new result }
{
    let (image, entries) = load_traced(alloc, traced, files)?;
    let recorder = compare(alloc, image, traced.config, &entries, compared)?;
    tell_sound(alloc, recorder.entries(), script, files, out)
}

// Replays the entries from before any event, and compares these columns. The recorder has the same entries in these.
fn compare(
    alloc: Global,
    image: Image,
    config: Config,
    entries: &[Entry],
    compared: Compared,
) -> Result<Recorder, Fault>
    ensures legal { IfOk result (λ r. LegalHistory image config r.entries) }
    ensures alike { IfOk result (λ r. AreSameIn compared r.entries entries.now) }
    ensures rows { AllByRecursion HasRow entries.now → IfOk result (λ r. AllByRecursion HasRow r.entries) }
    ensures fault { IfErr result (TellsOfColumns compared image config entries.now) }
{
    match compared {
        Compared::All => replay(alloc, image, config, entries),
        Compared::ButSuppliers => supply(alloc, image, config, entries),
    }
}

// Replays the entries from before any event, with the suppliers of this machine.
fn supply(alloc: Global, image: Image, config: Config, entries: &[Entry]) -> Result<Recorder, Fault>
    ensures legal { IfOk result (λ r. LegalHistory image config r.entries) }
    ensures alike { IfOk result (λ r. AllAlike r.entries entries.now) }
    ensures rows { IfOk result (λ r. AllByRecursion HasRow r.entries) }
    ensures fault { IfErr result (TellsOfColumns Compared.ButSuppliers image config entries.now) }
{
    let recorder = check_but_suppliers(alloc, image, config, entries)?;
    legal_history_has_rows(recorder.entries());
    Ok(recorder)
}

// Saves the script of the entries if a file is named for it, and prints that they are sound.
fn tell_sound<F: Files, O: Write>(
    alloc: Global,
    entries: &[Entry],
    script: Option<&str>,
    files: &mut F,
    out: &mut O,
) -> Result<u8, Fault>
    ensures shown { IfOk result (Shows (sound_row (length entries.now)) (O.contents out.old) (O.contents out.new)) }
    ensures saved { IfOk result (λ _. SavesAnyScript (F.held files.new) script.entry entries.now) }
    ensures silent { IfErr result (IsQuiet out.old out.new) }
    ensures alone { SavesAlone (option_map (λ name. name.now) script.entry) (F.held files.old)
        (F.held files.new) result }
{
    let Some(_) = script else {
        return print_sound(entries.len(), out);
    };
    let mut text = Vec::new(alloc);
    // A vector refuses what is written to it for want of memory alone.
    let Ok(status) = print_sound(entries.len(), &mut text) else {
        return Err(Fault::Report(ReportError::Memory));
    };
    save_script(alloc, entries, script, files)?;
    print_text(&text, out)?;
    Ok(status)
}

// Prints that so many entries are sound.
fn print_sound<O: Write>(count: usize, out: &mut O) -> Result<u8, Fault>
    ensures shown { IfOk result (Shows (sound_row count) (O.contents out.old) (O.contents out.new)) }
    ensures fault { IfErr result IsOutputFault }
{
    writeln!(out, "sound,{count}")?;
    out.flush()?;
    Ok(0)
}

/// Replays the entries from before any event, and gives the recorder to which they lead.
///
/// Errors: the trace's first fault.
pub(crate) fn replay(
    alloc: Global,
    image: Image,
    config: Config,
    entries: &[Entry],
) -> Result<Recorder, Fault>
    ensures image { IfOk result (λ r. r.machine.image ≡ image) }
    ensures config { IfOk result (λ r. r.machine.config ≡ config) }
    ensures entries { IfOk result (λ r. r.entries ≡ entries.now) }
    ensures legal { IfOk result (λ _. LegalHistory image config entries.now) }
    ensures few { IfOk result (λ _. length entries.now ≤ MAX_EVENTS) }
    ensures fault { IfErr result (TellsOfTrace image config entries.now) }
{
    // a legal history has no more entries than the configuration allows
    let _start = image.start();
    let recorder = check_trace(alloc, image, config, entries)?;
    history_leads_on();
    Ok(recorder)
}
