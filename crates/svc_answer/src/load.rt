//! The files of a request: its image, its script and its trace.

ghost use Rattle.std.specs.Prelude.{◌≡◌, ◌⊎◌, All, IfOk, IfErr, IfSome, option_map};
ghost use Rattle.svc_image.specs.Format.{file_of};
ghost use Rattle.svc_script.specs.Events.{IsEvent};
ghost use Rattle.svc_request.specs.Faults.{IsEarly, IsRunFault};
ghost use Rattle.svc_answer.specs.Named.{AreNamesIn};
ghost use Rattle.svc_answer.specs.Requests.{AreEventsIn, IsOfSource, IsScriptIn, IsThere, IsTraceIn, SavesAlone};
ghost use Rattle.svc_answer.specs.Requests.{SavesAnyScript, SavesAnyTrace};

use crate::front::front_of;
use std::alloc::Global;
use std::io::Read;
use svc_history::Entry;
use svc_image::{Image, ImageError, MOST_BYTES, samples};
use svc_names::Names;
use svc_report::{ReportError, read_trace, write_trace};
use svc_request::{Fault, Files, Source, Traced};
use svc_script::{Step, first_other, read_script, script_of, write_script};

/// The image of a source.
pub fn load_image<F: Files>(alloc: Global, source: Source<'_>, files: &F) -> Result<Image, Fault>
    ensures image { IfOk result (IsOfSource (F.held files.now) source.entry) }
    ensures early { IfErr result IsEarly }
{
    let image = match source {
        Source::BuiltIn => Image::read(alloc, samples::P1.as_slice())?,
        Source::File(name) => read_image(alloc, files.open(name)?)?,
    };
    // what the type guarantees: it is an image
    let _start = image.start();
    Ok(image)
}

// The image that a reader gives. No more is read than the largest image has, and one byte. The first fault of these
// bytes is that of the whole, since each check except the last looks at a place within an image.
fn read_image<R: Read + Drop>(alloc: Global, reader: R) -> Result<Image, Fault>
    ensures image { IfOk result (λ img. IfSome (R.remaining reader) (λ bytes. file_of img ≡ bytes)) }
    ensures early { IfErr result IsEarly }
{
    let bytes = front_of(alloc, reader, MOST_BYTES)?;
    let image = Image::read(alloc, &bytes)?;
    if bytes.len() > MOST_BYTES as usize {
        return Err(Fault::Image(ImageError::Trailing));
    }
    Ok(image)
}

/// The steps of a script's file, which is read whole before the first step is done.
pub fn load_script<F: Files>(alloc: Global, name: &str, files: &F) -> Result<Vec<Step>, Fault>
    ensures script { IfOk result (λ steps. IsScriptIn (F.held files.now) name.now steps.items) }
    ensures machine { IfErr result (λ f. IsRunFault f → ⊥) }
{
    let reader = files.open(name)?;
    match read_script(alloc, reader) {
        Ok(steps) => Ok(steps),
        Err(ReportError::Row { row, column }) => Err(Fault::BadScript { row, column }),
        Err(error) => Err(Fault::Report(error)),
    }
}

/// The steps of a script's file, each of which asks for an event; none if no file is named.
pub fn load_events<F: Files>(
    alloc: Global,
    script: Option<&str>,
    files: &F,
) -> Result<Vec<Step>, Fault>
    ensures script { IfOk result (λ steps. AreEventsIn (F.held files.now) script.entry steps.items) }
    ensures events { IfOk result (λ steps. All IsEvent steps.items) }
    ensures machine { IfErr result (λ f. IsRunFault f → ⊥) }
{
    let Some(name) = script else {
        return Ok(Vec::new(alloc));
    };
    let steps = load_script(alloc, name, files)?;
    match first_other(&steps) {
        None => Ok(steps),
        Some(row) => Err(Fault::BadScript { row, column: 1 }),
    }
}

// The entries of a trace's file.
fn load_trace<F: Files>(alloc: Global, name: &str, files: &F) -> Result<Vec<Entry>, Fault>
    ensures trace { IfOk result (λ entries. IsTraceIn (F.held files.now) name.now entries.items) }
{
    let reader = files.open(name)?;
    let entries = read_trace(alloc, reader)?;
    Ok(entries)
}

/// The names of a table's file, if one is named.
pub fn load_names<F: Files>(
    alloc: Global,
    named: Option<&str>,
    files: &F,
) -> Result<Option<Names>, Fault>
    ensures { IfOk result (AreNamesIn (F.held files.now) named.entry) }
{
    let Some(name) = named else {
        return Ok(None);
    };
    let reader = files.open(name)?;
    match Names::read(alloc, reader) {
        Ok(names) => Ok(Some(names)),
        Err(ReportError::Row { row, column }) => Err(Fault::BadNames { row, column }),
        Err(error) => Err(Fault::Report(error)),
    }
}

/// The image of a trace, and then the trace's entries.
pub fn load_traced<F: Files>(
    alloc: Global,
    traced: Traced<'_>,
    files: &F,
) -> Result<(Image, Vec<Entry>), Fault>
    ensures image { IfOk result (λ it. IsOfSource (F.held files.now) traced.entry.image it.0) }
    ensures trace { IfOk result (λ it. IsTraceIn (F.held files.now) traced.entry.trace.now it.1.items) }
    ensures order { IfErr result (λ fault. IsEarly fault ⊎ IsThere (F.held files.now) traced.entry.image) }
{
    let image = load_image(alloc, traced.image, files)?;
    let entries = load_trace(alloc, traced.trace, files)?;
    Ok((image, entries))
}

/// Makes the text of these entries the whole content of the named file, if one is named.
pub fn save_trace<F: Files>(
    alloc: Global,
    entries: &[Entry],
    name: Option<&str>,
    files: &mut F,
) -> Result<(), Fault>
    ensures saved { IfOk result (λ _. SavesAnyTrace (F.held files.new) name.entry entries.now) }
    ensures alone { SavesAlone (option_map (λ name. name.now) name.entry) (F.held files.old) (F.held files.new) result }
{
    let Some(name) = name else {
        return Ok(());
    };
    let mut text = Vec::new(alloc);
    write_trace(alloc, entries, &mut text)?;
    files.save(name, &text)?;
    Ok(())
}

/// Makes the text of the script that leads to these entries the whole content of the named file, if one is named.
pub fn save_script<F: Files>(
    alloc: Global,
    entries: &[Entry],
    name: Option<&str>,
    files: &mut F,
) -> Result<(), Fault>
    ensures saved { IfOk result (λ _. SavesAnyScript (F.held files.new) name.entry entries.now) }
    ensures alone { SavesAlone (option_map (λ name. name.now) name.entry) (F.held files.old) (F.held files.new) result }
{
    let Some(name) = name else {
        return Ok(());
    };
    let steps = script_of(alloc, entries)?;
    let mut text = Vec::new(alloc);
    write_script(alloc, &steps, &mut text)?;
    files.save(name, &text)?;
    Ok(())
}
