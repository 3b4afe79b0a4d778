//! `draw`: a picture of a trace.

ghost use Rattle.std.specs.Prelude.{◌≡◌, ◌≤◌, ◌⊎◌, IfOk, IfErr, length};
ghost use Rattle.svc_base.specs.declared.config.TheConstants.{MAX_EVENTS};
ghost use Rattle.svc_request.specs.declared.faults.Fault.TheVariants.{File};
ghost use Rattle.svc_request.specs.declared.request.Request.TheVariants as request;
ghost use Rattle.svc_marks.specs.View.{end_shown};
ghost use Rattle.svc_answer.specs.Drawings.{IsDrawing, IsDrawn, shown_as};
ghost use Rattle.svc_report.specs.Faults.{IsMemoryFault};
ghost use Rattle.svc_answer.specs.Fronts.{front};
ghost use Rattle.svc_answer.specs.Requests.{IsAnswered};
ghost use Rattle.svc_request.specs.Faults.{IsReportFault, TellsOfTrace};

use crate::fronts::first;
use std::alloc::Global;
use std::io::Write;
use svc_answer::load::{load_names, load_traced};
use svc_base::Config;
use svc_history::Entry;
use svc_image::Image;
use svc_instruction_profile::asked_at;
use svc_names::Names;
use svc_report::ReportError;
use svc_request::{Fault, Files, Picture, Traced};

/// Replays a trace up to the last entry that is shown, and saves a picture of it, with the names of the table that is
/// named. Nothing is printed.
pub fn draw<F: Files, O: Write>(
    alloc: Global,
    traced: Traced<'_>,
    picture: Picture<'_>,
    files: &mut F,
    out: &O,
) -> Result<u8, Fault>
    ensures { IsAnswered O.contents (request.Draw traced.entry picture.entry)
        (F.held files.old) (F.held files.new) out.now out.now result }
{
    let _nothing_is_printed = out;
    let (image, entries) = load_traced(alloc, traced, files)?;
    let names = load_names(alloc, picture.names, files)?;
    let text = draw_entries(
        alloc,
        image,
        traced.config,
        &entries,
        picture,
        names.as_ref(),
    )?;
    files.save(picture.file, &text)?;
    Ok(0)
}

// Replays the entries up to the last that the picture may show, and draws it.
//
// Errors: the first fault of these entries; [`Fault::File`] if the trace has fewer entries than precede the picture's
// first; lack of memory.
fn draw_entries(
    alloc: Global,
    image: Image,
    config: Config,
    entries: &[Entry],
    picture: Picture<'_>,
    names: Option<&Names>,
) -> Result<Vec<u8>, Fault>
    ensures drawn { IfOk result (λ _. IsDrawn image config entries.now picture.entry.view) }
    ensures text { IfOk result (λ text.
        IsDrawing picture.entry image config entries.now names.entry text.items) }
    ensures fault { let view = picture.entry.view in
        IfErr result (λ fault. (fault ≡ File) ⊎ IsReportFault fault
        ⊎ TellsOfTrace image config (front (end_shown view.from view.count) entries.now) fault) }
{
    let drawn = first(entries, picture.view.end());
    let asked = asked_at(alloc, image, config, drawn)?;
    if u64::from(picture.view.from) > entries.len() as u64 {
        return Err(Fault::File);
    }
    let text = text_of(alloc, drawn, config, picture, names, &asked)?;
    Ok(text)
}

// What the picture shows of these entries, as rows or drawn.
fn text_of(
    alloc: Global,
    entries: &[Entry],
    config: Config,
    picture: Picture<'_>,
    names: Option<&Names>,
    asked: &[Option<u32>],
) -> Result<Vec<u8>, ReportError>
    requires few { length entries.now ≤ MAX_EVENTS }
    ensures ok { let p = picture.entry in IfOk result (λ text.
        text.items ≡ shown_as p.rows config.units entries.now p.view p.style names.entry asked.entry) }
    ensures err { IfErr result IsMemoryFault }
{
    if picture.rows {
        svc_marks::picture_rows(alloc, entries, &picture.view)
    } else {
        svc_draw::draw(
            alloc,
            entries,
            config.units,
            &picture.view,
            picture.style,
            names,
            asked,
        )
    }
}
