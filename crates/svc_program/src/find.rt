//! `explore --find`: a schedule that shows what is looked for.

ghost use Rattle.std.specs.Prelude.{◌≡◌, None, IfOk, IfErr, IfSome, IsFalse, IsTrue, OnOk, cond, is_some, option_map};
ghost use Rattle.std.specs.Io.KnownBytes.{Appends};
ghost use Rattle.svc_names.specs.Given.{listed, told_with};
ghost use Rattle.svc_names.specs.declared.rows.Rows.TheVariants as rows;
ghost use Rattle.svc_explore.specs.Found.{IsShown};
ghost use Rattle.svc_explore.specs.Rows.{finding_text};
ghost use Rattle.svc_request.specs.declared.faults.Fault.TheVariants.{Limit};
ghost use Rattle.svc_request.specs.declared.request.Request.TheVariants as request;
ghost use Rattle.svc_answer.specs.Explored.{FindsSight, HasWitness};
ghost use Rattle.svc_answer.specs.Requests.{IsAnswered, IsLate, IsQuiet, SavesAlone, SavesAnyTrace};

use crate::explore::all_schedules;
use std::alloc::Global;
use std::io::Write;
use svc_answer::load::{load_image, load_names, save_trace};
use svc_answer::output::print_rows;
use svc_explore::{Exploration, Seen, put_finding, witness};
use svc_image::Image;
use svc_names::{Names, Rows};
use svc_observations::Sought;
use svc_request::{Explored, Fault, Files};

/// Follows all schedules of an image, saves the trace of one that shows what is looked for if a file is named for it,
/// and prints what it shows, with the names of the table that is named.
pub fn find<F: Files, O: Write>(
    alloc: Global,
    explored: Explored<'_>,
    sought: Sought,
    trace: Option<&str>,
    files: &mut F,
    out: &mut O,
) -> Result<u8, Fault>
    ensures { IsAnswered O.contents (request.Find explored.entry sought trace.entry)
        (F.held files.old) (F.held files.new) out.old out.new result }
{
    let image = load_image(alloc, explored.image, files)?;
    let names = load_names(alloc, explored.names, files)?;
    look_for(
        alloc,
        &image,
        explored,
        sought,
        trace,
        names.as_ref(),
        files,
        out,
    )
}

// Follows all schedules of an image, saves the trace of one that shows what is looked for, and prints what it shows.
fn look_for<F: Files, O: Write>(
    alloc: Global,
    image: &Image,
    explored: Explored<'_>,
    sought: Sought,
    trace: Option<&str>,
    names: Option<&Names>,
    files: &mut F,
    out: &mut O,
) -> Result<u8, Fault>
    ensures found { IfOk result (FindsSight names.entry image.now explored.entry sought
        (SavesAnyTrace (F.held files.new) trace.entry)
        (O.contents out.old) (O.contents out.new)) }
    ensures silent { IfErr result (IsQuiet out.old out.new) }
    ensures alone { SavesAlone (option_map (λ name. name.now) trace.entry) (F.held files.old)
        (F.held files.new) result }
{
    let exploration = all_schedules(alloc, image, explored)?;
    let seen = svc_explore::find(exploration.found.as_slice(), sought);
    let status = search_status(exploration.whole, seen)?;
    save_witness(alloc, image, explored, seen, trace, files)?;
    print_finding(alloc, &exploration, seen, names, out)?;
    Ok(status)
}

// The exit status of a search: 0 if it has found something, 2 if there is nothing to be found.
fn search_status(whole: bool, seen: Option<&Seen>) -> Result<u8, Fault>
    ensures status { IfOk result (λ exit. exit ≡ cond (is_some seen.entry) 0 2) }
    ensures whole { IfOk result (λ _. seen.entry ≡ None → IsTrue whole) }
    ensures limit { IfErr result (λ fault. (fault ≡ Limit) × (seen.entry ≡ None) × IsFalse whole) }
{
    match seen {
        Some(_) => Ok(0),
        None if whole => Ok(2),
        None => Err(Fault::Limit),
    }
}

// Makes the trace of a schedule that shows what was seen, if anything was, the whole content of the named file, if one
// is named.
fn save_witness<F: Files>(
    alloc: Global,
    image: &Image,
    explored: Explored<'_>,
    seen: Option<&Seen>,
    trace: Option<&str>,
    files: &mut F,
) -> Result<(), Fault>
    requires shown { IfSome seen (λ seen. IsShown image.now explored.config explored.burst seen.now) }
    ensures saved { IfOk result (λ _. IfSome seen.entry (λ seen. HasWitness image.now explored.entry seen.now.what
        (SavesAnyTrace (F.held files.new) trace.entry))) }
    ensures alone { SavesAlone (option_map (λ name. name.now) trace.entry) (F.held files.old)
        (F.held files.new) result }
{
    let Some(seen) = seen else {
        return Ok(());
    };
    let recorder = witness(alloc, image, explored.config, explored.burst, seen)?;
    save_trace(alloc, recorder.entries(), trace, files)
}

// Prints how far an exploration went, and the row of what was seen, if anything was.
fn print_finding<O: Write>(
    alloc: Global,
    exploration: &Exploration,
    seen: Option<&Seen>,
    names: Option<&Names>,
    out: &mut O,
) -> Result<(), Fault>
    ensures told { OnOk result (Appends (O.contents out.old) (O.contents out.new)
        (told_with (listed names.entry) rows.Seen (finding_text exploration.now seen.entry))) }
    ensures silent { IfErr result (IsQuiet out.old out.new) }
    ensures late { IfErr result IsLate }
{
    let mut text = Vec::new(alloc);
    put_finding(&mut text, exploration, seen)?;
    print_rows(alloc, names, Rows::Seen, &text, out)?;
    Ok(())
}
