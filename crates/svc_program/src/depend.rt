//! `depend`: what the tasks of an image need of one another.

ghost use Rattle.std.specs.Prelude.{◌≡◌, ◌≤◌, Some, None, IfOk, IfErr};
ghost use Rattle.svc_request.specs.declared.request.NeedsTable.TheVariants as table;
ghost use Rattle.svc_request.specs.declared.request.Request.TheVariants as request;
ghost use Rattle.svc_answer.specs.Needs.{IsNamed, IsTold, TellsNeeds, needs_rows};
ghost use Rattle.svc_answer.specs.Requests.{IsAnswered, IsQuiet};

use std::alloc::Global;
use std::io::Write;
use svc_answer::load::{load_image, load_names};
use svc_answer::output::{flush, write_named};
use svc_answer::summary::exit_status;
use svc_core::Ending;
use svc_depend::{
    MAX_TASKS, PairForm, find_needs, write_pairs, write_task_needs, write_totals, write_word_needs,
};
use svc_image::Image;
use svc_names::{Column, Names, Rows};
use svc_request::{Depended, Fault, Files, NeedsTable};

/// Runs tasks in order, on one flat memory, and prints what they need of one another, in total or by a table.
pub fn depend<F: Files, O: Write>(
    alloc: Global,
    depended: Depended<'_>,
    files: &F,
    out: &mut O,
) -> Result<u8, Fault>
    ensures { IsAnswered O.contents (request.Depend depended.entry)
        (F.held files.now) (F.held files.now) out.old out.new result }
{
    let image = load_image(alloc, depended.image, files)?;
    let names = load_names(alloc, depended.names, files)?;
    tell_needs(alloc, &image, depended, names.as_ref(), out)
}

// Follows the tasks of an image, and prints what they need.
fn tell_needs<O: Write>(
    alloc: Global,
    image: &Image,
    depended: Depended<'_>,
    names: Option<&Names>,
    out: &mut O,
) -> Result<u8, Fault>
    ensures told { IfOk result (TellsNeeds depended.entry.by names.entry image.now depended.entry.most
        (O.contents out.old)
        (O.contents out.new)) }
    ensures silent { IfErr result (IsQuiet out.old out.new) }
{
    let ending = name_needs(alloc, image, depended, names, out)?;
    flush(out)?;
    Ok(exit_status(ending))
}

// The rows of what is asked for, and where they have an address. A graph has none.
fn needs_rows(by: Option<NeedsTable>) -> Option<Rows>
    ensures { result ≡ needs_rows by }
{
    match by {
        None => Some(Rows::Counts),
        Some(NeedsTable::Tasks) => Some(Rows::Table(Some(Column::Text(1)))),
        Some(NeedsTable::Words) => Some(Rows::Table(Some(Column::Word(0)))),
        Some(NeedsTable::Pairs) => Some(Rows::Table(None)),
        Some(NeedsTable::Graph) => None,
    }
}

// Writes what the tasks need with the names that are given, and tells how they ended.
fn name_needs<O: Write>(
    alloc: Global,
    image: &Image,
    depended: Depended<'_>,
    names: Option<&Names>,
    out: &mut O,
) -> Result<Ending, Fault>
    ensures named { IfOk result (IsNamed depended.entry.by names.entry image.now depended.entry.most
        (O.contents out.old) (O.contents out.new)) }
    ensures silent { IfErr result (IsQuiet out.old out.new) }
{
    match (names, needs_rows(depended.by)) {
        (Some(given), Some(rows)) => {
            let mut text = Vec::new(alloc);
            let ending = write_needs(alloc, image, depended, names, &mut text)?;
            write_named(alloc, given, rows, &text, out)?;
            Ok(ending)
        }
        _ => write_needs(alloc, image, depended, names, out),
    }
}

// Writes what the tasks need in all, or the table that is asked for, and tells how they ended.
fn write_needs<O: Write>(
    alloc: Global,
    image: &Image,
    depended: Depended<'_>,
    names: Option<&Names>,
    out: &mut O,
) -> Result<Ending, Fault>
    ensures told { IfOk result (IsTold depended.entry.by names.entry image.now depended.entry.most (O.contents out.old)
        (O.contents out.new)) }
    ensures silent { IfErr result (IsQuiet out.old out.new) }
{
    let most = u64::from(depended.most);
    match depended.by {
        None => write_all(alloc, image, most, out),
        Some(NeedsTable::Tasks) => write_by_task(alloc, image, most, out),
        Some(NeedsTable::Words) => write_by_word(alloc, image, most, out),
        Some(NeedsTable::Pairs) => Ok(write_pairs(alloc, image, most, PairForm::Rows, out)?),
        Some(NeedsTable::Graph) => Ok(write_pairs(
            alloc,
            image,
            most,
            PairForm::Graph(names),
            out,
        )?),
    }
}

// In all.
fn write_all<O: Write>(
    alloc: Global,
    image: &Image,
    most: u64,
    out: &mut O,
) -> Result<Ending, Fault>
    requires { most ≤ MAX_TASKS }
    ensures told { IfOk result (IsTold None None image.now most (O.contents out.old) (O.contents out.new)) }
    ensures silent { IfErr result (IsQuiet out.old out.new) }
{
    let needs = find_needs(alloc, image, most)?;
    let tasks = needs.tasks.len() as u64;
    write_totals(alloc, tasks, needs.ending, &needs.totals, out)?;
    Ok(needs.ending)
}

// Task by task.
fn write_by_task<O: Write>(
    alloc: Global,
    image: &Image,
    most: u64,
    out: &mut O,
) -> Result<Ending, Fault>
    requires { most ≤ MAX_TASKS }
    ensures told { IfOk result (IsTold (Some table.Tasks) None image.now most (O.contents out.old)
        (O.contents out.new)) }
    ensures silent { IfErr result (IsQuiet out.old out.new) }
{
    let needs = find_needs(alloc, image, most)?;
    write_task_needs(alloc, &needs.tasks, out)?;
    Ok(needs.ending)
}

// Word by word.
fn write_by_word<O: Write>(
    alloc: Global,
    image: &Image,
    most: u64,
    out: &mut O,
) -> Result<Ending, Fault>
    requires { most ≤ MAX_TASKS }
    ensures told { IfOk result (IsTold (Some table.Words) None image.now most (O.contents out.old)
        (O.contents out.new)) }
    ensures silent { IfErr result (IsQuiet out.old out.new) }
{
    let needs = find_needs(alloc, image, most)?;
    write_word_needs(alloc, &needs.words, out)?;
    Ok(needs.ending)
}
