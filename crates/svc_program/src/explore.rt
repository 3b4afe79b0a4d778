//! `explore`: all schedules of an image.

ghost use Rattle.std.specs.Prelude.{◌≡◌, IfOk, IfErr, cond};
ghost use Rattle.svc_request.specs.declared.request.Request.TheVariants as request;
ghost use Rattle.svc_answer.specs.Explored.{IsExplorationOf, TellsSchedules};
ghost use Rattle.svc_answer.specs.Requests.{IsAnswered, IsQuiet};

use std::alloc::{AllocError, Global};
use std::io::Write;
use svc_answer::load::{load_image, load_names};
use svc_answer::output::print_rows;
use svc_explore::{Exploration, put_exploration};
use svc_image::Image;
use svc_names::{Names, Rows};
use svc_request::{Explored, Fault, Files};

/// Follows all schedules of an image, and prints what can be seen, with the names of the table that is named.
pub fn explore<F: Files, O: Write>(
    alloc: Global,
    explored: Explored<'_>,
    files: &F,
    out: &mut O,
) -> Result<u8, Fault>
    ensures { IsAnswered O.contents (request.Explore explored.entry)
        (F.held files.now) (F.held files.now) out.old out.new result }
{
    let image = load_image(alloc, explored.image, files)?;
    let names = load_names(alloc, explored.names, files)?;
    tell_schedules(alloc, &image, explored, names.as_ref(), out)
}

/// Follows all schedules of an image.
///
/// Errors: [`AllocError`], if memory runs out.
pub fn all_schedules(
    alloc: Global,
    image: &Image,
    explored: Explored<'_>,
) -> Result<Exploration, AllocError>
    ensures { IfOk result (IsExplorationOf image.now explored.entry.config explored.entry.burst explored.entry.states) }
{
    let limit = explored.states;
    let exploration = svc_explore::explore(alloc, image, explored.config, explored.burst, limit)?;
    Ok(exploration)
}

// Follows all schedules of an image, and prints what was found.
fn tell_schedules<O: Write>(
    alloc: Global,
    image: &Image,
    explored: Explored<'_>,
    names: Option<&Names>,
    out: &mut O,
) -> Result<u8, Fault>
    ensures told { IfOk result (TellsSchedules names.entry image.now explored.entry.config explored.entry.burst
        explored.entry.states (O.contents out.old) (O.contents out.new)) }
    ensures silent { IfErr result (IsQuiet out.old out.new) }
{
    let exploration = all_schedules(alloc, image, explored)?;
    let mut text = Vec::new(alloc);
    put_exploration(&mut text, &exploration)?;
    print_rows(alloc, names, Rows::Seen, &text, out)?;
    Ok(whole_status(exploration.whole))
}

// The exit status of an exploration: 0 if it met no limit.
fn whole_status(whole: bool) -> u8
    ensures { result ≡ cond whole 0 2 }
{
    if whole { 0 } else { 2 }
}
