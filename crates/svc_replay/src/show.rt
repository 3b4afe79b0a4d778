//! `show`: the machine to which a trace leads.

ghost use Rattle.std.specs.Prelude.{◌≡◌, ◌⊎◌, IfOk, IfErr};
ghost use Rattle.svc_request.specs.declared.request.Request.TheVariants as request;
ghost use Rattle.svc_request.specs.Faults.{IsReportFault, TellsOfTrace};
ghost use Rattle.svc_show.specs.Show.{show_of};
ghost use Rattle.svc_answer.specs.Fronts.{IsPastTheEnd, IsSoundFront, front};
ghost use Rattle.svc_answer.specs.Requests.{IsAnswered};
ghost use Rattle.svc_answer.specs.Shown.{TellsMachine};

use crate::fronts::replay_first;
use std::alloc::Global;
use std::io::Write;
use svc_answer::load::{load_names, load_traced};
use svc_answer::output::print_rows;
use svc_base::Config;
use svc_history::Entry;
use svc_image::Image;
use svc_names::{Names, Rows};
use svc_request::{Fault, Files, Shown, Traced};
use svc_show::{Extras, show_text};

/// Replays a trace, or its first entries, and prints the machine to which they lead, with the names of the table that
/// is named.
pub fn show<F: Files, O: Write>(
    alloc: Global,
    traced: Traced<'_>,
    shown: Shown<'_>,
    files: &F,
    out: &mut O,
) -> Result<u8, Fault>
    ensures { IsAnswered O.contents (request.Show traced.entry shown.entry)
        (F.held files.now) (F.held files.now) out.old out.new result }
{
    let (image, entries) = load_traced(alloc, traced, files)?;
    let names = load_names(alloc, shown.names, files)?;
    show_entries(
        alloc,
        image,
        traced.config,
        &entries,
        shown,
        names.as_ref(),
        out,
    )
}

// Replays the entries that are asked for, and prints the machine to which they lead.
fn show_entries<O: Write>(
    alloc: Global,
    image: Image,
    config: Config,
    entries: &[Entry],
    shown: Shown<'_>,
    names: Option<&Names>,
    out: &mut O,
) -> Result<u8, Fault>
    ensures shown { IfOk result (TellsMachine shown.entry.at shown.entry.extras names.entry image config entries.now
        (O.contents out.old) (O.contents out.new)) }
    ensures fault { let at = shown.entry.at in
        IfErr result (λ fault. IsReportFault fault
        ⊎ ((TellsOfTrace image config (front at entries.now) fault ⊎ IsPastTheEnd at image config entries.now fault)
        × (out.new ≡ out.old))) }
{
    let text = text_at(alloc, image, config, entries, shown.at, shown.extras)?;
    print_rows(alloc, names, Rows::Shown, &text, out)?;
    Ok(0)
}

// The text of the machine to which the first `at` of the entries lead, or all.
fn text_at(
    alloc: Global,
    image: Image,
    config: Config,
    entries: &[Entry],
    at: Option<u64>,
    extras: Extras,
) -> Result<Vec<u8>, Fault>
    ensures text { IfOk result (λ text. text.items ≡ show_of extras image config (front at entries.now)) }
    ensures sound { IfOk result (λ _. IsSoundFront at image config entries.now) }
    ensures fault { IfErr result (λ fault. IsReportFault fault
        ⊎ TellsOfTrace image config (front at entries.now) fault ⊎ IsPastTheEnd at image config entries.now fault) }
{
    let recorder = replay_first(alloc, image, config, entries, at)?;
    let text = show_text(alloc, &recorder, extras)?;
    Ok(text)
}
