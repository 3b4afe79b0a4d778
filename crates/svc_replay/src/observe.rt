//! `explore --of`: what a trace shows.

ghost use Rattle.std.specs.Prelude.{◌≡◌, ◌⊎◌, IfOk, IfErr, OnOk, flat_map};
ghost use Rattle.std.specs.Io.KnownBytes.{Appends};
ghost use Rattle.svc_names.specs.Given.{listed, told_with};
ghost use Rattle.svc_names.specs.declared.rows.Rows.TheVariants as rows;
ghost use Rattle.svc_observations.specs.Rows.{row_of_sighting};
ghost use Rattle.svc_report.specs.Faults.{IsWriteFault};
ghost use Rattle.svc_request.specs.declared.request.Request.TheVariants as request;
ghost use Rattle.svc_request.specs.Faults.{IsReportFault, TellsOfTrace};
ghost use Rattle.svc_answer.specs.Observed.{TellsSightings};
ghost use Rattle.svc_answer.specs.Requests.{IsAnswered};

use std::alloc::Global;
use std::io::Write;
use svc_answer::load::{load_names, load_traced};
use svc_answer::output::print_rows;
use svc_base::Config;
use svc_history::Entry;
use svc_image::Image;
use svc_names::{Names, Rows};
use svc_observations::{Sighting, put_sightings, sightings};
use svc_report::ReportError;
use svc_request::{Fault, Files, Traced};

/// Replays a trace, and prints each observation that it shows, with the number of the first entry that does, and with
/// the names of the table that is named.
pub fn observe<F: Files, O: Write>(
    alloc: Global,
    traced: Traced<'_>,
    named: Option<&str>,
    files: &F,
    out: &mut O,
) -> Result<u8, Fault>
    ensures { IsAnswered O.contents (request.Observe traced.entry named.entry)
        (F.held files.now) (F.held files.now) out.old out.new result }
{
    let (image, entries) = load_traced(alloc, traced, files)?;
    let names = load_names(alloc, named, files)?;
    observe_entries(alloc, image, traced.config, &entries, names.as_ref(), out)
}

// Replays the entries, and prints what they show.
fn observe_entries<O: Write>(
    alloc: Global,
    image: Image,
    config: Config,
    entries: &[Entry],
    names: Option<&Names>,
    out: &mut O,
) -> Result<u8, Fault>
    ensures told { IfOk result (TellsSightings names.entry image config entries.now (O.contents out.old)
        (O.contents out.new)) }
    ensures fault { IfErr result (λ fault. IsReportFault fault
        ⊎ (TellsOfTrace image config entries.now fault × (out.new ≡ out.old))) }
{
    let found = sightings(alloc, image, config, entries)?;
    print_sightings(alloc, &found, names, out)?;
    Ok(0)
}

// Prints the rows of what was seen.
fn print_sightings<O: Write>(
    alloc: Global,
    found: &[Sighting],
    names: Option<&Names>,
    out: &mut O,
) -> Result<(), ReportError>
    ensures ok { OnOk result (Appends (O.contents out.old) (O.contents out.new)
        (told_with (listed names.entry) rows.Seen (flat_map row_of_sighting found.now))) }
    ensures err { IfErr result IsWriteFault }
{
    let mut text = Vec::new(alloc);
    put_sightings(&mut text, found)?;
    print_rows(alloc, names, Rows::Seen, &text, out)
}
