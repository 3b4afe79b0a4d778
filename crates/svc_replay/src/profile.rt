//! `profile`: what the speculation of a trace cost.

ghost use Rattle.std.specs.Prelude.{◌≡◌, ◌⊎◌, ◌≤◌, length, Some, IfOk, IfErr, OnOk};
ghost use Rattle.std.specs.Io.KnownBytes.{Appends};
ghost use Rattle.svc_base.specs.declared.config.TheConstants.{MAX_EVENTS};
ghost use Rattle.svc_report.specs.Faults.{IsWriteFault};
ghost use Rattle.svc_request.specs.declared.request.Request.TheVariants as request;
ghost use Rattle.svc_request.specs.declared.request.Table.TheVariants as table;
ghost use Rattle.svc_instruction_profile.specs.Addresses.{addresses};
ghost use Rattle.svc_names.specs.Given.{listed};
ghost use Rattle.svc_answer.specs.Costs.{TellsCost, cost_rows, cost_text};
ghost use Rattle.svc_answer.specs.Fronts.{IsPastTheEnd, IsSoundFront, front};
ghost use Rattle.svc_answer.specs.Named.{named_text};
ghost use Rattle.svc_answer.specs.Requests.{IsAnswered};
ghost use Rattle.svc_request.specs.Faults.{IsReportFault, TellsOfTrace};

use crate::fronts::{first, replay_first};
use std::alloc::Global;
use std::io::Write;
use svc_answer::load::{load_names, load_traced};
use svc_answer::output::{flush, write_named};
use svc_base::Config;
use svc_history::Entry;
use svc_image::Image;
use svc_instruction_profile::{asked_at, write_instructions};
use svc_names::{Column, Names, Rows};
use svc_profile::{
    write_pairs, write_profile, write_profile_row, write_suppliers, write_tasks, write_units,
    write_words,
};
use svc_report::ReportError;
use svc_request::{Fault, Files, Table, Traced};

/// Replays the first entries of a trace, this many or all, and prints what their speculation cost, in total or by a
/// table, with the names of the table that is named.
pub fn profile<F: Files, O: Write>(
    alloc: Global,
    traced: Traced<'_>,
    to: Option<u64>,
    by: Option<Table<'_>>,
    named: Option<&str>,
    files: &F,
    out: &mut O,
) -> Result<u8, Fault>
    ensures { IsAnswered O.contents (request.Profile traced.entry to by.entry named.entry)
        (F.held files.now) (F.held files.now) out.old out.new result }
{
    let (image, entries) = load_traced(alloc, traced, files)?;
    let names = load_names(alloc, named, files)?;
    profile_entries(
        alloc,
        image,
        traced.config,
        &entries,
        to,
        by,
        names.as_ref(),
        out,
    )
}

// Replays the first entries, this many or all, and prints what their speculation cost.
fn profile_entries<O: Write>(
    alloc: Global,
    image: Image,
    config: Config,
    entries: &[Entry],
    to: Option<u64>,
    by: Option<Table<'_>>,
    names: Option<&Names>,
    out: &mut O,
) -> Result<u8, Fault>
    ensures profile { IfOk result (TellsCost to by.entry names.entry image config entries.now (O.contents out.old)
        (O.contents out.new)) }
    ensures fault { IfErr result (λ fault. IsReportFault fault
        ⊎ ((TellsOfTrace image config (front to entries.now) fault ⊎ IsPastTheEnd to image config entries.now fault)
        × (out.new ≡ out.old))) }
{
    let asked = replay_asked(alloc, image, config, entries, to, by)?;
    tell_cost(alloc, config, first(entries, to), &asked, by, names, out)?;
    flush(out)?;
    Ok(0)
}

// Replays the first entries, this many or all. For a table of instructions it answers the address at which each asks,
// if it does.
fn replay_asked(
    alloc: Global,
    image: Image,
    config: Config,
    entries: &[Entry],
    to: Option<u64>,
    by: Option<Table<'_>>,
) -> Result<Vec<Option<u32>>, Fault>
    ensures asked { IfOk result (λ asked. by.entry ≡ Some table.Instructions
        → asked.items ≡ addresses image config (front to entries.now)) }
    ensures same { IfOk result (λ asked. by.entry ≡ Some table.Instructions
        → length asked.items ≡ length (front to entries.now)) }
    ensures sound { IfOk result (λ _. IsSoundFront to image config entries.now) }
    ensures few { IfOk result (λ _. length (front to entries.now) ≤ MAX_EVENTS) }
    ensures fault { IfErr result (λ fault. TellsOfTrace image config (front to entries.now) fault
        ⊎ IsPastTheEnd to image config entries.now fault) }
{
    if let Some(Table::Instructions) = by {
        return asked_first(alloc, image, config, entries, to);
    }
    replay_first(alloc, image, config, entries, to)?;
    Ok(Vec::new(alloc))
}

// Replays the first entries, this many or all, and answers the address of the instruction at which each asks, if it
// does.
fn asked_first(
    alloc: Global,
    image: Image,
    config: Config,
    entries: &[Entry],
    to: Option<u64>,
) -> Result<Vec<Option<u32>>, Fault>
    ensures asked { IfOk result (λ asked. asked.items ≡ addresses image config (front to entries.now)) }
    ensures same { IfOk result (λ asked. length asked.items ≡ length (front to entries.now)) }
    ensures sound { IfOk result (λ _. IsSoundFront to image config entries.now) }
    ensures few { IfOk result (λ _. length (front to entries.now) ≤ MAX_EVENTS) }
    ensures fault { IfErr result (λ fault. TellsOfTrace image config (front to entries.now) fault
        ⊎ IsPastTheEnd to image config entries.now fault) }
{
    let asked = asked_at(alloc, image, config, first(entries, to))?;
    match to {
        Some(most) if most > entries.len() as u64 => Err(Fault::File),
        _ => Ok(asked),
    }
}

// The rows of a profile, or of the table that is asked for, and where they have an address.
fn cost_rows(by: Option<Table<'_>>) -> Option<Rows>
    ensures { result ≡ cost_rows by.entry }
{
    match by {
        None => Some(Rows::Counts),
        Some(Table::Tasks) => Some(Rows::Table(Some(Column::Text(2)))),
        Some(Table::Units) => Some(Rows::Table(None)),
        Some(Table::Words) => Some(Rows::Table(Some(Column::Word(0)))),
        Some(Table::Pairs | Table::Suppliers) => Some(Rows::Table(Some(Column::Word(2)))),
        Some(Table::Instructions) => Some(Rows::Table(Some(Column::Text(0)))),
        Some(Table::Row(_)) => None,
    }
}

// Writes the profile of the entries, or the table that is asked for, with the names that are given.
fn tell_cost<O: Write>(
    alloc: Global,
    config: Config,
    entries: &[Entry],
    asked: &[Option<u32>],
    by: Option<Table<'_>>,
    names: Option<&Names>,
    out: &mut O,
) -> Result<(), ReportError>
    requires few { length entries.now ≤ MAX_EVENTS }
    requires same { by ≡ Some table.Instructions → length asked.now ≡ length entries.now }
    ensures ok { OnOk result (Appends (O.contents out.old) (O.contents out.new)
        (named_text (listed names.entry) (cost_rows by.entry) (cost_text by.entry asked.now config entries.now))) }
    ensures err { IfErr result IsWriteFault }
{
    match (names, cost_rows(by)) {
        (Some(names), Some(rows)) => {
            let mut text = Vec::new(alloc);
            write_cost(alloc, config, entries, asked, by, &mut text)?;
            write_named(alloc, names, rows, &text, out)
        }
        _ => write_cost(alloc, config, entries, asked, by, out),
    }
}

// Writes the profile of the entries, or the table that is asked for.
fn write_cost<O: Write>(
    alloc: Global,
    config: Config,
    entries: &[Entry],
    asked: &[Option<u32>],
    by: Option<Table<'_>>,
    out: &mut O,
) -> Result<(), ReportError>
    requires few { length entries.now ≤ MAX_EVENTS }
    requires same { by ≡ Some table.Instructions → length asked.now ≡ length entries.now }
    ensures ok { OnOk result (Appends (O.contents out.old) (O.contents out.new)
        (cost_text by.entry asked.now config entries.now)) }
    ensures err { IfErr result IsWriteFault }
{
    match by {
        None => write_profile(alloc, entries, out),
        Some(Table::Tasks) => write_tasks(alloc, entries, out),
        Some(Table::Units) => write_units(alloc, config.units, entries, out),
        Some(Table::Words) => write_words(alloc, entries, out),
        Some(Table::Pairs) => write_pairs(alloc, entries, out),
        Some(Table::Suppliers) => write_suppliers(alloc, entries, out),
        Some(Table::Instructions) => write_instructions(alloc, asked, entries, out),
        Some(Table::Row(row)) => write_profile_row(alloc, row, entries, out),
    }
}
