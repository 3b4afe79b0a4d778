//! What is told of a faulty entry of a trace.

ghost use Rattle.std.specs.Prelude.{◌≡◌, ◌++◌, [], IfOk, OnOk};
ghost use Rattle.svc_report.specs.Trace.{row_of, text_of};
ghost use Rattle.svc_reasons.specs.Reasons.{IsReason, TellsDifference, TellsRows, difference_line, missing_line};
ghost use Rattle.svc_reasons.specs.Reasons.{other_line, refusal_line, row_start, sound_line};

use crate::differing::{bare, first_other};
use crate::told::{an_event, missing_column, put_replace_first, refusal_words};
use std::alloc::{AllocError, Global};
use svc_base::Refusal;
use svc_history_laws::Entry;
use svc_names::field;
use svc_report::{ReportError, write_entry, write_trace};
use svc_script::Answer;
use svc_text::{Part, Piece, put, put_parts};

/// What is told of the entry in a row of a trace, by what the machine answers there to the event that it names. The row
/// is counted from 1 with the header.
///
/// Errors: [`ReportError::Memory`]. A vector refuses what is written to it for want of memory alone.
pub fn reason(
    alloc: Global,
    row: u64,
    entry: &Entry,
    answer: Option<Answer>,
) -> Result<Vec<u8>, ReportError>
    ensures { IfOk result (λ text. IsReason row entry.now answer text.items) }
{
    match answer {
        None => missing(alloc, row, entry),
        Some(Answer::Accepted(found)) => differing(alloc, row, entry, &found),
        Some(Answer::Refused(why)) => refused(alloc, row, why),
        Some(Answer::Taken { local: _, ask: _ }) => Ok(Vec::new(alloc)),
        Some(Answer::Nothing) => Ok(Vec::new(alloc)),
    }
}

// Adds the beginning of a line about a row.
fn put_start(text: &mut Vec<u8>, row: u64) -> Result<(), AllocError>
    ensures { OnOk result (text.new.items ≡ text.old.items ++ row_start row) }
{
    put_parts(
        text,
        &[
            Part::Text("svcsim: row "),
            Part::Number(row),
            Part::Text(": "),
        ],
    )
}

// The line about a number that is missing.
fn missing(alloc: Global, row: u64, entry: &Entry) -> Result<Vec<u8>, ReportError>
    ensures { IfOk result (λ text. text.items ≡ missing_line row entry.now) }
{
    let mut text = Vec::new(alloc);
    put_start(&mut text, row)?;
    put!(&mut text; missing_column(entry), " is empty, and ", an_event(entry.kind), " needs it\n");
    Ok(text)
}

// The line about a refusal.
fn refused(alloc: Global, row: u64, why: Refusal) -> Result<Vec<u8>, ReportError>
    ensures { IfOk result (λ text. text.items ≡ refusal_line row why) }
{
    let mut text = Vec::new(alloc);
    put_start(&mut text, row)?;
    put!(&mut text; "refusal ", why.number(), ": ", refusal_words(why));
    put_replace_first(&mut text, why)?;
    "\n".put(&mut text)?;
    Ok(text)
}

// The lines about an entry where the machine has another one.
fn differing(alloc: Global, row: u64, entry: &Entry, found: &Entry) -> Result<Vec<u8>, ReportError>
    ensures { IfOk result (λ text. TellsDifference row entry.now found.now text.items) }
{
    let names = names_of(alloc)?;
    let mine = row_of(alloc, entry)?;
    let theirs = row_of(alloc, found)?;
    let text = compared(alloc, row, &names, &mine, &theirs)?;
    Ok(text)
}

// The lines about two rows.
fn compared(
    alloc: Global,
    row: u64,
    names: &[u8],
    mine: &[u8],
    theirs: &[u8],
) -> Result<Vec<u8>, AllocError>
    ensures { IfOk result (λ text. TellsRows row names.now mine.now theirs.now text.items) }
{
    let place = first_other(bare(mine), bare(theirs));
    let mut text = Vec::new(alloc);
    put_difference(&mut text, row, bare(names), bare(mine), bare(theirs), place)?;
    put_sound(&mut text, theirs)?;
    Ok(text)
}

// Adds the whole row that a sound trace has there.
fn put_sound(text: &mut Vec<u8>, theirs: &[u8]) -> Result<(), AllocError>
    ensures { OnOk result (text.new.items ≡ text.old.items ++ sound_line theirs.now) }
{
    put!(text; "svcsim: a sound trace has there: ", theirs);
    Ok(())
}

// The names of the columns, as a trace has them.
fn names_of(alloc: Global) -> Result<Vec<u8>, ReportError>
    ensures { IfOk result (λ names. names.items ≡ text_of []) }
{
    let mut names = Vec::new(alloc);
    match write_trace(alloc, &[], &mut names) {
        Ok(()) => Ok(names),
        Err(_) => Err(ReportError::Memory),
    }
}

// The row of an entry.
fn row_of(alloc: Global, entry: &Entry) -> Result<Vec<u8>, ReportError>
    ensures { IfOk result (λ row. row.items ≡ row_of entry.now) }
{
    let mut row = Vec::new(alloc);
    match write_entry(alloc, entry, &mut row) {
        Ok(()) => Ok(row),
        Err(_) => Err(ReportError::Memory),
    }
}

// Adds the line about the column of a place, if two rows differ at one.
fn put_difference(
    text: &mut Vec<u8>,
    row: u64,
    names: &[u8],
    mine: &[u8],
    theirs: &[u8],
    place: Option<usize>,
) -> Result<(), AllocError>
    ensures { OnOk result (text.new.items
        ≡ text.old.items ++ difference_line row names.now mine.now theirs.now place) }
{
    match place {
        Some(place) => put_other(
            text,
            row,
            field(names, place),
            field(mine, place),
            field(theirs, place),
        ),
        None => Ok(()),
    }
}

// Adds the line about a column.
#[tactic(auto, unfolding(crate::specs::Reasons::other_line))]
fn put_other(
    text: &mut Vec<u8>,
    row: u64,
    column: &[u8],
    mine: &[u8],
    theirs: &[u8],
) -> Result<(), AllocError>
    ensures { OnOk result (text.new.items ≡ text.old.items ++ other_line row column.now mine.now theirs.now) }
{
    put_start(text, row)?;
    put!(text; column, " is \"", mine, "\", and the machine has \"", theirs, "\"\n");
    Ok(())
}
