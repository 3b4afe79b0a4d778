// The row of an entry, as a trace has it, straight into a text: a writer of `csv` for each row would cost many times it.

ghost use Rattle.std.specs.Prelude.{◌≡◌, ◌++◌, ◌∷◌, OnOk, decimal, map};
ghost use Rattle.svc_text.specs.Parts.{part_text};
ghost use Rattle.svc_report.specs.Fields.{address_text, optional, unit_text};
ghost use Rattle.svc_report.specs.Lines.{line};
ghost use Rattle.svc_report.specs.Trace.{row_of};
ghost use Rattle.svc_sheet.specs.Row.{after_comma};

use std::alloc::AllocError;
use svc_base::{UnitId, WordAddr};
use svc_history_laws::Entry;
use svc_report::Word;
use svc_text::{Part, put_parts};

// A word that may not apply.
fn word_of<W: Word>(value: Option<W>) -> Part<'static>
    ensures { part_text result ≡ optional W.word value }
{
    match value {
        Some(value) => Part::Text(value.text()),
        None => Part::Text(""),
    }
}

// A number that may not apply.
fn number_of(value: Option<u32>) -> Part<'static>
    ensures { part_text result ≡ optional decimal value }
{
    match value {
        Some(value) => Part::Number(value as u64),
        None => Part::Text(""),
    }
}

// A small number that may not apply.
fn small_of(value: Option<u8>) -> Part<'static>
    ensures { part_text result ≡ optional decimal value }
{
    match value {
        Some(value) => Part::Number(value as u64),
        None => Part::Text(""),
    }
}

// The number of a word that may not apply.
fn address_of(value: Option<WordAddr>) -> Part<'static>
    ensures { part_text result ≡ optional address_text value }
{
    match value {
        Some(word) => Part::Number(word.0 as u64),
        None => Part::Text(""),
    }
}

// The number of a unit that may not apply.
fn unit_of(value: Option<UnitId>) -> Part<'static>
    ensures { part_text result ≡ optional unit_text value }
{
    match value {
        Some(unit) => Part::Number(unit.0 as u64),
        None => Part::Text(""),
    }
}

// Adds a field after a comma.
fn put_after_comma(text: &mut Vec<u8>, field: Part<'_>) -> Result<(), AllocError>
    ensures { OnOk result (text.new.items ≡ text.old.items ++ after_comma field.entry) }
{
    put_parts(text, &[Part::Text(","), field])
}

// Adds a line of a field and others, with commas between them.
fn put_line(text: &mut Vec<u8>, first: &str, others: &[Part<'_>]) -> Result<(), AllocError>
    ensures { OnOk result (text.new.items
        ≡ text.old.items ++ line (first.now ∷ map part_text others.now)) }
{
    put_parts(text, &[Part::Text(first)])?;
    for field in others {
        put_after_comma(text, *field)?;
    }
    put_parts(text, &[Part::Text("\n")])?;
    Ok(())
}

/// Adds the row of an entry.
#[tactic(auto, unfolding(svc_report::specs::Trace::columns))]
pub(crate) fn put_row(text: &mut Vec<u8>, entry: &Entry) -> Result<(), AllocError>
    ensures { OnOk result (text.new.items ≡ text.old.items ++ row_of entry.now) }
{
    let others = [
        Part::Number(entry.unit.0 as u64),
        number_of(entry.arg),
        small_of(entry.local),
        word_of(entry.ask),
        Part::Text(entry.reply.text()),
        address_of(entry.addr),
        number_of(entry.word),
        word_of(entry.served),
        unit_of(entry.from),
        word_of(entry.cause),
        number_of(entry.first),
        number_of(entry.squashed),
    ];
    put_line(text, entry.kind.text(), &others)
}
