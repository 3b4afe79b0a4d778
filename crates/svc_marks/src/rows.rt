// What a picture shows, as rows.

ghost use Rattle.std.specs.Prelude.{◌≡◌, ◌++◌, ◌≤◌, IfErr, IfOk, OnOk, flat_map, length};
ghost use Rattle.svc_base.specs.declared.config.TheConstants.{MAX_EVENTS};
ghost use Rattle.svc_report.specs.Fields.{optional, served_word};
ghost use Rattle.svc_report.specs.Faults.{IsMemoryFault};
ghost use Rattle.svc_marks.specs.Rows.{arrow_fields, bar_fields, bar_row, mark_fields, mark_row, other_place};
ghost use Rattle.svc_marks.specs.Rows.{row_of_kind, rows_of, shape_row, task_number, word_number};

use crate::bars::Bar;
use crate::marks::{Mark, MarkKind, Spot};
use crate::view::{View, things_of};
use std::alloc::{AllocError, Global};
use svc_base::WordAddr;
use svc_history_laws::{Entry, ServedKind};
use svc_report::{ReportError, Word};
use svc_task_runs::TaskRun;
use svc_text::{Part, put_parts};

// Adds the row of a task, with its fate.
#[tactic(auto, unfolding(crate::specs::Rows::bar_fields))]
fn put_bar(
    text: &mut Vec<u8>,
    task: u64,
    unit: u64,
    entry: u64,
    first: u64,
    last: Option<u64>,
    fate: &str,
) -> Result<(), AllocError>
    ensures { OnOk result (text.new.items
        ≡ text.old.items ++ bar_fields task unit entry first last fate.now) }
{
    put_parts(
        text,
        &[
            Part::Text("bar,"),
            Part::Number(task),
            Part::Text(","),
            Part::Number(unit),
            Part::Text(","),
            Part::Number(entry),
            Part::Text(","),
            Part::Number(first),
            Part::Text(","),
            Part::Maybe(last),
            Part::Text(","),
            Part::Text(fate),
            Part::Text("\n"),
        ],
    )
}

// Adds the row of a bar.
fn put_bar_row(text: &mut Vec<u8>, bar: &Bar) -> Result<(), AllocError>
    ensures { OnOk result (text.new.items ≡ text.old.items ++ bar_row bar.now) }
{
    let task = &bar.task;
    let unit = u64::from(task.unit.0);
    let entry = u64::from(task.entry);
    let fate = task.fate.word();
    put_bar(text, task.number, unit, entry, task.first, task.last, fate)
}

// The number of a task, if there is one.
fn task_number(task: Option<TaskRun>) -> Option<u64>
    ensures { result ≡ task_number task }
{
    match task {
        Some(task) => Some(task.number),
        None => None,
    }
}

// The number of a word, if there is one.
fn word_number(word: Option<WordAddr>) -> Option<u64>
    ensures { result ≡ word_number word }
{
    match word {
        Some(word) => Some(u64::from(word.0)),
        None => None,
    }
}

// A value, if there is one.
fn value(word: Option<u32>) -> Option<u64>
    ensures { result ≡ word }
{
    match word {
        Some(word) => Some(u64::from(word)),
        None => None,
    }
}

// Where an arrow's other end stands, if that is known.
fn other_place(other: Option<Spot>) -> Option<u64>
    ensures { result ≡ other_place other }
{
    match other {
        Some(spot) => spot.place,
        None => None,
    }
}

// The word for a supplier, if there is one.
fn supplier(served: Option<ServedKind>) -> &'static str
    ensures { result.now ≡ optional served_word served }
{
    match served {
        Some(served) => served.text(),
        None => "",
    }
}

// Adds the row of a mark with these fields.
#[tactic(auto, unfolding(crate::specs::Rows::mark_fields))]
fn put_mark<'a>(
    text: &mut Vec<u8>,
    entry: u64,
    unit: u64,
    task: Option<u64>,
    kind: &'a str,
    word: Option<u64>,
    value: Option<u64>,
    by: &'a str,
) -> Result<(), AllocError>
    ensures { OnOk result (text.new.items
        ≡ text.old.items ++ mark_fields entry unit task kind.now word value by.now) }
{
    put_parts(
        text,
        &[
            Part::Text("mark,"),
            Part::Number(entry),
            Part::Text(","),
            Part::Number(unit),
            Part::Text(","),
            Part::Maybe(task),
            Part::Text(","),
            Part::Text(kind),
            Part::Text(","),
            Part::Maybe(word),
            Part::Text(","),
            Part::Maybe(value),
            Part::Text(","),
            Part::Text(by),
            Part::Text("\n"),
        ],
    )
}

// Adds the row of a mark that is a shape, of this kind.
#[tactic(auto, unfolding(crate::specs::Rows::shape_row))]
fn put_shape(text: &mut Vec<u8>, mark: &Mark, kind: &str) -> Result<(), AllocError>
    ensures { OnOk result (text.new.items ≡ text.old.items ++ shape_row mark.now kind.now) }
{
    let unit = u64::from(mark.entry.unit.0);
    let task = task_number(mark.task);
    let word = word_number(mark.entry.addr);
    let value = value(mark.entry.word);
    let by = supplier(mark.entry.served);
    put_mark(text, mark.place, unit, task, kind, word, value, by)
}

// Adds the row of an arrow.
#[tactic(auto, unfolding(crate::specs::Rows::arrow_fields))]
fn put_arrow(
    text: &mut Vec<u8>,
    from: Option<u64>,
    to: Option<u64>,
    kind: &str,
    word: Option<u64>,
) -> Result<(), AllocError>
    ensures { OnOk result (text.new.items ≡ text.old.items ++ arrow_fields from to kind.now word) }
{
    put_parts(
        text,
        &[
            Part::Text("arrow,"),
            Part::Maybe(from),
            Part::Text(","),
            Part::Maybe(to),
            Part::Text(","),
            Part::Text(kind),
            Part::Text(","),
            Part::Maybe(word),
            Part::Text("\n"),
        ],
    )
}

// Adds the row of a mark.
fn put_mark_row(text: &mut Vec<u8>, mark: &Mark) -> Result<(), AllocError>
    ensures { OnOk result (text.new.items ≡ text.old.items ++ mark_row mark.now) }
{
    let here = Some(mark.place);
    let there = other_place(mark.other);
    let word = word_number(mark.entry.addr);
    match mark.kind {
        MarkKind::Load => put_shape(text, mark, "load"),
        MarkKind::Store => put_shape(text, mark, "store"),
        MarkKind::PutOut => put_shape(text, mark, "output"),
        MarkKind::Replace => put_shape(text, mark, "replace"),
        MarkKind::Commit => put_shape(text, mark, "commit"),
        MarkKind::Handed => put_arrow(text, there, here, "version", word),
        MarkKind::Squash => put_arrow(text, here, there, "violation", word),
    }
}

// Adds the rows of bars.
fn put_bars(text: &mut Vec<u8>, bars: &[Bar]) -> Result<(), AllocError>
    ensures { OnOk result (text.new.items ≡ text.old.items ++ flat_map bar_row bars.now) }
{
    for bar in bars {
        put_bar_row(text, bar)?;
    }
    Ok(())
}

// Adds the rows of marks.
fn put_marks(text: &mut Vec<u8>, marks: &[Mark]) -> Result<(), AllocError>
    ensures { OnOk result (text.new.items ≡ text.old.items ++ flat_map mark_row marks.now) }
{
    for mark in marks {
        put_mark_row(text, mark)?;
    }
    Ok(())
}

/// What a picture of a history shows: a row for each bar, and one for each mark.
///
/// Errors: [`ReportError::Memory`].
#[tactic(auto, unfolding(crate::specs::Rows::rows_of))]
pub fn picture_rows(alloc: Global, entries: &[Entry], view: &View) -> Result<Vec<u8>, ReportError>
    requires few { length entries.now ≤ MAX_EVENTS }
    ensures ok { IfOk result (λ text. text.items ≡ rows_of entries.now view.now) }
    ensures err { IfErr result IsMemoryFault }
{
    let things = things_of(alloc, entries, view)?;
    let mut text = Vec::new(alloc);
    put_bars(&mut text, &things.bars)?;
    put_marks(&mut text, &things.marks)?;
    Ok(text)
}
