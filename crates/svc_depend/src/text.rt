// The texts of what tasks need: together, task by task, and word by word.

ghost use Rattle.std.specs.Prelude.{◌≡◌, ◌++◌, ◌<◌, ℕ, OnOk, IfErr, IfOk, length, unwrap_or};
ghost use Rattle.std.specs.Io.KnownBytes.{Appends};
ghost use Rattle.svc_base.specs.declared.config.TheConstants.{MAX_UNITS};
ghost use Rattle.svc_image.specs.Image.{Image};
ghost use Rattle.svc_report.specs.Faults.{IsWriteFault};
ghost use Rattle.svc_depend_laws.specs.Needs.{units_of};
ghost use Rattle.svc_depend.specs.Tables.{named_row, task_row, task_table, told_of_task, totals_rows, totals_text};
ghost use Rattle.svc_depend.specs.Tables.{word_row_of, word_table};
ghost use Rattle.svc_depend.specs.Told.{AreWords};
ghost use Rattle.svc_depend.specs.WordRows.{kept_table};

use crate::needs::{TaskNeeds, Totals};
use crate::word::Word;
use std::alloc::{AllocError, Global};
use std::io::Write;
use svc_base::config::MAX_UNITS;
use svc_core::Ending;
use svc_report::{ReportError, write_summary};
use svc_text::{put_row, write_text};

// Adds a row of a name and a number.
fn put_named(text: &mut Vec<u8>, name: &str, number: u64) -> Result<(), AllocError>
    ensures { OnOk result (text.new.items ≡ text.old.items ++ named_row name.now number) }
{
    put_row(text, name, &[number])
}

// A distance, or 0 where there is none.
fn distance_told(nearest: Option<u32>) -> u64
    ensures { result ≡ unwrap_or nearest 0 }
{
    match nearest {
        Some(distance) => u64::from(distance),
        None => 0,
    }
}

// As many units as the nearest distance, and at most as many as there may be.
fn units_of(nearest: Option<u32>) -> u64
    ensures { result ≡ units_of MAX_UNITS nearest }
{
    match nearest {
        Some(distance) => u64::from(distance.min(MAX_UNITS)),
        None => u64::from(MAX_UNITS),
    }
}

// The rows of what tasks need together.
fn totals_rows(alloc: Global, totals: &Totals) -> Result<Vec<u8>, AllocError>
    ensures { IfOk result (λ text. text.items ≡ totals_rows totals.now) }
{
    let mut text = Vec::new(alloc);
    put_named(&mut text, "turns", totals.turns)?;
    put_named(&mut text, "needs", totals.needs)?;
    put_named(&mut text, "memory", totals.memory)?;
    put_named(&mut text, "nearest", distance_told(totals.nearest))?;
    put_named(&mut text, "units", units_of(totals.nearest))?;
    put_named(&mut text, "chain", totals.chain)?;
    Ok(text)
}

/// Writes how many tasks there were and how they ended, and what they need together.
///
/// Errors: [`ReportError::Memory`], [`ReportError::Write`].
pub fn write_totals<W: Write>(
    alloc: Global,
    tasks: u64,
    ending: Ending,
    totals: &Totals,
    w: &mut W,
) -> Result<(), ReportError>
    ensures ok { OnOk result (Appends (W.contents w.old) (W.contents w.new) (totals_text tasks ending totals.now)) }
    ensures err { IfErr result IsWriteFault }
{
    let text = totals_rows(alloc, totals)?;
    write_summary(alloc, &[], tasks, ending, None, w)?;
    write_text(&text, w)?;
    Ok(())
}

// What is told of a task after its number.
fn told_of_task(task: &TaskNeeds) -> [u64; 7]
    ensures { result ≡ told_of_task task.now }
{
    [
        u64::from(task.entry),
        task.turns,
        task.needs,
        task.memory,
        distance_told(task.nearest),
        task.stores,
        task.chain,
    ]
}

fn put_task(text: &mut Vec<u8>, task: &TaskNeeds) -> Result<(), AllocError>
    ensures { OnOk result (text.new.items ≡ text.old.items ++ task_row task.now) }
{
    put_row(text, task.task, &told_of_task(task))
}

fn task_table(alloc: Global, tasks: &[TaskNeeds]) -> Result<Vec<u8>, AllocError>
    ensures { IfOk result (λ text. text.items ≡ task_table tasks.now) }
{
    let mut text = Vec::from_slice(
        alloc,
        b"task,entry,turns,needs,memory,nearest,stores,chain\n",
    )?;
    for task in tasks {
        put_task(&mut text, task)?;
    }
    Ok(text)
}

/// Writes the table of tasks: a header, and a row for each with what it needs.
///
/// Errors: [`ReportError::Memory`], [`ReportError::Write`].
pub fn write_task_needs<W: Write>(
    alloc: Global,
    tasks: &[TaskNeeds],
    w: &mut W,
) -> Result<(), ReportError>
    ensures ok { OnOk result (Appends (W.contents w.old) (W.contents w.new) (task_table tasks.now)) }
    ensures err { IfErr result IsWriteFault }
{
    let text = task_table(alloc, tasks)?;
    write_text(&text, w)?;
    Ok(())
}

// Adds the row of a word, if a task needs or writes it.
fn put_word(text: &mut Vec<u8>, word: u64, kept: &Word) -> Result<(), AllocError>
    ensures { OnOk result (text.new.items ≡ text.old.items
        ++ word_row_of word kept.now.readers kept.now.writers (unwrap_or kept.now.nearest 0)) }
{
    if kept.readers > 0 || kept.writers > 0 {
        let told = [kept.readers, kept.writers, distance_told(kept.nearest)];
        put_row(text, word, &told)
    } else {
        Ok(())
    }
}

fn word_table(alloc: Global, words: &[Word]) -> Result<Vec<u8>, AllocError>
    ensures { IfOk result (λ text. text.items ≡ kept_table words.now) }
{
    let mut text = Vec::from_slice(alloc, b"word,readers,writers,nearest\n")?;
    for word in 0..words.len() {
        put_word(&mut text, word as u64, &words[word])?;
    }
    Ok(text)
}

/// Writes the table of words: a header, and a row for each word that tasks need or write, with how many of them do, and
/// how near one that needs it is to the one from which it comes.
///
/// Errors: [`ReportError::Memory`], [`ReportError::Write`].
pub fn write_word_needs<W: Write>(
    alloc: Global,
    words: &[Word],
    w: &mut W,
) -> Result<(), ReportError>
    ensures ok { OnOk result ((img : Image) → (tasks : ℕ) → AreWords img tasks words.now
        → Appends (W.contents w.old) (W.contents w.new) (word_table img tasks)) }
    ensures err { IfErr result IsWriteFault }
{
    let text = word_table(alloc, words)?;
    write_text(&text, w)?;
    Ok(())
}
