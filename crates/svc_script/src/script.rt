// Scripts: a text with a row for each step.

ghost use Rattle.std.specs.Prelude.{◌≡◌, List, Some, IfOk, IfErr, IfSome, OnOk, MatchResult};
ghost use Rattle.std.specs.List.{AllByRecursion};
ghost use Rattle.std.specs.Io.KnownBytes.{Appends, append_known};
ghost use Rattle.csv.specs.Records.{fields_of};
ghost use Rattle.svc_report.specs.Faults.{IsStreamFault, IsWriteFault};
ghost use Rattle.svc_report.specs.Records.{IsText};
ghost use Rattle.svc_script.specs.Script.{FirstBadStep, HasStepRow, IsScriptFault, arg_of, kind_with, script_records};
ghost use Rattle.svc_script.specs.Script.{script_text, step_columns, step_row, word_of, word_text};
ghost use Rattle.svc_script.specs.declared.script.Step.{Step};

use csv::ByteRecord;
use itoa::Buffer;
use std::alloc::Global;
use std::io::{Read, Write};
use svc_base::{UnitId, WordAddr};
use svc_report::{
    Pending, ReportError, Row, Word, field, named, number_text, optional_number_of, read_rows,
    unit_of, unit_text,
};

/// What a step of a script asks for.
#[derive(Clone, Copy)]
pub enum StepKind {
    /// To begin a task, with this byte address as the guess of its entry.
    Assign(u32),
    /// To run the unit's task on by at most this many turns, and to submit that burst.
    Submit(u32),
    /// To remove the line of this word from the unit's cache.
    Replace(WordAddr),
    /// To squash the unit's task and all after it.
    Cancel,
    /// To commit the head.
    Commit,
    /// To run the unit's task on by at most this many turns, and to keep that burst.
    Take(u32),
    /// To submit the burst that was kept for the unit.
    Give,
}

/// One step of a script.
#[derive(Clone, Copy)]
pub struct Step {
    /// The unit that it is about; for a commit, the one that asks for it.
    pub unit: UnitId,
    /// What it asks for.
    pub kind: StepKind,
}

impl StepKind {
    // Its word.
    fn word(self) -> StepWord
        ensures { result ≡ word_of self }
    {
        match self {
            StepKind::Assign(_) => StepWord::Assign,
            StepKind::Submit(_) => StepWord::Submit,
            StepKind::Replace(_) => StepWord::Replace,
            StepKind::Cancel => StepWord::Cancel,
            StepKind::Commit => StepWord::Commit,
            StepKind::Take(_) => StepWord::Take,
            StepKind::Give => StepWord::Give,
        }
    }

    // Its number, if it has one.
    fn arg(self) -> Option<u32>
        ensures { result ≡ arg_of self }
    {
        match self {
            StepKind::Assign(guess) => Some(guess),
            StepKind::Submit(turns) | StepKind::Take(turns) => Some(turns),
            StepKind::Replace(WordAddr(addr)) => Some(addr),
            StepKind::Cancel | StepKind::Commit | StepKind::Give => None,
        }
    }
}

// The word of a step.
#[derive(Clone, Copy)]
enum StepWord {
    Assign,
    Submit,
    Replace,
    Cancel,
    Commit,
    Take,
    Give,
}

impl StepWord {
    // The kind with this word and number: the number is there exactly if the word needs one.
    fn with(self, arg: Option<u32>) -> Option<StepKind>
        ensures { result ≡ kind_with self arg }
    {
        match (self, arg) {
            (StepWord::Assign, Some(guess)) => Some(StepKind::Assign(guess)),
            (StepWord::Submit, Some(turns)) => Some(StepKind::Submit(turns)),
            (StepWord::Replace, Some(addr)) => Some(StepKind::Replace(WordAddr(addr))),
            (StepWord::Cancel, None) => Some(StepKind::Cancel),
            (StepWord::Commit, None) => Some(StepKind::Commit),
            (StepWord::Take, Some(turns)) => Some(StepKind::Take(turns)),
            (StepWord::Give, None) => Some(StepKind::Give),
            _ => None,
        }
    }
}

impl Word for StepWord {
    ghost word = { word_text };

    fn all() -> &'static [StepWord] {
        &[
            StepWord::Assign,
            StepWord::Submit,
            StepWord::Replace,
            StepWord::Cancel,
            StepWord::Commit,
            StepWord::Take,
            StepWord::Give,
        ]
    }

    fn text(self) -> &'static str {
        match self {
            StepWord::Assign => "assign",
            StepWord::Submit => "submit",
            StepWord::Replace => "replace",
            StepWord::Cancel => "cancel",
            StepWord::Commit => "commit",
            StepWord::Take => "take",
            StepWord::Give => "give",
        }
    }
}

// The names of the columns.
const HEADER: [&[u8]; 3] = [b"kind", b"unit", b"arg"];

// The step of a record, or the first bad column.
fn step_of(row: &ByteRecord) -> Result<Step, u8>
    ensures { MatchResult result (λ s. HasStepRow s × (fields_of row.now ≡ step_columns s))
        (λ c. FirstBadStep (fields_of row.now) c) }
{
    if row.len() != HEADER.len() {
        return Err(0);
    }
    let word = named::<StepWord>(field(row, 0)).ok_or(1)?;
    let unit = unit_of(field(row, 1)).ok_or(2)?;
    let arg = optional_number_of(field(row, 2)).ok_or(3)?;
    let kind = word.with(arg).ok_or(3)?;
    Ok(Step { unit, kind })
}

impl Row for Step {
    ghost columns = { step_columns };

    ghost has_row = { HasStepRow };

    ghost first_bad = { FirstBadStep };

    fn of(row: &ByteRecord) -> Result<Step, u8> {
        step_of(row)
    }
}

/// Reads a script.
///
/// Errors: [`ReportError::Memory`], [`ReportError::Read`], or [`ReportError::Row`] with the first bad record and its
/// first bad column.
pub fn read_script<R: Read + Drop>(alloc: Global, reader: R) -> Result<Vec<Step>, ReportError>
    // The text is the names of the columns and the rows of these steps, and no other record.
    ensures ok { IfOk result (λ v. AllByRecursion HasStepRow v.items
        × IfSome (R.remaining reader) (λ text. IsText text (script_records v.items))) }
    // The first bad record and its first bad column.
    ensures err { IfErr result (λ e. IsScriptFault (R.remaining reader) e) }
    // The text of a script is read back, unless memory or the reader fails.
    ensures back { (steps : List Step) → AllByRecursion HasStepRow steps → R.remaining reader ≡ Some (script_text steps)
        → MatchResult result (λ v. v.items ≡ steps) IsStreamFault }
{
    read_rows(alloc, reader, &HEADER)
}

// Writes the row of a step, through the pending lines.
fn write_step<W: Write>(pending: &mut Pending, step: &Step, w: &mut W) -> Result<(), ReportError>
    ensures ok { OnOk result (Appends (append_known (W.contents w.old) pending.old)
        (append_known (W.contents w.new) pending.new) (step_row step.now)) }
    ensures err { IfErr result IsWriteFault }
{
    let mut unit = Buffer::new();
    let mut arg = Buffer::new();
    let fields = [
        step.kind.word().text().as_bytes(),
        unit_text(&mut unit, Some(step.unit)).as_bytes(),
        number_text(&mut arg, step.kind.arg()).as_bytes(),
    ];
    pending.write_line(&fields, w)
}

/// Writes the text of a script: the names of the columns, and a row for each step.
///
/// Errors: [`ReportError::Memory`], [`ReportError::Write`].
pub fn write_script<W: Write>(alloc: Global, steps: &[Step], w: &mut W) -> Result<(), ReportError>
    ensures ok { OnOk result (Appends (W.contents w.old) (W.contents w.new) (script_text steps.now)) }
    ensures err { IfErr result IsWriteFault }
{
    let mut pending = Pending::new(alloc);
    write_steps(&mut pending, steps, w)?;
    pending.write_all(w)
}

// Writes the names of the columns and the row of each step, through the pending lines.
fn write_steps<W: Write>(
    pending: &mut Pending,
    steps: &[Step],
    w: &mut W,
) -> Result<(), ReportError>
    ensures ok { OnOk result (Appends (append_known (W.contents w.old) pending.old)
        (append_known (W.contents w.new) pending.new) (script_text steps.now)) }
    ensures err { IfErr result IsWriteFault }
{
    pending.write_line(&HEADER, w)?;
    for step in steps {
        write_step(pending, step, w)?;
    }
    Ok(())
}
