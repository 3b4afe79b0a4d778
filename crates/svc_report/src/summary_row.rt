// The summary of a run as a row of a table.

ghost use Rattle.std.specs.Prelude.{◌≡◌, ◌++◌, [], OnOk, IfOk, IfErr, decimal, map};
ghost use Rattle.std.specs.Io.KnownBytes.{Appends};
ghost use Rattle.svc_report.specs.Faults.{IsWriteFault};
ghost use Rattle.svc_report.specs.Table.{header_text, summary_fields, summary_names, summary_row};

use crate::counts::{COUNT_NAMES, Counts};
use crate::error::ReportError;
use crate::summary::{ending_number, ending_word};
use crate::table::{Fields, TableRow, write_row};
use std::alloc::{AllocError, Global};
use std::io::Write;
use svc_core_laws::Ending;

// The names of the columns before those of the counts.
const FIRST_NAMES: [&str; 4] = ["label", "tasks", "ending", "number"];

// The names of the columns.
fn names(alloc: Global) -> Result<Fields, AllocError>
    ensures { IfOk result (λ names. names ≡ summary_names) }
{
    let mut names = Fields::new(alloc);
    names.push_all(&FIRST_NAMES)?;
    names.push_all(&COUNT_NAMES)?;
    Ok(names)
}

// Writes the names of the columns, if they are asked for.
fn write_names<W: Write>(alloc: Global, header: bool, w: &mut W) -> Result<(), ReportError>
    ensures ok { OnOk result (Appends (W.contents w.old) (W.contents w.new) (header_text header summary_names)) }
    ensures err { IfErr result IsWriteFault }
{
    if header {
        return write_row(alloc, &names(alloc)?, w);
    }
    Ok(())
}

// Adds a field for each number.
fn push_numbers(fields: &mut Fields, numbers: &[u64]) -> Result<(), AllocError>
    ensures { OnOk result (fields.new ≡ fields.old ++ map decimal numbers.now) }
{
    for number in numbers {
        fields.push_number(*number)?;
    }
    Ok(())
}

// Puts the fields of a summary into an empty row.
fn push_fields(
    fields: &mut Fields,
    label: &str,
    tasks: u64,
    ending: Ending,
    counts: &Counts,
) -> Result<(), AllocError>
    requires { fields.old ≡ [] }
    ensures { OnOk result (fields.new ≡ summary_fields label.now tasks ending counts.now) }
{
    fields.push(label)?;
    fields.push_number(tasks)?;
    fields.push(ending_word(ending))?;
    fields.push_number(ending_number(ending))?;
    push_numbers(fields, &counts.numbers())
}

/// Writes the summary of a run as a row of a table: its label, how many tasks were committed, the word and the number
/// of the ending, and the counts. The output words aren't in it.
///
/// Errors: [`ReportError::Memory`], [`ReportError::Write`].
pub fn write_summary_row<W: Write>(
    alloc: Global,
    row: TableRow<'_>,
    tasks: u64,
    ending: Ending,
    counts: &Counts,
    w: &mut W,
) -> Result<(), ReportError>
    ensures ok { OnOk result (Appends (W.contents w.old) (W.contents w.new)
        (summary_row row.entry tasks ending counts.now)) }
    ensures err { IfErr result IsWriteFault }
{
    let mut fields = Fields::new(alloc);
    push_fields(&mut fields, row.label, tasks, ending, counts)?;
    write_names(alloc, row.header, w)?;
    write_row(alloc, &fields, w)
}
