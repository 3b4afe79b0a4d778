// Summaries of runs.

ghost use Rattle.std.specs.Prelude.{◌≡◌, All, OnOk, IfErr, length, map};
ghost use Rattle.std.specs.Io.KnownBytes.{Appends, append_known};
ghost use Rattle.svc_report.specs.Faults.{IsWriteFault};
ghost use Rattle.svc_report.specs.Lines.{IsPlain};
ghost use Rattle.svc_report.specs.Summary.{number_row, output_rows, ending_number, ending_row, ending_word};
ghost use Rattle.svc_report.specs.Summary.{number_rows, summary_of};

use crate::counts::{COUNT_NAMES, Counts};
use crate::error::ReportError;
use crate::lines::Pending;
use itoa::Buffer;
use std::alloc::Global;
use std::io::Write;
use svc_core_laws::Ending;

// Writes a row of a name and a number, through the pending lines.
fn write_number<W: Write>(
    pending: &mut Pending,
    name: &str,
    number: u64,
    w: &mut W,
) -> Result<(), ReportError>
    requires { IsPlain name.now }
    ensures ok { OnOk result (Appends (append_known (W.contents w.old) pending.old)
        (append_known (W.contents w.new) pending.new) (number_row name.now number)) }
    ensures err { IfErr result IsWriteFault }
{
    let mut text = Buffer::new();
    let fields = [name.as_bytes(), text.format(number).as_bytes()];
    pending.write_line(&fields, w)
}

// Writes a row for each output word.
fn write_output<W: Write>(
    pending: &mut Pending,
    output: &[u32],
    w: &mut W,
) -> Result<(), ReportError>
    ensures ok { OnOk result (Appends (append_known (W.contents w.old) pending.old)
        (append_known (W.contents w.new) pending.new) (output_rows output.now)) }
    ensures err { IfErr result IsWriteFault }
{
    for word in output {
        write_number(pending, "out", u64::from(*word), w)?;
    }
    Ok(())
}

/// The word that says how a run ended.
pub(crate) fn ending_word(ending: Ending) -> &'static str
    ensures word { result.now ≡ ending_word ending }
    ensures plain { IsPlain result.now }
{
    match ending {
        Ending::Exit(_) => "exit",
        Ending::Trap(_) => "trap",
        Ending::Full(_) => "full",
        Ending::Open(_) => "open",
    }
}

/// The number that stands beside it.
pub(crate) fn ending_number(ending: Ending) -> u64
    ensures { result ≡ ending_number ending }
{
    match ending {
        Ending::Exit(code) => u64::from(code),
        Ending::Trap(number) => u64::from(number),
        Ending::Full(entry) | Ending::Open(entry) => u64::from(entry),
    }
}

// Writes the row of an ending.
fn write_ending<W: Write>(
    pending: &mut Pending,
    ending: Ending,
    w: &mut W,
) -> Result<(), ReportError>
    ensures ok { OnOk result (Appends (append_known (W.contents w.old) pending.old)
        (append_known (W.contents w.new) pending.new) (ending_row ending)) }
    ensures err { IfErr result IsWriteFault }
{
    write_number(pending, ending_word(ending), ending_number(ending), w)
}

// Writes a row for each name and its number.
fn write_numbers<W: Write>(
    pending: &mut Pending,
    names: &[&str],
    numbers: &[u64],
    w: &mut W,
) -> Result<(), ReportError>
    requires plain { All (λ name. IsPlain name.now) names.now }
    requires each { length names.now ≡ length numbers.now }
    ensures ok { OnOk result (Appends (append_known (W.contents w.old) pending.old)
        (append_known (W.contents w.new) pending.new) (number_rows (map (λ name. name.now) names.now) numbers.now)) }
    ensures err { IfErr result IsWriteFault }
{
    for index in 0..names.len() {
        write_number(pending, names[index], numbers[index], w)?;
    }
    Ok(())
}

// Writes the rows of a summary, through the pending lines.
fn write_rows<W: Write>(
    pending: &mut Pending,
    output: &[u32],
    tasks: u64,
    ending: Ending,
    counts: Option<Counts>,
    w: &mut W,
) -> Result<(), ReportError>
    ensures ok { OnOk result (Appends (append_known (W.contents w.old) pending.old)
        (append_known (W.contents w.new) pending.new) (summary_of output.now tasks ending counts)) }
    ensures err { IfErr result IsWriteFault }
{
    write_output(pending, output, w)?;
    write_number(pending, "tasks", tasks, w)?;
    write_ending(pending, ending, w)?;
    match counts {
        None => Ok(()),
        Some(counts) => write_numbers(pending, &COUNT_NAMES, &counts.numbers(), w),
    }
}

/// Writes the summary of a run: the output words, how many tasks were run or committed, the ending,
/// and the counts if they are given.
///
/// Errors: [`ReportError::Memory`], [`ReportError::Write`].
pub fn write_summary<W: Write>(
    alloc: Global,
    output: &[u32],
    tasks: u64,
    ending: Ending,
    counts: Option<Counts>,
    w: &mut W,
) -> Result<(), ReportError>
    ensures ok { OnOk result (Appends (W.contents w.old) (W.contents w.new)
        (summary_of output.now tasks ending counts)) }
    ensures err { IfErr result IsWriteFault }
{
    let mut pending = Pending::new(alloc);
    write_rows(&mut pending, output, tasks, ending, counts, w)?;
    pending.write_all(w)
}
