//! The summary of a run.

ghost use Rattle.std.specs.Prelude.{◌≡◌, ◌⊎◌, OnOk, IfOk, IfErr, Some};
ghost use Rattle.std.specs.Io.KnownBytes.{Appends};
ghost use Rattle.svc_report.specs.Summary.{summary_of};
ghost use Rattle.svc_request.specs.Faults.{IsReportFault};
ghost use Rattle.svc_answer.specs.Runs.{ReportsOn, ReportsRow, ReportsRun, status_of};

use crate::output::flush;
use std::alloc::Global;
use std::io::Write;
use svc_core::Ending;
use svc_history::Recorder;
use svc_report::{Counts, TableRow, write_summary, write_summary_row};
use svc_request::Fault;

/// Prints the summary of a run: the output words, how many tasks were run or committed, the ending,
/// and the counts if they are given. It returns the exit status.
pub fn print<O: Write>(
    alloc: Global,
    output: &[u32],
    tasks: u64,
    ending: Ending,
    counts: Option<Counts>,
    out: &mut O,
) -> Result<u8, Fault>
    ensures status { IfOk result (λ status. status ≡ status_of ending) }
    ensures fault { IfErr result IsReportFault }
    ensures text { OnOk result (Appends (O.contents out.old) (O.contents out.new)
        (summary_of output.now tasks ending counts)) }
{
    write_summary(alloc, output, tasks, ending, counts, out)?;
    flush(out)?;
    Ok(exit_status(ending))
}

/// Prints the summary of what was recorded, with its counts. It returns the exit status.
pub fn print_recorded<O: Write>(
    alloc: Global,
    recorder: &Recorder,
    out: &mut O,
) -> Result<u8, Fault>
    ensures report { IfOk result (ReportsOn recorder.now (O.contents out.old) (O.contents out.new)) }
    ensures fault { IfErr result IsReportFault }
{
    let machine = recorder.machine();
    let counts = Counts::of(recorder.entries());
    print(
        alloc,
        machine.output(),
        machine.committed_tasks(),
        machine.ending(),
        Some(counts),
        out,
    )
}

// Prints the summary of what was recorded as a row of a table. It returns the exit status.
fn print_row<O: Write>(
    alloc: Global,
    recorder: &Recorder,
    row: TableRow<'_>,
    out: &mut O,
) -> Result<u8, Fault>
    ensures report { IfOk result (ReportsRow row.entry recorder.now (O.contents out.old) (O.contents out.new)) }
    ensures fault { IfErr result IsReportFault }
{
    let machine = recorder.machine();
    let counts = Counts::of(recorder.entries());
    let ending = machine.ending();
    write_summary_row(alloc, row, machine.committed_tasks(), ending, &counts, out)?;
    flush(out)?;
    Ok(exit_status(ending))
}

/// Prints the summary of what was recorded, as a row of a table if one is asked for. It returns the exit status.
pub fn print_run<O: Write>(
    alloc: Global,
    recorder: &Recorder,
    row: Option<TableRow<'_>>,
    out: &mut O,
) -> Result<u8, Fault>
    ensures report { IfOk result (ReportsRun row.entry recorder.now (O.contents out.old) (O.contents out.new)) }
    ensures fault { IfErr result IsReportFault }
{
    match row {
        None => print_recorded(alloc, recorder, out),
        Some(row) => print_row(alloc, recorder, row, out),
    }
}

/// The exit status of a run with this ending: 0 if the program exited, otherwise 2.
pub fn exit_status(ending: Ending) -> u8
    ensures { result ≡ status_of ending }
{
    match ending {
        Ending::Exit(_) => 0,
        Ending::Trap(_) | Ending::Full(_) | Ending::Open(_) => 2,
    }
}
