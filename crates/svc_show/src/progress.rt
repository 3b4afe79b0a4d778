// How far a run has come.

ghost use Rattle.std.specs.Prelude.{◌≡◌, ◌++◌, [], OnOk};
ghost use Rattle.svc_report.specs.Summary.{ending_row};
ghost use Rattle.svc_show.specs.Rows.{entry_row, told_row};
ghost use Rattle.svc_show.specs.Show.{progress_rows};

use crate::told::{write_number, write_told};
use std::alloc::AllocError;
use svc_core_laws::Ending;
use svc_machine::Machine;
use svc_text::put;

// Writes a row of a name and an entry, which is empty if there is none.
fn write_entry(name: &str, entry: Option<u32>, rows: &mut Vec<u8>) -> Result<(), AllocError>
    ensures { OnOk result (rows.new.items ≡ rows.old.items ++ entry_row name.now entry) }
{
    match entry {
        Some(entry) => write_told(name, u64::from(entry), rows),
        None => write_empty(name, rows),
    }
}

// Writes a row of a name alone.
fn write_empty(name: &str, rows: &mut Vec<u8>) -> Result<(), AllocError>
    ensures { OnOk result (rows.new.items ≡ rows.old.items ++ told_row name.now []) }
{
    put!(rows; name, ",\n");
    Ok(())
}

// Writes the row of an ending.
fn write_ending(ending: Ending, rows: &mut Vec<u8>) -> Result<(), AllocError>
    ensures { OnOk result (rows.new.items ≡ rows.old.items ++ ending_row ending) }
{
    match ending {
        Ending::Exit(code) => write_number("exit", u64::from(code), rows),
        Ending::Trap(number) => write_number("trap", u64::from(number), rows),
        Ending::Full(entry) => write_number("full", u64::from(entry), rows),
        Ending::Open(entry) => write_number("open", u64::from(entry), rows),
    }
}

/// Writes how many tasks were committed, which entry is due, which one to guess, and how the run has ended.
pub(crate) fn write_progress(machine: &Machine, rows: &mut Vec<u8>) -> Result<(), AllocError>
    ensures { let m = machine.now in
        OnOk result (rows.new.items ≡ rows.old.items ++ progress_rows m.image m.config m.plain) }
{
    write_number("tasks", machine.committed_tasks(), rows)?;
    write_entry("due", machine.due(), rows)?;
    write_entry("guess", machine.guess(), rows)?;
    write_ending(machine.ending(), rows)
}
