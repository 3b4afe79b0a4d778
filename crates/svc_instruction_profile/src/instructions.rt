// The table of instructions.

ghost use Rattle.std.specs.Prelude.{◌≡◌, ◌≤◌, OnOk, IfOk, IfErr, length};
ghost use Rattle.std.specs.Io.KnownBytes.{Appends};
ghost use Rattle.svc_base.specs.declared.config.TheConstants.{MAX_EVENTS};
ghost use Rattle.svc_report.specs.Faults.{IsWriteFault};
ghost use Rattle.svc_instruction_profile.specs.Rows.{instruction_rows, instruction_table};

use crate::charges::charges_of;
use crate::cost::Cost;
use crate::rows::{add_all, put_rows};
use std::alloc::{AllocError, Global};
use std::collections::BTreeMap;
use std::io::Write;
use svc_history_laws::Entry;
use svc_report::ReportError;
use svc_text::write_text;

// The rows of a history whose entries ask at these addresses.
fn rows_of(
    alloc: Global,
    asked: &[Option<u32>],
    entries: &[Entry],
) -> Result<BTreeMap<u32, Cost>, AllocError>
    requires same { length asked.now ≡ length entries.now }
    requires few { length entries.now ≤ MAX_EVENTS }
    ensures { IfOk result (λ rows. rows.entries ≡ instruction_rows asked.now entries.now) }
{
    let charges = charges_of(alloc, asked, entries)?;
    let mut rows = BTreeMap::new(alloc);
    add_all(&charges, &mut rows)?;
    Ok(rows)
}

// The text of the table.
fn table_of(alloc: Global, asked: &[Option<u32>], entries: &[Entry]) -> Result<Vec<u8>, AllocError>
    requires same { length asked.now ≡ length entries.now }
    requires few { length entries.now ≤ MAX_EVENTS }
    ensures { IfOk result (λ text. text.items ≡ instruction_table asked.now entries.now) }
{
    let rows = rows_of(alloc, asked, entries)?;
    let mut text = Vec::from_slice(
        alloc,
        b"pc,loads,stores,outputs,loads-squashed,violations-found,violations-suffered\n",
    )?;
    put_rows(&mut text, &rows)?;
    Ok(text)
}

/// Writes the table of the instructions at which a history's entries ask, given the address of each entry that does: a
/// header, and a row for each instruction with what it cost.
///
/// Errors: [`ReportError::Memory`], [`ReportError::Write`].
pub fn write_instructions<W: Write>(
    alloc: Global,
    asked: &[Option<u32>],
    entries: &[Entry],
    w: &mut W,
) -> Result<(), ReportError>
    requires same { length asked.now ≡ length entries.now }
    requires few { length entries.now ≤ MAX_EVENTS }
    ensures ok { OnOk result (Appends (W.contents w.old) (W.contents w.new)
        (instruction_table asked.now entries.now)) }
    ensures err { IfErr result IsWriteFault }
{
    let text = table_of(alloc, asked, entries)?;
    write_text(&text, w)?;
    Ok(())
}
