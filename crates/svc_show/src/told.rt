// Rows of a name and a number.

ghost use Rattle.std.specs.Prelude.{◌≡◌, ◌++◌, OnOk, decimal};
ghost use Rattle.svc_report.specs.Summary.{number_row};
ghost use Rattle.svc_show.specs.Rows.{told_row};

use std::alloc::AllocError;
use svc_text::put;

/// Adds a row of a name and a number.
pub(crate) fn write_told(name: &str, number: u64, rows: &mut Vec<u8>) -> Result<(), AllocError>
    ensures { OnOk result (rows.new.items ≡ rows.old.items ++ told_row name.now (decimal number)) }
{
    put!(rows; name, ",", number, "\n");
    Ok(())
}

/// The same, as the row of a summary.
pub(crate) fn write_number(name: &str, number: u64, rows: &mut Vec<u8>) -> Result<(), AllocError>
    ensures { OnOk result (rows.new.items ≡ rows.old.items ++ number_row name.now number) }
{
    write_told(name, number, rows)
}
