//! Texts on standard output.

ghost use Rattle.std.specs.Prelude.{◌≡◌, OnOk, IfErr};
ghost use Rattle.std.specs.Io.KnownBytes.{Appends, Keeps};
ghost use Rattle.svc_names.specs.Given.{listed, told_with};
ghost use Rattle.svc_names.specs.Rows.{with_names};
ghost use Rattle.svc_report.specs.Faults.{IsWriteFault};
ghost use Rattle.svc_report.specs.declared.error.ReportError.TheVariants.{Write};

use std::alloc::Global;
use std::io::Write;
use svc_names::{Names, Rows};
use svc_report::ReportError;
use svc_text::write_text;

/// Prints a gathered text.
///
/// Errors: [`ReportError::Write`].
pub fn print_text<O: Write>(text: &[u8], out: &mut O) -> Result<(), ReportError>
    ensures ok { OnOk result (Appends (O.contents out.old) (O.contents out.new) text.now) }
    ensures err { IfErr result (λ error. error ≡ Write) }
{
    write_text(text, out)?;
    flush(out)
}

/// Writes the rows of a gathered text with these names.
///
/// Errors: [`ReportError::Memory`], [`ReportError::Write`].
pub fn write_named<O: Write>(
    alloc: Global,
    names: &Names,
    rows: Rows,
    text: &[u8],
    out: &mut O,
) -> Result<(), ReportError>
    ensures ok { OnOk result (Appends (O.contents out.old) (O.contents out.new)
        (with_names names.now.list.items rows text.now)) }
    ensures err { IfErr result IsWriteFault }
{
    let mut named = Vec::new(alloc);
    names.put_rows(&mut named, rows, text)?;
    write_text(&named, out)?;
    Ok(())
}

/// Prints the rows of a gathered text, with names if any are given.
///
/// Errors: [`ReportError::Memory`], [`ReportError::Write`].
pub fn print_rows<O: Write>(
    alloc: Global,
    names: Option<&Names>,
    rows: Rows,
    text: &[u8],
    out: &mut O,
) -> Result<(), ReportError>
    ensures ok { OnOk result (Appends (O.contents out.old) (O.contents out.new)
        (told_with (listed names.entry) rows text.now)) }
    ensures err { IfErr result IsWriteFault }
{
    match names {
        None => print_text(text, out),
        Some(names) => {
            write_named(alloc, names, rows, text, out)?;
            flush(out)
        }
    }
}

/// Flushes what was printed of a text.
///
/// Errors: [`ReportError::Write`].
pub fn flush<O: Write>(out: &mut O) -> Result<(), ReportError>
    ensures kept { OnOk result (Keeps (O.contents out.old) (O.contents out.new)) }
    ensures err { IfErr result (λ error. error ≡ Write) }
{
    out.flush()?;
    Ok(())
}
