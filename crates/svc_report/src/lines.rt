// Writes lines of fields.

ghost use Rattle.std.specs.Prelude.{◌≡◌, ◌++◌, [], false, OnOk, IfErr, map};
ghost use Rattle.std.specs.Io.KnownBytes.{Appends, Keeps, append_known};
ghost use Rattle.csv.specs.Records.{fields_of};
ghost use Rattle.csv.specs.Writing.{default_writer, fields_written, has_written, row_text, writer_setup};
ghost use Rattle.svc_report.specs.Faults.{IsWriteFault};

use crate::error::ReportError;
use csv::{ByteRecord, Writer, WriterBuilder};
use std::alloc::{AllocError, Global};
use std::io::Write;
use std::marker::Model;
use std::mem;
use svc_text::{ENOUGH, write_text};

/// Lines still to be written. They are gathered, since a new writer of `csv` for each would cost more than the line.
#[derive(Drop)]
pub struct Pending {
    alloc: Global,
    lines: Writer<Vec<u8>>,
}

impl Model for Pending {
    ghost use Rattle.std.specs.Prelude.{◌≡◌, ◌++◌, ℕ, List, false};
    ghost use Rattle.csv.specs.Writing.{default_writer, fields_written, has_written, writer_pending, writer_setup};
    ghost use Rattle.csv.specs.Writing.{writer_under};

    // The text of the lines.
    ghost Value = { List ℕ };

    ghost view = { λ p. (writer_under p.lines).items ++ writer_pending p.lines };

    ghost invariant = { λ p. (writer_setup p.lines ≡ default_writer) × (fields_written p.lines ≡ 0)
        × (has_written p.lines ≡ false) };
}

// Starts again. (It is a function of its own because otherwise room for the new writer would be made at each line.)
fn renew(lines: &mut Writer<Vec<u8>>, alloc: Global)
    ensures setup { writer_setup lines.new ≡ default_writer }
    ensures fields { fields_written lines.new ≡ 0 }
    ensures wrote { has_written lines.new ≡ false }
{
    *lines = WriterBuilder::new().from_writer(Vec::new(alloc));
}

impl Pending {
    /// No lines.
    pub fn new(alloc: Global) -> Pending
        ensures { result ≡ [] }
    {
        Pending {
            alloc,
            lines: WriterBuilder::new().from_writer(Vec::new(alloc)),
        }
    }

    /// Adds a line of these fields, as `csv` writes them. A writer over memory fails only for lack
    /// of memory.
    pub(crate) fn push(&mut self, fields: &[&[u8]]) -> Result<(), AllocError>
        ensures { OnOk result (self.new ≡ self.old ++ row_text default_writer (map (λ f. f.now) fields.now)) }
    {
        match self.lines.write_fields(fields) {
            Ok(()) => Ok(()),
            Err(_) => {
                renew(&mut self.lines, self.alloc);
                Err(AllocError)
            }
        }
    }

    /// Adds a line of a record's fields.
    pub(crate) fn push_record(&mut self, row: &ByteRecord) -> Result<(), AllocError>
        ensures { OnOk result (self.new ≡ self.old ++ row_text default_writer (fields_of row.now)) }
    {
        match self.lines.write_byte_record(row) {
            Ok(()) => Ok(()),
            Err(_) => {
                renew(&mut self.lines, self.alloc);
                Err(AllocError)
            }
        }
    }

    /// Adds a line of these fields, and writes all lines once there is enough.
    ///
    /// Errors: [`ReportError::Memory`], [`ReportError::Write`].
    pub fn write_line<W: Write>(&mut self, fields: &[&[u8]], w: &mut W) -> Result<(), ReportError>
        ensures ok { OnOk result (Appends (append_known (W.contents w.old) self.old)
            (append_known (W.contents w.new) self.new) (row_text default_writer (map (λ f. f.now) fields.now))) }
        ensures err { IfErr result IsWriteFault }
    {
        self.push(fields)?;
        if self.lines.get_ref().len() >= ENOUGH {
            return self.write_all(w);
        }
        Ok(())
    }

    /// Writes all lines.
    ///
    /// Errors: [`ReportError::Memory`], [`ReportError::Write`].
    pub fn write_all<W: Write>(&mut self, w: &mut W) -> Result<(), ReportError>
        ensures ok { OnOk result (Keeps (append_known (W.contents w.old) self.old) (W.contents w.new)) }
        ensures empty { OnOk result (self.new ≡ []) }
        ensures err { IfErr result IsWriteFault }
    {
        let Pending { alloc: _, lines } = mem::replace(self, Pending::new(self.alloc));
        let Ok(text) = lines.into_inner() else {
            return Err(ReportError::Memory);
        };
        write_text(&text, w)?;
        Ok(())
    }
}
