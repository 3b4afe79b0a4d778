// Rows of tables, in which the results of many runs are joined.

ghost use Rattle.std.specs.Prelude.{◌≡◌, ◌++◌, ◌∷◌, [], OnOk, IfErr, decimal, map};
ghost use Rattle.std.specs.Io.KnownBytes.{Appends};
ghost use Rattle.csv.specs.Writing.{default_writer, row_text};
ghost use Rattle.svc_report.specs.Faults.{IsWriteFault};

use crate::error::ReportError;
use crate::lines::Pending;
use csv::ByteRecord;
use itoa::Buffer;
use std::alloc::{AllocError, Global};
use std::io::Write;
use std::marker::Model;

/// The row of a table that stands for a run.
#[derive(Clone, Copy)]
pub struct TableRow<'a> {
    /// Its first field, which distinguishes it from other rows.
    pub label: &'a str,
    /// Whether the names of the columns stand before it.
    pub header: bool,
}

/// The fields of a row, gathered one after another.
#[derive(Drop)]
pub struct Fields {
    record: ByteRecord,
}

impl Model for Fields {
    ghost use Rattle.std.specs.Prelude.{◌≡◌, [], ℕ, List};
    ghost use Rattle.csv.specs.Records.{fields_of, partial_of};

    ghost Value = { List (List ℕ) };

    ghost view = { λ f. fields_of f.record };

    ghost invariant = { λ f. partial_of f.record ≡ [] };
}

impl Fields {
    /// No fields.
    pub fn new(alloc: Global) -> Fields
        ensures { result ≡ [] }
    {
        Fields {
            record: ByteRecord::new(alloc),
        }
    }

    /// Adds a text.
    ///
    /// Errors: memory ran out; then no field is left.
    pub fn push(&mut self, text: &str) -> Result<(), AllocError>
        ensures { OnOk result (self.new ≡ self.old ++ (text.now ∷ [])) }
    {
        let pushed = self.record.push_field(text.as_bytes());
        if pushed.is_err() {
            self.record.clear();
        }
        pushed
    }

    /// Adds texts.
    ///
    /// Errors: memory ran out; then no field is left.
    pub fn push_all(&mut self, texts: &[&str]) -> Result<(), AllocError>
        ensures { OnOk result (self.new ≡ self.old ++ map (λ t. t.now) texts.now) }
    {
        for text in texts {
            self.push(*text)?;
        }
        Ok(())
    }

    /// Adds a number.
    ///
    /// Errors: memory ran out; then no field is left.
    pub fn push_number(&mut self, number: u64) -> Result<(), AllocError>
        ensures { OnOk result (self.new ≡ self.old ++ (decimal number ∷ [])) }
    {
        let mut text = Buffer::new();
        self.push(text.format(number))
    }
}

/// Writes a row of a table.
///
/// Errors: [`ReportError::Memory`], [`ReportError::Write`].
pub fn write_row<W: Write>(alloc: Global, fields: &Fields, w: &mut W) -> Result<(), ReportError>
    ensures ok { OnOk result (Appends (W.contents w.old) (W.contents w.new) (row_text default_writer fields.now)) }
    ensures err { IfErr result IsWriteFault }
{
    let mut lines = Pending::new(alloc);
    lines.push_record(&fields.record)?;
    lines.write_all(w)
}
