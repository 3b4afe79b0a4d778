// Traces: a text with a row for each entry of a history.

ghost use Rattle.std.specs.Prelude.{◌≡◌, OnOk, IfOk, IfErr, IfSome, MatchResult, List, Some};
ghost use Rattle.std.specs.List.{AllByRecursion};
ghost use Rattle.std.specs.Io.KnownBytes.{Appends, append_known};
ghost use Rattle.csv.specs.Records.{fields_of};
ghost use Rattle.svc_history_laws.specs.declared.entry.Entry.{Entry};
ghost use Rattle.svc_report.specs.Faults.{IsStreamFault, IsWriteFault};
ghost use Rattle.svc_report.specs.Records.{IsText};
ghost use Rattle.svc_report.specs.Trace.{FirstBad, HasRow, IsReadFault, columns, row_of, text_of, trace_records};

use crate::error::ReportError;
use crate::lines::Pending;
use crate::numbers::{
    address_text, number_text, optional_address_of, optional_number_of, optional_small_of,
    optional_unit_of, small_text, unit_of, unit_text,
};
use crate::reading::{Row, read_rows};
use crate::records::field;
use crate::words::{Word, named, named_or_none, text_or_none};
use csv::ByteRecord;
use itoa::Buffer;
use std::alloc::Global;
use std::io::{Read, Write};
use svc_base::limits::MAX_BURST_TURNS;
use svc_history_laws::Entry;

// The names of the columns.
const HEADER: [&[u8]; 13] = [
    b"kind",
    b"unit",
    b"arg",
    b"local",
    b"ask",
    b"reply",
    b"addr",
    b"word",
    b"served",
    b"from",
    b"cause",
    b"first",
    b"squashed",
];

// The most local turns of a burst.
const MOST_LOCAL: u8 = MAX_BURST_TURNS as u8;

// Writes the row of an entry, through the pending lines.
fn write_row<W: Write>(pending: &mut Pending, entry: &Entry, w: &mut W) -> Result<(), ReportError>
    ensures ok { OnOk result (Appends (append_known (W.contents w.old) pending.old)
        (append_known (W.contents w.new) pending.new) (row_of entry.now)) }
    ensures err { IfErr result IsWriteFault }
{
    let mut unit = Buffer::new();
    let mut arg = Buffer::new();
    let mut local = Buffer::new();
    let mut addr = Buffer::new();
    let mut word = Buffer::new();
    let mut from = Buffer::new();
    let mut first = Buffer::new();
    let mut squashed = Buffer::new();
    let fields = [
        entry.kind.text().as_bytes(),
        unit_text(&mut unit, Some(entry.unit)).as_bytes(),
        number_text(&mut arg, entry.arg).as_bytes(),
        small_text(&mut local, entry.local).as_bytes(),
        text_or_none(entry.ask).as_bytes(),
        entry.reply.text().as_bytes(),
        address_text(&mut addr, entry.addr).as_bytes(),
        number_text(&mut word, entry.word).as_bytes(),
        text_or_none(entry.served).as_bytes(),
        unit_text(&mut from, entry.from).as_bytes(),
        text_or_none(entry.cause).as_bytes(),
        number_text(&mut first, entry.first).as_bytes(),
        number_text(&mut squashed, entry.squashed).as_bytes(),
    ];
    pending.write_line(&fields, w)
}

/// Writes the row of an entry.
///
/// Errors: [`ReportError::Memory`], [`ReportError::Write`].
pub fn write_entry<W: Write>(alloc: Global, entry: &Entry, w: &mut W) -> Result<(), ReportError>
    ensures ok { OnOk result (Appends (W.contents w.old) (W.contents w.new) (row_of entry.now)) }
    ensures err { IfErr result IsWriteFault }
{
    let mut row = Pending::new(alloc);
    write_row(&mut row, entry, w)?;
    row.write_all(w)
}

/// Writes the text of a history: the names of the columns, and a row for each entry.
///
/// Errors: [`ReportError::Memory`], [`ReportError::Write`].
pub fn write_trace<W: Write>(alloc: Global, entries: &[Entry], w: &mut W) -> Result<(), ReportError>
    ensures ok { OnOk result (Appends (W.contents w.old) (W.contents w.new) (text_of entries.now)) }
    ensures err { IfErr result IsWriteFault }
{
    let mut pending = Pending::new(alloc);
    write_rows(&mut pending, entries, w)?;
    pending.write_all(w)
}

// Writes the names of the columns and the row of each entry, through the pending lines.
fn write_rows<W: Write>(
    pending: &mut Pending,
    entries: &[Entry],
    w: &mut W,
) -> Result<(), ReportError>
    ensures ok { OnOk result (Appends (append_known (W.contents w.old) pending.old)
        (append_known (W.contents w.new) pending.new) (text_of entries.now)) }
    ensures err { IfErr result IsWriteFault }
{
    pending.write_line(&HEADER, w)?;
    for entry in entries {
        write_row(pending, entry, w)?;
    }
    Ok(())
}

// The entry of a record, or the first bad column.
fn entry_of(row: &ByteRecord) -> Result<Entry, u8>
    ensures { MatchResult result (λ e. HasRow e × (fields_of row.now ≡ columns e))
        (λ c. FirstBad (fields_of row.now) c) }
{
    if row.len() != HEADER.len() {
        return Err(0);
    }
    Ok(Entry {
        kind: named(field(row, 0)).ok_or(1)?,
        unit: unit_of(field(row, 1)).ok_or(2)?,
        arg: optional_number_of(field(row, 2)).ok_or(3)?,
        local: optional_small_of(field(row, 3), MOST_LOCAL).ok_or(4)?,
        ask: named_or_none(field(row, 4)).ok_or(5)?,
        reply: named(field(row, 5)).ok_or(6)?,
        addr: optional_address_of(field(row, 6)).ok_or(7)?,
        word: optional_number_of(field(row, 7)).ok_or(8)?,
        served: named_or_none(field(row, 8)).ok_or(9)?,
        from: optional_unit_of(field(row, 9)).ok_or(10)?,
        cause: named_or_none(field(row, 10)).ok_or(11)?,
        first: optional_number_of(field(row, 11)).ok_or(12)?,
        squashed: optional_number_of(field(row, 12)).ok_or(13)?,
    })
}

impl Row for Entry {
    ghost columns = { columns };

    ghost has_row = { HasRow };

    ghost first_bad = { FirstBad };

    fn of(row: &ByteRecord) -> Result<Entry, u8> {
        entry_of(row)
    }
}

/// Reads the text of a history.
///
/// Errors: [`ReportError::Memory`], [`ReportError::Read`], or [`ReportError::Row`] with the first bad record and its
/// first bad column.
pub fn read_trace<R: Read + Drop>(alloc: Global, reader: R) -> Result<Vec<Entry>, ReportError>
    // The text is the names of the columns and the rows of these entries, and no other record.
    ensures ok { IfOk result (λ v. AllByRecursion HasRow v.items
        × IfSome (R.remaining reader) (λ text. IsText text (trace_records v.items))) }
    // The first bad record and its first bad column.
    ensures err { IfErr result (λ e. IsReadFault (R.remaining reader) e) }
    // The text of a history is read back, unless memory or the reader fails.
    ensures back { (h : List Entry) → AllByRecursion HasRow h → R.remaining reader ≡ Some (text_of h)
        → MatchResult result (λ v. v.items ≡ h) IsStreamFault }
{
    read_rows(alloc, reader, &HEADER)
}
