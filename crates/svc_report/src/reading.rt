// How a text with a row for each item is read: what traces and scripts share.

ghost use Rattle.std.specs.Prelude.{◌≡◌, ◌≤◌, ℕ, List, [], Option, length, map, option_map, IfOk, IfErr, IfSome};
ghost use Rattle.std.specs.Prelude.{MatchResult};
ghost use Rattle.std.specs.List.{AllByRecursion};
ghost use Rattle.csv.specs.Reading.{reader_state, source_of};
ghost use Rattle.csv.specs.Records.{fields_of};
ghost use Rattle.csv.specs.declared.parser.State.TheVariants as st;
ghost use Rattle.svc_record_limit.specs.Limit.{readable};
ghost use Rattle.svc_record_limit.specs.Places.{known_through};
ghost use Rattle.svc_report.specs.Records.{IsOpen, IsRead};
ghost use Rattle.svc_report.specs.Rows.{IsRowsFault, records_of};

use crate::error::ReportError;
use crate::records::{check_names, next_row, open};
use csv::{ByteRecord, Reader};
use std::alloc::Global;
use std::io::Read;
use svc_record_limit::Limited;

/// An item that has a row in a text.
pub trait Row: Drop {
    // The columns of an item.
    ghost columns: { Self → List (List ℕ) };

    // Holds of the items that have a row.
    ghost has_row: { Self → Type 0 };

    // Holds of a record that is no item's row, and its first bad column.
    ghost first_bad: { List (List ℕ) → ℕ → Type 0 };

    /// The item of a record, or the first bad column.
    fn of(row: &ByteRecord) -> Result<Self, u8>
        ensures { MatchResult result (λ item. has_row item × (fields_of row.now ≡ columns item))
            (λ c. first_bad (fields_of row.now) c) };
}

/// Reads a text with these names of columns.
pub fn read_rows<T: Row, R: Read + Drop>(
    alloc: Global,
    reader: R,
    names: &[&[u8]],
) -> Result<Vec<T>, ReportError>
    requires { length names.now ≤ 100 }
    // What is read of the text is the names of the columns and the rows of these items, and no other record.
    ensures ok { IfOk result (λ v. AllByRecursion T.has_row v.items × IfSome (R.remaining reader)
        (λ text. IsRead text (records_of (map (λ n. n.now) names.now) T.columns v.items))) }
    // The first bad record and its first bad column.
    ensures err { IfErr result (λ e. IsRowsFault (map (λ n. n.now) names.now) T.columns T.has_row T.first_bad
        (R.remaining reader) e) }
{
    let mut reader = open(alloc, reader);
    let mut row = ByteRecord::new(alloc);
    let mut items = Vec::new(alloc);
    add_rows(&mut reader, &mut row, names, &mut items)?;
    Ok(items)
}

// Puts the items of a text's rows into an empty list. The list is lent, so that no early return drops it.
fn add_rows<T: Row, R: Read + Drop>(
    reader: &mut Reader<Limited<R>>,
    row: &mut ByteRecord,
    names: &[&[u8]],
    items: &mut Vec<T>,
) -> Result<(), ReportError>
    requires few { length names.now ≤ 100 }
    requires open { IsOpen reader.old }
    requires state { reader_state reader.old ≡ st.StartRecord }
    requires empty { items.old.items ≡ [] }
    ensures ok { (known : Option (List ℕ))
        → source_of (known_through R.remaining) reader.old ≡ option_map readable known
        → IfOk result (λ _. AllByRecursion T.has_row items.new.items × IfSome known
        (λ text. IsRead text (records_of (map (λ n. n.now) names.now) T.columns items.new.items))) }
    ensures err { (known : Option (List ℕ))
        → source_of (known_through R.remaining) reader.old ≡ option_map readable known
        → IfErr result (λ e. IsRowsFault (map (λ n. n.now) names.now) T.columns T.has_row T.first_bad known e) }
{
    if !next_row(reader, row)? {
        return Err(ReportError::Row { row: 1, column: 0 });
    }
    if let Err(column) = check_names(row, names) {
        return Err(ReportError::Row { row: 1, column });
    }
    for number in 2..u64::MAX {
        if !next_row(reader, row)? {
            return Ok(());
        }
        match T::of(row) {
            Ok(item) => items.push(item)?,
            Err(column) => {
                return Err(ReportError::Row {
                    row: number,
                    column,
                });
            }
        }
    }
    // No memory holds that many items.
    Err(ReportError::Memory)
}
