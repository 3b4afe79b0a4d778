// How a table of names is read.

ghost use Rattle.std.specs.Prelude.{◌≡◌, ◌∷◌, ◌++◌, [], ℕ, List, Option, Some, OnOk, IfOk, IfErr, IfSome, MatchResult};
ghost use Rattle.std.specs.Prelude.{option_map};
ghost use Rattle.csv.specs.Reading.{reader_state, source_of};
ghost use Rattle.csv.specs.Records.{fields_of};
ghost use Rattle.csv.specs.declared.parser.State.TheVariants as st;
ghost use Rattle.svc_record_limit.specs.Limit.{readable};
ghost use Rattle.svc_record_limit.specs.Places.{known_through};
ghost use Rattle.svc_report.specs.Records.{IsOpen, IsRead, IsText};
ghost use Rattle.svc_report.specs.Faults.{IsStreamFault};
ghost use Rattle.svc_names.specs.declared.name.Name.{Name};
ghost use Rattle.svc_names.specs.Made.{pairs_of, table_text};
ghost use Rattle.svc_names.specs.Table.{FirstBad, IsNamesFault, IsNext, IsTable, table_records};

use crate::name::{Name, comes_next, is_name_text};
use crate::names::Names;
use csv::{ByteRecord, Reader};
use std::alloc::{AllocError, Global};
use std::io::Read;
use svc_record_limit::Limited;
use svc_report::{ReportError, check_names, field, next_row, number_of, open};

// The names of the columns.
const HEADER: [&[u8]; 2] = [b"name", b"address"];

// The address of a record, if the record may stand behind these names; otherwise its first bad column.
fn address_of(names: &[Name], row: &ByteRecord) -> Result<u32, u8>
    ensures { MatchResult result (IsNext names.now (fields_of row.now)) (FirstBad names.now (fields_of row.now)) }
{
    if row.len() != HEADER.len() {
        return Err(0);
    }
    if !is_name_text(field(row, 0)) {
        return Err(1);
    }
    let Some(address) = number_of(field(row, 1)) else {
        return Err(2);
    };
    if comes_next(names, field(row, 0), address) {
        Ok(address)
    } else {
        Err(2)
    }
}

// Adds a name.
pub(crate) fn push_name(
    alloc: Global,
    names: &mut Vec<Name>,
    text: &[u8],
    address: u32,
) -> Result<(), AllocError>
    ensures { OnOk result ((name : Name) × (name.text.items ≡ text.now) × (name.address ≡ address)
        × (names.new.items ≡ names.old.items ++ name ∷ [])) }
{
    let text = Vec::from_slice(alloc, text)?;
    names.push(Name { text, address })?;
    Ok(())
}

// Puts the names of a table into an empty list. The list is lent, so that no early return drops it.
fn add_names<R: Read + Drop>(
    alloc: Global,
    reader: &mut Reader<Limited<R>>,
    row: &mut ByteRecord,
    names: &mut Vec<Name>,
) -> Result<(), ReportError>
    requires open { IsOpen reader.old }
    requires state { reader_state reader.old ≡ st.StartRecord }
    requires empty { names.old.items ≡ [] }
    ensures ok { (known : Option (List ℕ)) → source_of
        (known_through R.remaining) reader.old ≡ option_map readable known
        → IfOk result (λ _. IsTable names.new.items
        × IfSome known (λ text. IsRead text (table_records names.new.items))) }
    ensures err { (known : Option (List ℕ)) → source_of
        (known_through R.remaining) reader.old ≡ option_map readable known
        → IfErr result (λ e. IsNamesFault known e) }
{
    if !next_row(reader, row)? {
        return Err(ReportError::Row { row: 1, column: 0 });
    }
    if let Err(column) = check_names(row, &HEADER) {
        return Err(ReportError::Row { row: 1, column });
    }
    for number in 2..u64::MAX {
        if !next_row(reader, row)? {
            return Ok(());
        }
        match address_of(names, row) {
            Ok(address) => push_name(alloc, names, field(row, 0), address)?,
            Err(column) => {
                return Err(ReportError::Row {
                    row: number,
                    column,
                });
            }
        }
    }
    // No memory holds that many names.
    Err(ReportError::Memory)
}

// Reads a table of names.
fn read_table<R: Read + Drop>(alloc: Global, reader: R) -> Result<Names, ReportError>
    ensures ok { IfOk result (λ names. IsTable names.list.items
        × IfSome (R.remaining reader) (λ text. IsText text (table_records names.list.items))) }
    ensures err { IfErr result (λ e. IsNamesFault (R.remaining reader) e) }
{
    let mut reader = open(alloc, reader);
    let mut row = ByteRecord::new(alloc);
    let mut list = Vec::new(alloc);
    add_names(alloc, &mut reader, &mut row, &mut list)?;
    Ok(Names { list })
}

impl Names {
    /// Reads a table of names: a text with the columns `name` and `address`.
    ///
    /// Errors: [`ReportError::Memory`], [`ReportError::Read`], or [`ReportError::Row`] with the first bad record and
    /// its first bad column.
    pub fn read<R: Read + Drop>(alloc: Global, reader: R) -> Result<Names, ReportError>
        // The text is the names of the columns and the rows of these names, and no other record.
        ensures ok { IfOk result (λ names. IsTable names.list.items
            × IfSome (R.remaining reader) (λ text. IsText text (table_records names.list.items))) }
        // The first bad record and its first bad column.
        ensures err { IfErr result (λ e. IsNamesFault (R.remaining reader) e) }
        // The text of a table is read back, unless memory or the reader fails.
        ensures back { (h : List Name) → IsTable h → R.remaining reader ≡ Some (table_text h)
            → MatchResult result (λ names. pairs_of names.list.items ≡ pairs_of h) IsStreamFault }
    {
        read_table(alloc, reader)
    }
}
