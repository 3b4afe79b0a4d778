// Reads records of fields.

ghost use Rattle.std.specs.Prelude.{◌≡◌, ◌≤◌, [], length, get_or, map, option_map, IfOk, IfErr, MatchResult};
ghost use Rattle.csv.specs.Reading.{ReadRecord, source_of, reader_state};
ghost use Rattle.csv.specs.Records.{fields_of};
ghost use Rattle.csv.specs.declared.parser.State.TheVariants as st;
ghost use Rattle.svc_report.specs.Faults.{IsStreamFault};
ghost use Rattle.svc_record_limit.specs.Limit.{readable};
ghost use Rattle.svc_record_limit.specs.Places.{known_through};
ghost use Rattle.svc_report.specs.Records.{FirstOther, IsOpen};

use crate::error::ReportError;
use csv::{ByteRecord, ErrorKind, Reader, ReaderBuilder};
use std::alloc::Global;
use std::io::Read;
use svc_record_limit::Limited;

/// A reader of records with the usual settings, which reads no record past the most bytes that one may have. A record
/// may have any number of fields: it is up to the caller to report a wrong number.
pub fn open<R: Read>(alloc: Global, reader: R) -> Reader<Limited<R>>
    ensures open { IsOpen result }
    ensures state { reader_state result ≡ st.StartRecord }
    ensures source { source_of (known_through R.remaining) result ≡ option_map readable (R.remaining reader) }
{
    ReaderBuilder::new()
        .has_headers(false)
        .flexible(true)
        .from_reader(alloc, Limited::new(reader))
}

/// Reads the next record, and says whether there was one.
pub fn next_row<R: Read>(reader: &mut Reader<R>, row: &mut ByteRecord) -> Result<bool, ReportError>
    requires { IsOpen reader.old }
    ensures reads { IfOk result (λ found. IsOpen reader.new
        × ReadRecord R.remaining reader.old reader.new found (fields_of row.new)) }
    ensures err { IfErr result IsStreamFault }
{
    match reader.read_byte_record(row) {
        Ok(found) => Ok(found),
        Err(error) => match error.into_kind() {
            ErrorKind::OutOfMemory => Err(ReportError::Memory),
            _ => Err(ReportError::Read),
        },
    }
}

/// A field of a record, which is empty past the record's end.
pub fn field(row: &ByteRecord, place: usize) -> &[u8]
    ensures { result.now ≡ get_or (fields_of row.now) place [] }
{
    match row.get(place) {
        Some(field) => field,
        None => &[],
    }
}

/// Compares a record with names, and returns the first column that differs.
pub fn check_names(row: &ByteRecord, names: &[&[u8]]) -> Result<(), u8>
    requires { length names.now ≤ 100 }
    ensures { MatchResult result (λ _. fields_of row.now ≡ map (λ n. n.now) names.now)
        (λ c. FirstOther (fields_of row.now) (map (λ n. n.now) names.now) c) }
{
    if row.len() != names.len() {
        return Err(0);
    }
    for place in 0..names.len() {
        if field(row, place) != names[place] {
            return Err(place as u8 + 1);
        }
    }
    Ok(())
}
