//! Lists: rows of fields, as CSV below a row of the columns' names.

use crate::error::CaseError;
use csv::{Reader, StringRecord};
use std::fs;
use std::rt::Files;

/// The rows of a list.
///
/// Errors: a file that can't be read, text that isn't CSV, rows of different lengths, lack of memory.
pub fn rows<R: Files + AllocGlobal>(rt: &R, file: &str) -> Result<Vec<StringRecord>, CaseError> {
    let text = fs::read(rt, file)?;
    let mut reader = Reader::from_reader(rt.alloc(), text.as_slice());
    let mut rows = Vec::new(rt.alloc());
    for row in reader.records() {
        rows.push(row?)?;
    }
    Ok(rows)
}
