//! Images that are made: from a program's text, or from another image by a list that changes its length or a word.

use crate::error::CaseError;
use csv::StringRecord;
use std::alloc::AllocError;
use std::fs;
use std::rt::Files;
use svc_asm::assemble;

// What is changed of an image.
#[derive(Clone, Copy)]
enum Change {
    // It is cut, or lengthened by zeros, to this length in bytes.
    Length(usize),
    // The four bytes at this place become this word.
    Word(usize, u32),
}

impl Change {
    // The change of a field: a length, or a place and a word in hexadecimal.
    fn of(field: &str) -> Option<Change> {
        match field.split_once('=') {
            None => field.parse::<usize>().ok().map(Change::Length),
            Some((place, word)) => {
                let place = place.parse::<usize>().ok()?;
                let word = u32::from_str_radix(word, 16).ok()?;
                Some(Change::Word(place, word))
            }
        }
    }

    // Changes these bytes.
    fn apply(self, bytes: &mut Vec<u8>) -> Result<(), AllocError> {
        match self {
            Change::Length(length) => bytes.resize(length, 0),
            Change::Word(place, word) => {
                for (byte, new) in bytes.iter_mut().skip(place).zip(word.to_le_bytes()) {
                    *byte = new;
                }
                Ok(())
            }
        }
    }
}

/// The bytes of an image: below `programs/` as its text makes it, otherwise as the rows of its name make it, or those
/// of the file of the name.
///
/// Errors: a row that doesn't have the list's form, a text that makes no image, a file that can't be read, lack of
/// memory.
pub fn image<R: Files + AllocGlobal>(
    rt: &R,
    rows: &[StringRecord],
    name: &str,
) -> Result<Vec<u8>, CaseError> {
    if let Some(program) = name.strip_suffix(".svci")
        && program.starts_with("programs/")
    {
        return assembled(rt, program);
    }
    let mut bytes = fs::read(rt, source(rows, name))?;
    for row in rows {
        if row.get(0) == Some(name) {
            let change = row.get(2).and_then(Change::of).ok_or(CaseError::List)?;
            change.apply(&mut bytes)?;
        }
    }
    Ok(bytes)
}

// The image that a program's text makes.
fn assembled<R: Files + AllocGlobal>(rt: &R, program: &str) -> Result<Vec<u8>, CaseError> {
    let text = fs::read(rt, &format!(in rt.alloc(); "{program}.s")?)?;
    let image = assemble(rt.alloc(), &text).map_err(|_| CaseError::List)?;
    image.write(rt.alloc()).map_err(|_| CaseError::Memory)
}

// The file from which an image is made: what the first row of its name says, otherwise the one of the name.
fn source<'a>(rows: &'a [StringRecord], name: &'a str) -> &'a str {
    for row in rows {
        if row.get(0) == Some(name) {
            return row.get(1).unwrap_or(name);
        }
    }
    name
}
