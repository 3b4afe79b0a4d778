//! A row of a list of cases.

use crate::error::CaseError;
use csv::StringRecord;
use std::alloc::{AllocError, Global};
use std::fs;
use std::rt::Files;
use svc_case_outcome::Outcome;

/// One run of the program, and what is wanted of it: the fields of a row.
#[derive(Clone, Copy)]
pub struct Case<'a> {
    /// What the case is called.
    pub name: &'a str,
    // The wanted status, the file of the wanted standard output, the wanted standard error without its last line feed,
    // and, as NAME=FILE, the name of each saved file in order and the file that has its wanted text. An empty field
    // wants nothing.
    status: &'a str,
    out: &'a str,
    err: &'a str,
    saved: &'a str,
    // The command line after the program's name.
    words: &'a str,
}

impl<'a> Case<'a> {
    /// The case of a row of six fields.
    pub fn of(row: &'a StringRecord) -> Option<Case<'a>> {
        Some(Case {
            name: row.get(0)?,
            status: row.get(1)?,
            out: row.get(2)?,
            err: row.get(3)?,
            saved: row.get(4)?,
            words: row.get(5)?,
        })
    }

    /// The words of the command line, the program's name first.
    pub fn line(&self, alloc: Global) -> Result<Vec<String>, AllocError> {
        let mut words = Vec::new(alloc);
        words.push(String::from_str(alloc, "svcsim")?)?;
        for word in self.words.split_whitespace() {
            words.push(String::from_str(alloc, word)?)?;
        }
        Ok(words)
    }

    /// What is wanted of the run.
    ///
    /// Errors: [`CaseError::List`], if the status is no number; otherwise a file that can't be read, or lack of memory.
    pub fn wanted<R: Files + AllocGlobal>(&self, rt: &R) -> Result<Outcome, CaseError> {
        let Ok(status) = self.status.parse::<u8>() else {
            return Err(CaseError::List);
        };
        Ok(Outcome {
            status,
            out: text_of(rt, self.out)?,
            err: line_of(rt.alloc(), self.err)?,
            saved: saved_of(rt, self.saved)?,
        })
    }
}

// The bytes of a file; none without a name.
fn text_of<R: Files + AllocGlobal>(rt: &R, name: &str) -> Result<Vec<u8>, CaseError> {
    if name.is_empty() {
        return Ok(Vec::new(rt.alloc()));
    }
    let bytes = fs::read(rt, name)?;
    Ok(bytes)
}

// A text as a line; no bytes for an empty text.
fn line_of(alloc: Global, text: &str) -> Result<Vec<u8>, AllocError> {
    let mut line = Vec::from_slice(alloc, text.as_bytes())?;
    if !text.is_empty() {
        line.push(b'\n')?;
    }
    Ok(line)
}

// The wanted saved files, as they are shown: each one's name as a line, and then its text.
fn saved_of<R: Files + AllocGlobal>(rt: &R, saved: &str) -> Result<Vec<u8>, CaseError> {
    let mut shown = Vec::new(rt.alloc());
    for one in saved.split_whitespace() {
        show_saved(rt, one, &mut shown)?;
    }
    Ok(shown)
}

// Adds a wanted saved file.
//
// Errors: [`CaseError::List`], if it isn't NAME=FILE; otherwise a file that can't be read, or lack of memory.
fn show_saved<R: Files + AllocGlobal>(
    rt: &R,
    saved: &str,
    shown: &mut Vec<u8>,
) -> Result<(), CaseError> {
    let Some((name, file)) = saved.split_once('=') else {
        return Err(CaseError::List);
    };
    shown.extend_from_slice(&line_of(rt.alloc(), name)?)?;
    shown.extend_from_slice(&fs::read(rt, file)?)?;
    Ok(())
}
