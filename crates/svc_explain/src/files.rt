//! Which of the files of a request can't be read or saved.

ghost use Rattle.std.specs.Prelude.{◌≡◌, ◌++◌, IfOk, IfSome, OnOk, Some, option_map, slice_get, ℕ};
ghost use Rattle.svc_explain.specs.Explanations.{Reads, TellsFile, TellsUnread, TellsUnsaved, files_written, or_also};
ghost use Rattle.svc_explain.specs.Explanations.{others_read_by, read_by};
ghost use Rattle.svc_explain.specs.Explanations.{sentence};
ghost use Rattle.svc_request.specs.Names.{also_written_by, written_by};

use crate::names::{also_written_by, others_read_by, read_by, written_by};
use std::alloc::{AllocError, Global};
use svc_answer::front::front_of;
use svc_image::MOST_BYTES;
use svc_request::{Files, Request};
use svc_text::{Piece, put};

/// A line of the program's own: a name, and what is said of it.
pub(crate) fn line(alloc: Global, name: &str, said: &str) -> Result<Vec<u8>, AllocError>
    ensures { IfOk result (λ text. text.items ≡ sentence (name.now ++ said.now)) }
{
    let mut text = Vec::new(alloc);
    put!(&mut text; "svcsim: ", name, said, "\n");
    Ok(text)
}

// Adds a second name, if there is one.
fn put_also(text: &mut Vec<u8>, name: &str, also: Option<&str>) -> Result<(), AllocError>
    ensures { OnOk result (text.new.items
        ≡ text.old.items ++ or_also name.now (option_map (λ other. other.now) also.entry)) }
{
    name.put(text)?;
    match also {
        None => Ok(()),
        Some(other) => {
            put!(text; " or ", other);
            Ok(())
        }
    }
}

// A line of the program's own: one name or two, and what is said of them.
fn line_of_both(
    alloc: Global,
    name: &str,
    also: Option<&str>,
    said: &str,
) -> Result<Vec<u8>, AllocError>
    ensures { IfOk result (λ text. text.items
        ≡ sentence (or_also name.now (option_map (λ other. other.now) also.entry) ++ said.now)) }
{
    let mut text = Vec::new(alloc);
    "svcsim: ".put(&mut text)?;
    put_also(&mut text, name, also)?;
    put!(&mut text; said, "\n");
    Ok(text)
}

// Whether a file can be opened, and read from its beginning on.
fn can_read<F: Files>(alloc: Global, name: &str, files: &F) -> bool {
    match files.open(name) {
        Ok(reader) => front_of(alloc, reader, MOST_BYTES).is_ok(),
        Err(_) => false,
    }
}

// The first of these files that can't be read.
fn first_unread<'a, F: Files>(
    alloc: Global,
    names: &[Option<&'a str>],
    files: &F,
) -> Option<&'a str>
    ensures { IfSome result (λ name. (place : ℕ) × (slice_get names.now place ≡ Some (Some name))) }
{
    for named in names {
        if let Some(name) = *named {
            if !can_read(alloc, name, files) {
                return Some(name);
            }
        }
    }
    None
}

// The first of these texts that can't be read.
fn first_unread_text<'a, F: Files>(alloc: Global, names: &[&'a str], files: &F) -> Option<&'a str>
    ensures { IfSome result (λ name. (place : ℕ) × (slice_get names.now place ≡ Some name)) }
{
    for name in names {
        if !can_read(alloc, name, files) {
            return Some(*name);
        }
    }
    None
}

// The first of the files of a request that can't be read.
fn unread_by<'a, F: Files>(alloc: Global, request: &Request<'a>, files: &F) -> Option<&'a str>
    ensures { IfSome result (Reads request.now) }
{
    match first_unread(alloc, &read_by(request), files) {
        Some(name) => Some(name),
        None => first_unread_text(alloc, others_read_by(request), files),
    }
}

/// Which of the files of a request can't be read, each tried in its order, or is read and would be written, or can't be
/// saved.
///
/// Errors: [`AllocError`], if memory runs out.
pub(crate) fn explain_files<F: Files>(
    alloc: Global,
    request: &Request<'_>,
    files: &F,
) -> Result<Vec<u8>, AllocError>
    ensures { IfOk result (λ text. TellsFile request.now text.items) }
{
    match unread_by(alloc, request, files) {
        Some(name) => line(alloc, name, " can't be read"),
        None => explain_saved(alloc, request, files),
    }
}

// Why the file of a request isn't saved.
fn explain_saved<F: Files>(
    alloc: Global,
    request: &Request<'_>,
    files: &F,
) -> Result<Vec<u8>, AllocError>
    ensures { IfOk result (λ text.
        TellsUnsaved (files_written (written_by request.now) (also_written_by request.now)) text.items) }
{
    let is_over = request.is_over_itself(files);
    unsaved(
        alloc,
        written_by(request),
        also_written_by(request),
        is_over,
    )
}

// Why a file of this name, or a second one, isn't saved: a file that is read may be one of them.
fn unsaved(
    alloc: Global,
    name: Option<&str>,
    also: Option<&str>,
    is_read: bool,
) -> Result<Vec<u8>, AllocError>
    ensures { IfOk result (λ text. TellsUnsaved (files_written (option_map (λ name. name.now) name.entry)
        (option_map (λ other. other.now) also.entry)) text.items) }
{
    match name {
        None => line(
            alloc,
            "",
            "memory ran out, or a trace has fewer entries than are asked for",
        ),
        Some(name) if is_read => line_of_both(
            alloc,
            name,
            also,
            " is read, and would be lost if it were saved",
        ),
        Some(name) => line_of_both(alloc, name, also, " can't be saved"),
    }
}
