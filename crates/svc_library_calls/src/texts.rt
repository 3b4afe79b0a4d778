//! Calls that write and read texts. They write to room that is made before.

ghost use Rattle.std.specs.Prelude.{◌≡◌, is_some};
ghost use Rattle.svc_library_calls.specs.Calls.{text_calls, is_one_of};

use crate::attempt::{Attempt, Refused, ready};
use std::alloc::Global;
use svc_core_laws::Ending;
use svc_report::{Counts, ReportError, read_trace, write_entry, write_summary, write_trace};
use svc_samples::{SCRIPT, SUMMARY, TEN_ENTRIES, TRACE};
use svc_script::read_script;

/// Makes the call of this name, if it is one of these.
pub fn attempt(alloc: Global, name: &str) -> Option<Attempt>
    ensures { is_some result ≡ is_one_of text_calls name.now }
{
    match name {
        "write_trace" => Some(write_history(alloc)),
        "write_entry" => Some(write_row(alloc)),
        "write_summary" => Some(write_end(alloc)),
        "read_trace" => Some(read_history(alloc)),
        "read_script" => Some(read_events(alloc)),
        _ => None,
    }
}

// Room for any of these texts.
const ROOM: usize = 1024;

// What a writing answers, and what it has written.
fn written(answer: Result<(), ReportError>, text: &[u8], wanted: &str) -> Attempt {
    match answer {
        Ok(()) => Ok(text == wanted.as_bytes()),
        Err(ReportError::Memory) => Err(Refused::Told),
        Err(_) => Ok(false),
    }
}

/// The ten entries are written.
fn write_history(alloc: Global) -> Attempt {
    let mut room = ready(Vec::with_capacity(alloc, ROOM))?;
    let answer = write_trace(alloc, &TEN_ENTRIES, &mut room);
    written(answer, &room, TRACE)
}

/// The fourth of them is written.
fn write_row(alloc: Global) -> Attempt {
    let mut room = ready(Vec::with_capacity(alloc, ROOM))?;
    let [_, _, _, store, ..] = TEN_ENTRIES;
    let answer = write_entry(alloc, &store, &mut room);
    let row = "submit,0,,2,1,stored,0,5,,,violation,1,1\n";
    written(answer, &room, row)
}

/// The summary is written.
fn write_end(alloc: Global) -> Attempt {
    let counts = Counts::of(&TEN_ENTRIES);
    let mut room = ready(Vec::with_capacity(alloc, ROOM))?;
    let answer = write_summary(alloc, &[5], 2, Ending::Exit(5), Some(counts), &mut room);
    written(answer, &room, SUMMARY)
}

/// The trace is read.
fn read_history(alloc: Global) -> Attempt {
    match read_trace(alloc, TRACE.as_bytes()) {
        Ok(entries) => Ok(entries.as_slice() == TEN_ENTRIES.as_slice()),
        Err(ReportError::Memory) => Err(Refused::Told),
        Err(_) => Ok(false),
    }
}

/// The script is read.
fn read_events(alloc: Global) -> Attempt {
    match read_script(alloc, SCRIPT.as_bytes()) {
        Ok(steps) => Ok(steps.len() == 10),
        Err(ReportError::Memory) => Err(Refused::Told),
        Err(_) => Ok(false),
    }
}
