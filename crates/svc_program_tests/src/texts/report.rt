// Streams that fail, and a history that is written and read again. Texts are cases of `svc_cases`.

mod round_trips;
mod streams;

use self::round_trips::text_in_memory;
use std::alloc::{AllocError, Global};
use svc_history_laws::Entry;
use svc_samples::{TEN_ENTRIES, TRACE};

// Whether the text of a history is this.
fn is_written(alloc: Global, history: &[Entry], wanted: &str) -> bool {
    match text_in_memory(alloc, history) {
        Ok(text) => text.as_slice() == wanted.as_bytes(),
        Err(_) => false,
    }
}

// The entries of the history, a hundred times over.
fn long_history(alloc: Global) -> Result<Vec<Entry>, AllocError> {
    TEN_ENTRIES.repeat(alloc, 100)
}

// The trace of that.
fn long_trace(alloc: Global) -> Result<String, AllocError> {
    let (_, rows) = TRACE.split_once('\n').unwrap_or((TRACE, ""));
    let rows = rows.repeat(alloc, 99)?;
    format!(in alloc; "{TRACE}{rows}")
}
