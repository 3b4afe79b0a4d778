// Histories that are written and read again, by the contracts alone.

ghost use Rattle.std.specs.Prelude.{◌≡◌, IfOk};
ghost use Rattle.std.specs.List.{AllByRecursion};
ghost use Rattle.svc_report.specs.Trace.{HasRow, text_of};

use std::alloc::Global;
use svc_history_laws::Entry;
use svc_report::{ReportError, read_trace, write_trace};
use svc_samples::TEN_ENTRIES;

/// The text of a history, in memory.
pub fn text_in_memory(alloc: Global, entries: &[Entry]) -> Result<Vec<u8>, ReportError>
    ensures { IfOk result (λ text. text.items ≡ text_of entries.now) }
{
    let mut text = Vec::new(alloc);
    write_trace(alloc, entries, &mut text)?;
    Ok(text)
}

// A history, written and read again.
fn read_again(alloc: Global, entries: &[Entry]) -> Result<Vec<Entry>, ReportError>
    ensures { AllByRecursion HasRow entries.now → IfOk result (λ read. read.items ≡ entries.now) }
{
    let text = text_in_memory(alloc, entries)?;
    read_trace(alloc, text.as_slice())
}

// Whether a history is written, and read again as it was.
fn is_read_again(alloc: Global, history: &[Entry]) -> bool {
    match read_again(alloc, history) {
        Ok(read) => read.as_slice() == history,
        Err(_) => false,
    }
}

#[test]
fn a_history_is_read_again(rt: HostRuntime) {
    assert!(rt; is_read_again(rt.alloc(), &TEN_ENTRIES));
}
