// Writers and readers that fail.

use super::{is_written, long_history, long_trace};
use crate::texts::failing::{FailingReader, FailingWriter};
use std::alloc::{AllocError, Global};
use svc_core_laws::Ending;
use svc_history_laws::Entry;
use svc_report::{Counts, ReportError, read_trace, write_summary, write_trace};
use svc_samples::{SUMMARY, TEN_ENTRIES, TRACE};
use svc_script::read_script;

// Whether writing a trace fails when the writer does, after this many bytes of its text.
fn trace_breaks(alloc: Global, history: &[Entry], text: &str, left: usize) -> bool {
    let mut writer = FailingWriter::after(text.as_bytes(), left);
    let written = write_trace(alloc, history, &mut writer);
    written == Err(ReportError::Write) && writer.is_broken()
}

#[test]
fn a_trace_over_a_writer_that_fails(rt: HostRuntime) {
    for left in 0..TRACE.len() {
        assert!(rt; trace_breaks(rt.alloc(), &TEN_ENTRIES, TRACE, left));
    }
    // The entries are unchanged.
    assert!(rt; is_written(rt.alloc(), &TEN_ENTRIES, TRACE));
}

// Whether writing the long trace fails when the writer does: after each of these numbers of bytes, and before the last
// one.
fn long_trace_breaks(alloc: Global, places: &[usize]) -> Result<bool, AllocError> {
    let history = long_history(alloc)?;
    let text = long_trace(alloc)?;
    let mut breaks = trace_breaks(alloc, &history, &text, text.len().saturating_sub(1));
    for left in places {
        breaks &= trace_breaks(alloc, &history, &text, *left);
    }
    Ok(breaks)
}

// Whether the long trace is written over a writer that would fail after its last byte.
fn long_trace_is_whole(alloc: Global) -> Result<bool, AllocError> {
    let history = long_history(alloc)?;
    let text = long_trace(alloc)?;
    let mut writer = FailingWriter::after(text.as_bytes(), text.len());
    let written = write_trace(alloc, &history, &mut writer);
    Ok(written == Ok(()) && writer.is_whole())
}

#[test]
fn a_long_trace_over_a_writer_that_fails(rt: HostRuntime) {
    let places = [0, 8191, 8192, 8193, 16384, 24000];
    assert!(rt; long_trace_breaks(rt.alloc(), &places) == Ok(true));
    assert!(rt; long_trace_is_whole(rt.alloc()) == Ok(true));
}

// Whether writing the summary of the run fails when the writer does, after this many bytes of its text.
fn summary_breaks(alloc: Global, counts: Counts, left: usize) -> bool {
    let mut writer = FailingWriter::after(SUMMARY.as_bytes(), left);
    let written = write_summary(alloc, &[5], 2, Ending::Exit(5), Some(counts), &mut writer);
    written == Err(ReportError::Write) && writer.is_broken()
}

// Whether the summary of the run is the text that it should be.
fn is_summarized(alloc: Global, counts: Counts) -> bool {
    let mut text = Vec::new(alloc);
    let written = write_summary(alloc, &[5], 2, Ending::Exit(5), Some(counts), &mut text);
    written == Ok(()) && text.as_slice() == SUMMARY.as_bytes()
}

#[test]
fn a_summary_over_a_writer_that_fails(rt: HostRuntime) {
    let counts = Counts::of(&TEN_ENTRIES);
    for left in 0..SUMMARY.len() {
        assert!(rt; summary_breaks(rt.alloc(), counts, left));
    }
    assert!(rt; is_summarized(rt.alloc(), counts));
}

// Whether reading a trace fails when the reader does, after this many bytes.
fn trace_fails(alloc: Global, text: &[u8], left: usize) -> bool {
    matches!(
        read_trace(alloc, FailingReader::after(text, left)),
        Err(ReportError::Read)
    )
}

#[test]
fn a_trace_over_a_reader_that_fails(rt: HostRuntime) {
    let text = TRACE.as_bytes();
    for left in 0..text.len() + 1 {
        assert!(rt; trace_fails(rt.alloc(), text, left));
    }
}

// Whether reading a script fails when the reader does, after this many bytes.
fn script_fails(alloc: Global, text: &[u8], left: usize) -> bool {
    matches!(
        read_script(alloc, FailingReader::after(text, left)),
        Err(ReportError::Read)
    )
}

#[test]
fn a_script_over_a_reader_that_fails(rt: HostRuntime) {
    let text = b"kind,unit,arg\ngive,0,\ncommit,9,\n".as_slice();
    for left in 0..text.len() + 1 {
        assert!(rt; script_fails(rt.alloc(), text, left));
    }
}

// Whether an error is reported as this text.
fn is_told(alloc: Global, error: ReportError, wanted: &str) -> bool {
    match format!(in alloc; "{error}") {
        Ok(text) => text.as_str() == wanted,
        Err(_) => false,
    }
}

#[test]
fn the_numbers_and_texts_of_faults(rt: HostRuntime) {
    let bad = ReportError::Row { row: 4, column: 7 };
    assert!(rt; ReportError::Memory.number() == 1);
    assert!(rt; ReportError::Write.number() == 2);
    assert!(rt; ReportError::Read.number() == 3);
    assert!(rt; bad.number() == 4);
    assert!(rt; is_told(rt.alloc(), bad, "row 4 column 7"));
}
