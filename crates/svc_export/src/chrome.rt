// A history as a trace of events.

ghost use Rattle.std.specs.Prelude.{◌≡◌, ◌++◌, ◌≤◌, OnOk, flat_map, length};
ghost use Rattle.svc_base.specs.declared.config.TheConstants.{MAX_EVENTS};
ghost use Rattle.svc_export.specs.Chrome.{bar_slice, chrome_of, chrome_text, count_of, events, replaced_by};
ghost use Rattle.svc_export.specs.Chrome.{replacement, replacements, tracks};

use crate::events::{
    put_closing, put_event_end, put_instant, put_opening, put_slice, put_track, put_word,
};
use crate::mark_events::put_marks;
use std::alloc::{AllocError, Global};
use svc_history_laws::{Entry, ReplyKind};
use svc_marks::{Bar, Mark, Window, bars_of, marks_of};

// How many entries a bar spans, of so many, with the one that decides its task's fate.
fn count_of(total: u64, bar: &Bar) -> u64
    ensures { result ≡ count_of total bar.now }
{
    let end = bar.end.saturating_add(1).min(total);
    end.saturating_sub(bar.start)
}

// Adds the slice of a bar.
#[tactic(auto, unfolding(crate::specs::Chrome::bar_slice))]
fn put_bar(total: u64, bar: &Bar, text: &mut Vec<u8>) -> Result<(), AllocError>
    ensures { OnOk result (text.new.items ≡ text.old.items ++ bar_slice total bar.now) }
{
    let task = &bar.task;
    let count = count_of(total, bar);
    let unit = u64::from(task.unit.0);
    let address = u64::from(task.entry);
    let fate = task.fate.word();
    put_slice(text, task.number, address, fate, unit, bar.start, count)
}

// Adds the slices of bars.
fn put_bars(total: u64, bars: &[Bar], text: &mut Vec<u8>) -> Result<(), AllocError>
    ensures { OnOk result (text.new.items ≡ text.old.items ++ flat_map (bar_slice total) bars.now) }
{
    for bar in bars {
        put_bar(total, bar, text)?;
    }
    Ok(())
}

// Adds a replacement.
#[tactic(auto, unfolding(crate::specs::Chrome::replacement))]
fn put_replacement(at: u64, entry: &Entry, text: &mut Vec<u8>) -> Result<(), AllocError>
    ensures { OnOk result (text.new.items ≡ text.old.items ++ replacement at entry.now) }
{
    put_instant(text, "replacement", at, u64::from(entry.unit.0))?;
    put_word(text, entry.addr)?;
    put_event_end(text)?;
    Ok(())
}

// Adds an entry's replacement, if it is one.
fn put_if_replaced(at: u64, entry: &Entry, text: &mut Vec<u8>) -> Result<(), AllocError>
    ensures { OnOk result (text.new.items ≡ text.old.items ++ replaced_by at entry.now entry.now.reply) }
{
    match entry.reply {
        ReplyKind::Replaced => put_replacement(at, entry, text),
        _ => Ok(()),
    }
}

// Adds the replacements of a history.
fn put_replacements(entries: &[Entry], text: &mut Vec<u8>) -> Result<(), AllocError>
    ensures { OnOk result (text.new.items ≡ text.old.items ++ replacements 0 entries.now) }
{
    for index in 0..entries.len() {
        put_if_replaced(index as u64, &entries[index], text)?;
    }
    Ok(())
}

// Adds the names of the units' tracks.
#[tactic(auto, unfolding(crate::specs::Chrome::tracks))]
fn put_tracks(units: u32, text: &mut Vec<u8>) -> Result<(), AllocError>
    ensures { OnOk result (text.new.items ≡ text.old.items ++ tracks units) }
{
    for unit in 0..units {
        put_track(text, u64::from(unit))?;
    }
    Ok(())
}

// Adds the events of a history with these bars and marks.
#[tactic(auto, unfolding(crate::specs::Chrome::events))]
fn put_events(
    entries: &[Entry],
    bars: &[Bar],
    marks: &[Mark],
    text: &mut Vec<u8>,
) -> Result<(), AllocError>
    ensures { OnOk result (text.new.items ≡ text.old.items ++ events entries.now bars.now marks.now) }
{
    put_bars(entries.len() as u64, bars, text)?;
    put_marks(marks, text)?;
    put_replacements(entries, text)?;
    Ok(())
}

// Adds the file of a history with these bars and marks.
#[tactic(auto, unfolding(crate::specs::Chrome::chrome_text))]
fn put_file(
    entries: &[Entry],
    units: u32,
    bars: &[Bar],
    marks: &[Mark],
    text: &mut Vec<u8>,
) -> Result<(), AllocError>
    ensures { OnOk result (text.new.items ≡ text.old.items ++ chrome_text entries.now units bars.now marks.now) }
{
    put_opening(text)?;
    put_tracks(units, text)?;
    put_events(entries, bars, marks, text)?;
    put_closing(text)?;
    Ok(())
}

/// Adds the trace of events of a history.
#[tactic(auto, unfolding(crate::specs::Chrome::chrome_of))]
pub(crate) fn put_chrome(
    alloc: Global,
    entries: &[Entry],
    units: u32,
    text: &mut Vec<u8>,
) -> Result<(), AllocError>
    requires few { length entries.now ≤ MAX_EVENTS }
    ensures { OnOk result (text.new.items ≡ text.old.items ++ chrome_of entries.now units) }
{
    let window = Window {
        from: 0,
        to: entries.len() as u64,
    };
    let bars = bars_of(alloc, entries, &window)?;
    let marks = marks_of(alloc, entries, &window, &bars)?;
    put_file(entries, units, &bars, &marks, text)?;
    Ok(())
}
