// The events of marks.

ghost use Rattle.std.specs.Prelude.{◌≡◌, ◌++◌, OnOk, flat_map};
ghost use Rattle.svc_export.specs.Chrome.{commit_instant, mark_event, mark_fields, mark_instant, some_flow};
ghost use Rattle.svc_export.specs.Chrome.{version_flow, violation_flow};

use crate::events::{
    put_event_end, put_flow, put_instant, put_number, put_supplier, put_task, put_word,
};
use crate::flows::{Flow, Way};
use std::alloc::AllocError;
use svc_marks::{Mark, MarkKind, Spot};

// A value, if there is one.
fn value(word: Option<u32>) -> Option<u64>
    ensures { result ≡ word }
{
    match word {
        Some(word) => Some(u64::from(word)),
        None => None,
    }
}

// Adds what an entry's mark says of its task and its word.
#[tactic(auto, unfolding(crate::specs::Chrome::mark_fields))]
fn put_mark_fields(mark: &Mark, text: &mut Vec<u8>) -> Result<(), AllocError>
    ensures { OnOk result (text.new.items ≡ text.old.items ++ mark_fields mark.now) }
{
    put_task(text, mark.task)?;
    put_word(text, mark.entry.addr)?;
    put_number(text, "value", value(mark.entry.word))?;
    put_supplier(text, mark.entry.served)?;
    Ok(())
}

// Adds a load, a store or an output word.
#[tactic(auto, unfolding(crate::specs::Chrome::mark_instant))]
fn put_mark_instant(name: &str, mark: &Mark, text: &mut Vec<u8>) -> Result<(), AllocError>
    ensures { OnOk result (text.new.items ≡ text.old.items ++ mark_instant name.now mark.now) }
{
    put_instant(text, name, mark.place, u64::from(mark.entry.unit.0))?;
    put_mark_fields(mark, text)?;
    put_event_end(text)?;
    Ok(())
}

// Adds a commit, with the number of its task.
#[tactic(auto, unfolding(crate::specs::Chrome::commit_instant))]
fn put_commit(mark: &Mark, text: &mut Vec<u8>) -> Result<(), AllocError>
    ensures { OnOk result (text.new.items ≡ text.old.items ++ commit_instant mark.now) }
{
    put_instant(text, "commit", mark.place, u64::from(mark.entry.unit.0))?;
    put_number(text, "task", value(mark.entry.word))?;
    put_event_end(text)?;
    Ok(())
}

// A version's way to its reader, if the entry that stored it is known.
fn version_flow(mark: &Mark, other: Option<Spot>) -> Option<Flow>
    ensures { result ≡ version_flow mark.now other }
{
    let spot = other?;
    let store = spot.place?;
    Some(Flow {
        way: Way::Version,
        number: mark.place,
        store,
        storer: spot.lane,
        reader: mark.entry.unit,
        read: Some(mark.place),
        word: mark.entry.addr,
    })
}

// From a store to the first task that it squashed.
fn violation_flow(mark: &Mark, other: Option<Spot>) -> Option<Flow>
    ensures { result ≡ violation_flow mark.now other }
{
    let spot = other?;
    Some(Flow {
        way: Way::Violation,
        number: mark.place,
        store: mark.place,
        storer: mark.entry.unit,
        reader: spot.lane,
        read: spot.place,
        word: mark.entry.addr,
    })
}

// Adds a flow, if there is one.
fn put_some_flow(flow: Option<Flow>, text: &mut Vec<u8>) -> Result<(), AllocError>
    ensures { OnOk result (text.new.items ≡ text.old.items ++ some_flow flow) }
{
    match flow {
        Some(flow) => put_flow(text, &flow),
        None => Ok(()),
    }
}

// Adds the event of a mark.
fn put_mark(mark: &Mark, text: &mut Vec<u8>) -> Result<(), AllocError>
    ensures { OnOk result (text.new.items ≡ text.old.items ++ mark_event mark.now) }
{
    match mark.kind {
        MarkKind::Load => put_mark_instant("load", mark, text),
        MarkKind::Store => put_mark_instant("store", mark, text),
        MarkKind::PutOut => put_mark_instant("output", mark, text),
        MarkKind::Commit => put_commit(mark, text),
        MarkKind::Replace => Ok(()),
        MarkKind::Handed => put_some_flow(version_flow(mark, mark.other), text),
        MarkKind::Squash => put_some_flow(violation_flow(mark, mark.other), text),
    }
}

/// Adds the events of marks.
pub(crate) fn put_marks(marks: &[Mark], text: &mut Vec<u8>) -> Result<(), AllocError>
    ensures { OnOk result (text.new.items ≡ text.old.items ++ flat_map mark_event marks.now) }
{
    for mark in marks {
        put_mark(mark, text)?;
    }
    Ok(())
}
