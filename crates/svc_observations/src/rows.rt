// The rows of observations.

ghost use Rattle.std.specs.Prelude.{◌≡◌, ◌++◌, OnOk, codes, decimal, flat_map};
ghost use Rattle.svc_observations.specs.Rows.{name_of, number_told, numbers_text, reason_of, reason_told};
ghost use Rattle.svc_observations.specs.Rows.{row_of_sighting, seen_row, sight_text, task_text};

use crate::trace::Sighting;
use std::alloc::AllocError;
use svc_explore_laws::{By, Happening, Observation};
use svc_text::{Piece, put_row};

pub(crate) fn name_of(what: Happening) -> &'static str
    ensures { result.now ≡ name_of what }
{
    match what {
        Happening::Begin => "begin",
        Happening::Load => "load",
        Happening::Store => "store",
        Happening::Output => "output",
        Happening::Trap => "trap",
        Happening::Replace => "replace",
        Happening::Commit => "commit",
        Happening::Squash => "squash",
    }
}

// Adds who supplied a word, or why tasks were squashed.
fn put_reason(text: &mut Vec<u8>, by: By) -> Result<(), AllocError>
    ensures { OnOk result (text.new.items ≡ text.old.items ++ reason_of by) }
{
    match by {
        By::Hit => "hit".put(text),
        By::Reuse => "reuse".put(text),
        By::Version(task) => put_version(text, task),
        By::Spill => "spill".put(text),
        By::Committed => "committed".put(text),
        By::Memory => "memory".put(text),
        By::Violation => "violation".put(text),
        By::Guess => "guess".put(text),
        By::Cancel => "cancel".put(text),
    }
}

fn put_version(text: &mut Vec<u8>, task: u64) -> Result<(), AllocError>
    ensures { OnOk result (text.new.items ≡ text.old.items ++ (codes "version:" ++ decimal task)) }
{
    "version:".put(text)?;
    task.put(text)
}

fn put_optional_reason(text: &mut Vec<u8>, by: Option<By>) -> Result<(), AllocError>
    ensures { OnOk result (text.new.items ≡ text.old.items ++ reason_told by) }
{
    match by {
        Some(by) => put_reason(text, by),
        None => Ok(()),
    }
}

fn put_optional(text: &mut Vec<u8>, number: Option<u32>) -> Result<(), AllocError>
    ensures { OnOk result (text.new.items ≡ text.old.items ++ number_told number) }
{
    match number {
        Some(number) => number.put(text),
        None => Ok(()),
    }
}

// Adds what happened, and the task.
fn put_task(text: &mut Vec<u8>, what: &Observation) -> Result<(), AllocError>
    ensures { OnOk result (text.new.items ≡ text.old.items ++ task_text what.now) }
{
    name_of(what.what).put(text)?;
    ",".put(text)?;
    what.task.put(text)
}

// Adds the word and the value.
fn put_numbers(text: &mut Vec<u8>, what: &Observation) -> Result<(), AllocError>
    ensures { OnOk result (text.new.items ≡ text.old.items ++ numbers_text what.now) }
{
    ",".put(text)?;
    put_optional(text, what.word)?;
    ",".put(text)?;
    put_optional(text, what.value)
}

// Adds an observation.
fn put_sight(text: &mut Vec<u8>, what: &Observation) -> Result<(), AllocError>
    ensures { OnOk result (text.new.items ≡ text.old.items ++ sight_text what.now) }
{
    put_task(text, what)?;
    put_numbers(text, what)?;
    ",".put(text)?;
    put_optional_reason(text, what.by)
}

/// Adds the row of an observation, with a number at its end.
///
/// Errors: [`AllocError`], if memory runs out.
pub fn put_seen(text: &mut Vec<u8>, what: &Observation, number: u64) -> Result<(), AllocError>
    ensures { OnOk result (text.new.items ≡ text.old.items ++ seen_row what.now number) }
{
    "seen,".put(text)?;
    put_sight(text, what)?;
    put_row(text, "", &[number])
}

/// Adds the row of each observation of a history, with the number of the entry that first shows it.
///
/// Errors: [`AllocError`], if memory runs out.
pub fn put_sightings(text: &mut Vec<u8>, found: &[Sighting]) -> Result<(), AllocError>
    ensures { OnOk result (text.new.items ≡ text.old.items ++ flat_map row_of_sighting found.now) }
{
    for sighting in found {
        put_seen(text, &sighting.what, sighting.entry)?;
    }
    Ok(())
}
