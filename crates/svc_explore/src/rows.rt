// The rows of an exploration.

ghost use Rattle.std.specs.Prelude.{◌≡◌, ◌++◌, OnOk, codes};
ghost use Rattle.svc_explore.specs.Rows.{exploration_text, finding_text, row_of, rows_of, totals_text, yes_or_no};

use crate::found::Seen;
use crate::walk::Exploration;
use std::alloc::AllocError;
use svc_observations::put_seen;
use svc_text::{Piece, put_row};

// Adds the row of each observation.
fn put_found(text: &mut Vec<u8>, found: &[Seen]) -> Result<(), AllocError>
    ensures { OnOk result (text.new.items ≡ text.old.items ++ rows_of found.now) }
{
    for seen in found {
        put_one(text, seen)?;
    }
    Ok(())
}

fn put_one(text: &mut Vec<u8>, seen: &Seen) -> Result<(), AllocError>
    ensures { OnOk result (text.new.items ≡ text.old.items ++ row_of seen.now) }
{
    put_seen(text, &seen.what, seen.path.len() as u64 + 1)
}

fn yes_or_no(whole: bool) -> &'static str
    ensures { result.now ≡ yes_or_no whole }
{
    if whole { "yes" } else { "no" }
}

// Adds whether a limit was met.
fn put_whole(text: &mut Vec<u8>, whole: bool) -> Result<(), AllocError>
    ensures { OnOk result (text.new.items ≡ text.old.items ++ (codes "whole," ++ yes_or_no whole ++ codes "\n")) }
{
    "whole,".put(text)?;
    yes_or_no(whole).put(text)?;
    "\n".put(text)
}

fn put_totals(text: &mut Vec<u8>, exploration: &Exploration) -> Result<(), AllocError>
    ensures { OnOk result (text.new.items ≡ text.old.items
        ++ totals_text exploration.now.states exploration.now.moves exploration.now.deepest exploration.now.whole) }
{
    put_row(text, "states", &[exploration.states as u64])?;
    put_row(text, "moves", &[exploration.moves])?;
    put_row(text, "deepest", &[exploration.deepest as u64])?;
    put_whole(text, exploration.whole)
}

/// Adds how far an exploration went, and a row for each observation, in their order.
///
/// Errors: [`AllocError`], if memory runs out.
pub fn put_exploration(text: &mut Vec<u8>, exploration: &Exploration) -> Result<(), AllocError>
    ensures { OnOk result (text.new.items ≡ text.old.items ++ exploration_text exploration.now) }
{
    put_totals(text, exploration)?;
    put_found(text, exploration.found.as_slice())
}

/// Adds how far an exploration went, and the row of the observation that was looked for, if one was found.
///
/// Errors: [`AllocError`], if memory runs out.
pub fn put_finding(
    text: &mut Vec<u8>,
    exploration: &Exploration,
    seen: Option<&Seen>,
) -> Result<(), AllocError>
    ensures { OnOk result (text.new.items ≡ text.old.items ++ finding_text exploration.now seen.entry) }
{
    put_totals(text, exploration)?;
    match seen {
        Some(seen) => put_one(text, seen),
        None => Ok(()),
    }
}
