// The words that a history's entries name: no other word has a line or is spilled.

ghost use Rattle.std.specs.Prelude.{◌≡◌, ◌<◌, ◌≤◌, ◌^◌, ◌++◌, ℕ, false, Option, OnOk, IfOk, All, flat_map, length};
ghost use Rattle.std.specs.Prelude.{replicate};
ghost use Rattle.std.specs.List.{range_with_len};
ghost use Rattle.svc_held.specs.declared.named.Namers.TheVariants.{Nobody};
ghost use Rattle.svc_held.specs.Named.{AreNamed, IsMarked, and_unit, are_some, marked, marked_at, may_have, named_at};
ghost use Rattle.svc_held.specs.Named.{named_by};
ghost use Rattle.svc_span.specs.Span.{is_asked};

use crate::span::bounds;
use std::alloc::{AllocError, Global};
use svc_base::{UnitId, WordAddr};
use svc_history::Entry;
use svc_span::{Span, is_asked};

/// The units whose entries name a word.
#[derive(Clone, Copy)]
pub enum Namers {
    /// None does.
    Nobody,
    /// One alone.
    One(UnitId),
    /// More than one.
    Several,
}

/// A word that entries name, or that is asked for.
#[derive(Clone, Copy)]
pub struct Named {
    /// The word.
    pub word: WordAddr,
    /// Whose entries they are.
    pub by: Namers,
}

impl Namers {
    // These units and one more.
    fn and(self, unit: UnitId) -> Namers
        ensures { result ≡ and_unit self unit }
    {
        match self {
            Namers::Nobody => Namers::One(unit),
            Namers::One(one) => {
                if one.0 == unit.0 {
                    Namers::One(one)
                } else {
                    Namers::Several
                }
            }
            Namers::Several => Namers::Several,
        }
    }

    /// The unit may be one of them.
    pub fn may_have(self, unit: UnitId) -> bool
        ensures { result ≡ may_have unit.0 self }
    {
        match self {
            Namers::Nobody => false,
            Namers::One(one) => unit.0 == one.0,
            Namers::Several => true,
        }
    }

    // There is a word.
    fn are_some(self) -> bool
        ensures { result ≡ are_some self }
    {
        match self {
            Namers::Nobody => false,
            Namers::One(_) | Namers::Several => true,
        }
    }
}

// Marks a word as named by the unit, if there is such a word.
fn mark_word(word: WordAddr, unit: UnitId, marks: &mut [Namers])
    ensures { marks.new ≡ marked_at word.0 unit marks.old }
{
    let at = word.0 as usize;
    if let Some(mark) = marks.get(at) {
        let more = mark.and(unit);
        marks[at] = more;
    }
}

// Marks the word that the entry names, if it names one.
fn mark_entry(entry: &Entry, marks: &mut [Namers])
    ensures { marks.new ≡ marked entry.now marks.old }
{
    if let Some(word) = entry.addr {
        mark_word(word, entry.unit, marks);
    }
}

// Marks the words that the entries name.
fn mark_entries(entries: &[Entry], marks: &mut [Namers])
    requires none { marks.old ≡ replicate (length marks.old) Nobody }
    ensures { IsMarked entries.now (length marks.old) marks.new }
{
    for entry in entries {
        mark_entry(entry, marks);
    }
}

// Adds a word to a list, if it is named or asked for.
fn push_named(
    asked: Option<Span>,
    word: WordAddr,
    by: Namers,
    named: &mut Vec<Named>,
) -> Result<(), AllocError>
    ensures { OnOk result (named.new.items ≡ named.old.items ++ named_by asked word.0 by) }
{
    if by.are_some() || is_asked(asked, word.0) {
        named.push(Named { word, by })?;
    }
    Ok(())
}

// Adds the marked words from one on, up to another, to those before them, if none of these is asked for.
fn list_outside(
    marks: &[Namers],
    from: usize,
    to: usize,
    named: &mut Vec<Named>,
) -> Result<(), AllocError>
    requires few { length marks.now < 2 ^ 32 }
    requires range { from ≤ to }
    requires inside { to ≤ length marks.now }
    ensures { (asked : Option Span) → ((word : ℕ) → from ≤ word → word < to → is_asked asked word ≡ false)
        → named.old.items ≡ flat_map (named_at asked marks.now) (range_with_len 0 from)
        → OnOk result (named.new.items ≡ flat_map (named_at asked marks.now) (range_with_len 0 to)) }
{
    for word in from..to {
        push_named(None, WordAddr(word as u32), marks[word], named)?;
    }
    Ok(())
}

// Adds the words from one on, up to another, that are marked or asked for, to those before them.
fn list_inside(
    marks: &[Namers],
    asked: Option<Span>,
    from: usize,
    to: usize,
    named: &mut Vec<Named>,
) -> Result<(), AllocError>
    requires few { length marks.now < 2 ^ 32 }
    requires range { from ≤ to }
    requires inside { to ≤ length marks.now }
    requires begun { named.old.items ≡ flat_map (named_at asked marks.now) (range_with_len 0 from) }
    ensures { OnOk result (named.new.items ≡ flat_map (named_at asked marks.now) (range_with_len 0 to)) }
{
    for word in from..to {
        push_named(asked, WordAddr(word as u32), marks[word], named)?;
    }
    Ok(())
}

// The words that are marked or asked for, in their order. Whether one is asked for is tested only where some are.
fn list_marked(
    alloc: Global,
    marks: &[Namers],
    asked: Option<Span>,
) -> Result<Vec<Named>, AllocError>
    requires few { length marks.now < 2 ^ 32 }
    ensures { IfOk result
        (λ named. named.items ≡ flat_map (named_at asked marks.now) (range_with_len 0 (length marks.now))) }
{
    let mut named = Vec::new(alloc);
    let (first, end) = bounds(asked, marks.len());
    list_outside(marks, 0, first, &mut named)?;
    list_inside(marks, asked, first, end, &mut named)?;
    list_outside(marks, end, marks.len(), &mut named)?;
    Ok(named)
}

/// The words below this one that the entries name or that are asked for, in their order.
///
/// Errors: [`AllocError`], if memory runs out.
pub(crate) fn named_words(
    alloc: Global,
    entries: &[Entry],
    words: u32,
    asked: Option<Span>,
) -> Result<Vec<Named>, AllocError>
    ensures { IfOk result (λ named. AreNamed entries.now words asked named.items) }
{
    let mut marks = vec![in alloc; Namers::Nobody; words as usize]?;
    mark_entries(entries, &mut marks);
    list_marked(alloc, &marks, asked)
}
