// The marks of a picture: what each entry shown did.

ghost use Rattle.std.specs.Prelude.{◌≡◌, ◌+◌, ◌≤◌, ◌++◌, None, Some, OnOk, IfOk, length};
ghost use Rattle.svc_base.specs.declared.config.TheConstants.{MAX_EVENTS};
ghost use Rattle.svc_task_runs.specs.Runs.{is_number};
ghost use Rattle.svc_marks.specs.Marks.{arrow, between, first_bar, first_where, handed_by, is_given, is_over};
ghost use Rattle.svc_marks.specs.Marks.{is_same_word, is_taken, is_victim, kind_of, left_at, marks_by, marks_of, shape};
ghost use Rattle.svc_marks.specs.Marks.{squashed, takes, taken, task_at};
ghost use Rattle.svc_marks.specs.Stores.{last_store};

use crate::bars::{Bar, Window};
use crate::stores::LastStores;
use std::alloc::{AllocError, Global};
use svc_base::{UnitId, WordAddr};
use svc_history_laws::{CutKind, Entry, ReplyKind, ServedKind};
use svc_task_runs::TaskRun;

/// What a mark shows.
#[derive(Clone, Copy)]
pub enum MarkKind {
    /// A word was loaded.
    Load,
    /// A word was stored.
    Store,
    /// A word was output.
    PutOut,
    /// A line was replaced.
    Replace,
    /// A task was committed.
    Commit,
    /// A read was given another unit's version: an arrow from where that was stored.
    Handed,
    /// A store found that a task had read the word too early: an arrow to that read.
    Squash,
}

/// A place in the picture.
#[derive(Clone, Copy)]
pub struct Spot {
    /// The unit.
    pub lane: UnitId,
    /// The index of an entry; none if that comes before those shown.
    pub place: Option<u64>,
}

/// A mark of the picture.
#[derive(Clone, Copy)]
pub struct Mark {
    /// What it shows.
    pub kind: MarkKind,
    /// The entry that it shows; it stands on that unit's lane.
    pub entry: Entry,
    /// The index of that entry.
    pub place: u64,
    /// The task of that entry, with its number and its fate.
    pub task: Option<TaskRun>,
    /// The other end of an arrow.
    pub other: Option<Spot>,
}

// The kind of mark that the reply makes, if any.
fn kind_of(reply: ReplyKind) -> Option<MarkKind>
    ensures { result ≡ kind_of reply }
{
    match reply {
        ReplyKind::Loaded => Some(MarkKind::Load),
        ReplyKind::Stored => Some(MarkKind::Store),
        ReplyKind::Emitted => Some(MarkKind::PutOut),
        ReplyKind::Replaced => Some(MarkKind::Replace),
        ReplyKind::Committed => Some(MarkKind::Commit),
        _ => None,
    }
}

// Both words are there, and are the same.
fn is_same_word(first: Option<WordAddr>, second: Option<WordAddr>) -> bool
    ensures { result ≡ is_same_word first second }
{
    match (first, second) {
        (Some(first), Some(second)) => first.0 == second.0,
        _ => false,
    }
}

// The read was given another unit's version.
fn is_given(served: Option<ServedKind>) -> bool
    ensures { result ≡ is_given served }
{
    match served {
        Some(ServedKind::Version | ServedKind::Spill | ServedKind::Committed) => true,
        _ => false,
    }
}

// The read was served, and not by the task's own version.
fn is_taken(served: Option<ServedKind>) -> bool
    ensures { result ≡ is_taken served }
{
    match served {
        None | Some(ServedKind::Hit) => false,
        Some(_) => true,
    }
}

// The entry is a read of the word by the unit that another supplier than its own version served.
fn takes(unit: UnitId, word: Option<WordAddr>, entry: &Entry) -> bool
    ensures { result ≡ takes unit word entry.now }
{
    is_taken(entry.served) && entry.unit.0 == unit.0 && is_same_word(entry.addr, word)
}

// The index of the first of these entries by which the unit took the word from elsewhere.
#[tactic(auto, using(crate::proofs::Searching::entry_found))]
fn taken_at(entries: &[Entry], unit: UnitId, word: Option<WordAddr>, from: u64) -> Option<u64>
    requires few { from + length entries.now ≤ MAX_EVENTS }
    ensures { result ≡ first_where (takes unit word) from entries.now }
{
    let mut at = from;
    for entry in entries {
        if takes(unit, word, entry) {
            return Some(at);
        }
        at += 1;
    }
    None
}

// The task that runs on a unit while an entry is accepted.
#[tactic(auto, using(crate::proofs::Searching::bar_found))]
fn task_at(bars: &[Bar], unit: u8, at: u64) -> Option<TaskRun>
    ensures { result ≡ task_at bars.now unit at }
{
    for bar in bars {
        if bar.runs(unit, at) {
            return Some(bar.task);
        }
    }
    None
}

// There is a number, and it is this one.
fn is_told(told: Option<u32>, number: u64) -> bool
    ensures { result ≡ is_number told number }
{
    match told {
        Some(told) => u64::from(told) == number,
        None => false,
    }
}

// There is a number, and it is this one.
fn is_index(told: Option<u64>, index: u64) -> bool
    ensures { result ≡ is_number told index }
{
    match told {
        Some(told) => told == index,
        None => false,
    }
}

// The bar of the first task that an entry squashes.
#[tactic(auto, using(crate::proofs::Searching::bar_found))]
fn victim(bars: &[Bar], entry: &Entry, at: u64) -> Option<Bar>
    ensures { result ≡ first_bar (is_victim entry.now at) bars.now }
{
    for bar in bars {
        if is_told(entry.first, bar.task.number) && is_index(bar.task.last, at) {
            return Some(*bar);
        }
    }
    None
}

// Where the version that the entry's read was given was stored, if it was another unit's.
fn handed_by(stores: &LastStores, entry: &Entry) -> Option<Spot>
    ensures { result ≡ handed_by (last_store stores.now) entry.now entry.now.from }
{
    let lane = entry.from?;
    if !is_given(entry.served) {
        return None;
    }
    Some(Spot {
        lane,
        place: stores.last(lane, entry.addr),
    })
}

// The first entry, from one index on and before another, by which the unit took the word from elsewhere.
#[tactic(auto, using(crate::proofs::Searching::no_entry_between))]
fn taken_between(
    entries: &[Entry],
    unit: UnitId,
    word: Option<WordAddr>,
    from: u64,
    to: u64,
) -> Option<u64>
    requires few { length entries.now ≤ MAX_EVENTS }
    requires inside { to ≤ length entries.now }
    ensures { result ≡ first_where (takes unit word) from (between from to entries.now) }
{
    if to < from {
        return None;
    }
    taken_at(&entries[from as usize..to as usize], unit, word, from)
}

// Where the task of a bar first took the entry's word from elsewhere.
fn spot_in(entries: &[Entry], at: u64, entry: &Entry, bar: &Bar) -> Option<Spot>
    requires few { length entries.now ≤ MAX_EVENTS }
    requires inside { at ≤ length entries.now }
    ensures { result ≡ taken entries.now at entry.now (Some bar.now) }
{
    let lane = bar.task.unit;
    let place = taken_between(entries, lane, entry.addr, bar.start, at);
    Some(Spot { lane, place })
}

// Where the first task that the entry's store squashed had read the word too early.
fn squashed_at(entries: &[Entry], bars: &[Bar], at: u64, entry: &Entry) -> Option<Spot>
    requires few { length entries.now ≤ MAX_EVENTS }
    requires inside { at ≤ length entries.now }
    ensures { result ≡ squashed entries.now bars.now at entry.now entry.now.cause }
{
    match entry.cause {
        Some(CutKind::Violation) => {
            let bar = victim(bars, entry, at)?;
            spot_in(entries, at, entry, &bar)
        }
        _ => None,
    }
}

// Adds the mark of a reply, if it has one.
fn push_shape(bars: &[Bar], at: u64, entry: &Entry, marks: &mut Vec<Mark>) -> Result<(), AllocError>
    ensures { OnOk result (marks.new.items ≡ marks.old.items
        ++ shape bars.now at entry.now (kind_of entry.now.reply)) }
{
    if let Some(kind) = kind_of(entry.reply) {
        marks.push(Mark {
            kind,
            entry: *entry,
            place: at,
            task: task_at(bars, entry.unit.0, at),
            other: None,
        })?;
    }
    Ok(())
}

// Adds an arrow, if it has another end.
fn push_arrow(
    kind: MarkKind,
    bars: &[Bar],
    at: u64,
    entry: &Entry,
    other: Option<Spot>,
    marks: &mut Vec<Mark>,
) -> Result<(), AllocError>
    ensures { OnOk result (marks.new.items ≡ marks.old.items ++ arrow kind bars.now at entry.now other) }
{
    if let Some(spot) = other {
        marks.push(Mark {
            kind,
            entry: *entry,
            place: at,
            task: task_at(bars, entry.unit.0, at),
            other: Some(spot),
        })?;
    }
    Ok(())
}

// Adds the marks of the entry at an index.
fn push_marks(
    entries: &[Entry],
    stores: &LastStores,
    bars: &[Bar],
    at: u64,
    entry: &Entry,
    marks: &mut Vec<Mark>,
) -> Result<(), AllocError>
    requires few { length entries.now ≤ MAX_EVENTS }
    requires inside { at ≤ length entries.now }
    ensures { OnOk result (marks.new.items ≡ marks.old.items
        ++ marks_by (last_store stores.now) entries.now bars.now at entry.now) }
{
    push_shape(bars, at, entry, marks)?;
    push_arrow(
        MarkKind::Handed,
        bars,
        at,
        entry,
        handed_by(stores, entry),
        marks,
    )?;
    push_arrow(
        MarkKind::Squash,
        bars,
        at,
        entry,
        squashed_at(entries, bars, at, entry),
        marks,
    )
}

// The bar's task was decided before an index, so the bar has ended there.
fn is_over(bar: &Bar, at: u64) -> bool
    ensures { result ≡ is_over at bar.now }
{
    match bar.task.last {
        Some(last) => last < at && bar.end < at,
        None => false,
    }
}

// The bars without the first ones that are over. Tasks are in the order in which they were decided, so few remain
// before those that run.
fn left_at(bars: &[Bar], at: u64) -> &[Bar]
    ensures { result.now ≡ left_at at bars.now }
{
    for index in 0..bars.len() {
        if !is_over(&bars[index], at) {
            return &bars[index..];
        }
    }
    &[]
}

/// The marks of the entries shown, in their order.
///
/// Errors: [`AllocError`], if memory runs out.
pub fn marks_of(
    alloc: Global,
    entries: &[Entry],
    window: &Window,
    bars: &[Bar],
) -> Result<Vec<Mark>, AllocError>
    requires few { length entries.now ≤ MAX_EVENTS }
    requires inside { window.now.to ≤ length entries.now }
    ensures { IfOk result (λ marks. marks.items ≡ marks_of entries.now window.now bars.now) }
{
    let mut marks = Vec::new(alloc);
    let mut stores = LastStores::none(alloc);
    let mut left = bars;
    for at in window.from..window.to {
        let entry = &entries[at as usize];
        left = left_at(left, at);
        push_marks(entries, &stores, left, at, entry, &mut marks)?;
        stores.note(at, entry)?;
    }
    Ok(marks)
}
