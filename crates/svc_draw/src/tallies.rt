// What stands in each cell of a picture's grid, of one kind of things.

ghost use Rattle.std.specs.Prelude.{◌≡◌, ◌<◌};
ghost use Rattle.svc_draw.specs.Tallies.{and_one, bars_tallied, mark_cell, marks_tallied, none, number_of, one_bar};
ghost use Rattle.svc_draw.specs.Tallies.{one_mark, stripe_of, with_bar, with_mark, with_one};

use svc_marks::{Bar, Mark, MarkKind, Spot};
use svc_sheet::Frame;
use svc_task_runs::Fate;

/// As many things as are counted in a cell; a trace has fewer.
pub(crate) const MOST: u64 = 1_000_000_000;

/// The things of a kind that stand in a cell.
#[derive(Clone, Copy)]
pub(crate) struct Tally {
    /// How many they are.
    pub(crate) count: u64,
    /// The unit of the first one.
    pub(crate) lane: u8,
    /// The entry at which the first one begins.
    pub(crate) first: u64,
    /// The entry at which the last one ends.
    pub(crate) last: u64,
    /// The other end of the first one's arrow.
    pub(crate) other: Option<Spot>,
}

// Nothing.
fn none() -> Tally
    ensures { result ≡ none }
{
    Tally {
        count: 0,
        lane: 0,
        first: 0,
        last: 0,
        other: None,
    }
}

// A mark.
fn one_mark(mark: &Mark) -> Tally
    ensures { result ≡ one_mark mark.now }
{
    Tally {
        count: 1,
        lane: mark.entry.unit.0,
        first: mark.place,
        last: mark.place,
        other: mark.other,
    }
}

// A bar.
fn one_bar(bar: &Bar) -> Tally
    ensures { result ≡ one_bar bar.now }
{
    Tally {
        count: 1,
        lane: bar.task.unit.0,
        first: bar.start,
        last: bar.end,
        other: None,
    }
}

// These and one more thing, which comes after them.
fn and_one(tally: &Tally, one: &Tally) -> Tally
    ensures { result ≡ and_one tally.now one.now }
{
    if tally.count == 0 {
        return *one;
    }
    Tally {
        count: tally.count.saturating_add(1).min(MOST),
        lane: tally.lane,
        first: tally.first,
        last: one.last,
        other: tally.other,
    }
}

// Adds a thing to a cell.
fn add(cell: u64, one: &Tally, tallies: &mut [Tally; 512])
    requires { cell < 512 }
    ensures { tallies.new ≡ with_one cell one.now tallies.old }
{
    let cell = cell as usize;
    tallies[cell] = and_one(&tallies[cell], one);
}

// The number of a kind.
fn number_of(kind: MarkKind) -> u8
    ensures { result ≡ number_of kind }
{
    match kind {
        MarkKind::Commit => 0,
        MarkKind::Handed => 1,
        MarkKind::Squash => 2,
        MarkKind::Load => 3,
        MarkKind::Store => 4,
        MarkKind::PutOut => 5,
        MarkKind::Replace => 6,
    }
}

// The cell of a mark.
#[tactic(auto, unfolding(crate::specs::Tallies::mark_cell))]
fn mark_cell(frame: &Frame<'_>, mark: &Mark) -> u64
    ensures value { result ≡ mark_cell frame.now.sheet mark.now }
    ensures few { result < 512 }
{
    if number_of(mark.kind) == 0 {
        frame.cell(0, mark.place)
    } else {
        frame.cell(mark.entry.unit.0, mark.place)
    }
}

// Adds a mark to its cell, if it is of a kind.
fn add_mark(frame: &Frame<'_>, kind: MarkKind, mark: &Mark, tallies: &mut [Tally; 512])
    ensures { tallies.new ≡ with_mark frame.now.sheet kind mark.now tallies.old }
{
    if number_of(mark.kind) == number_of(kind) {
        add(mark_cell(frame, mark), &one_mark(mark), tallies);
    }
}

/// The marks of a kind in each cell.
pub(crate) fn tally_marks(frame: &Frame<'_>, kind: MarkKind, marks: &[Mark]) -> [Tally; 512]
    ensures { result ≡ marks_tallied frame.now.sheet kind marks.now }
{
    let mut tallies = [none(); 512];
    for mark in marks {
        add_mark(frame, kind, mark, &mut tallies);
    }
    tallies
}

/// The number of a fate, which is that of its stripe.
pub(crate) fn stripe_of(fate: Fate) -> u8
    ensures { result ≡ stripe_of fate }
{
    match fate {
        Fate::Committed => 0,
        Fate::Violation => 1,
        Fate::Guess => 2,
        Fate::Cancel => 3,
        Fate::Active => 4,
    }
}

// Adds a bar to its cell, if it is short and of a fate.
fn add_bar(frame: &Frame<'_>, fate: Fate, bar: &Bar, tallies: &mut [Tally; 512])
    ensures { tallies.new ≡ with_bar frame.now.sheet fate bar.now tallies.old }
{
    if frame.is_short(bar) && stripe_of(bar.task.fate) == stripe_of(fate) {
        add(
            frame.cell(bar.task.unit.0, bar.start),
            &one_bar(bar),
            tallies,
        );
    }
}

/// The short bars of a fate in each cell.
pub(crate) fn tally_bars(frame: &Frame<'_>, fate: Fate, bars: &[Bar]) -> [Tally; 512]
    ensures { result ≡ bars_tallied frame.now.sheet fate bars.now }
{
    let mut tallies = [none(); 512];
    for bar in bars {
        add_bar(frame, fate, bar, &mut tallies);
    }
    tallies
}
