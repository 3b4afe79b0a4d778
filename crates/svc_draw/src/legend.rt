// What surrounds the bars and marks of a picture: its legend, its lanes and its axis.

ghost use Rattle.std.specs.Prelude.{◌≡◌, ◌++◌, ◌≤◌, ◌<◌, ◌^◌, OnOk};
ghost use Rattle.std.specs.List.{find};
ghost use Rattle.svc_base.specs.declared.config.TheConstants.{MAX_EVENTS};
ghost use Rattle.svc_sheet.specs.Frame.{shown};
ghost use Rattle.svc_draw.specs.Legend.{arrow_samples, axis, fate_samples, has_room, hatchings, head, lane_fill};
ghost use Rattle.svc_draw.specs.Legend.{lane_text, lanes, legend, load_sample, mark_samples, names_told, number_at};
ghost use Rattle.svc_draw.specs.Legend.{sample_of, step_for, supplier_sample, supplier_samples, words_below};

use std::alloc::AllocError;
use svc_history_laws::ServedKind;
use svc_report::Word;
use svc_shapes::sheet::WIDTH;
use svc_shapes::{
    Point, axis_words, bar_words, bold_sample, border, commit_sample, fate_sample, hatching,
    headline, lane, mark_sample, opening, paper_text, thin_sample, tick,
};
use svc_sheet::{Frame, fill_of, letter_of, name_of};
use svc_task_runs::Fate;

// The steps between two numbers of the axis.
const STEPS: [u32; 16] = [
    1, 2, 5, 10, 20, 50, 100, 200, 500, 1_000, 2_000, 5_000, 10_000, 20_000, 50_000, 100_000,
];

// Writes the hatchings of the fates that have one.
#[tactic(auto, unfolding(crate::specs::Legend::hatchings))]
fn write_hatchings(text: &mut Vec<u8>) -> Result<(), AllocError>
    ensures { OnOk result (text.new.items ≡ text.old.items ++ hatchings) }
{
    let turned = " patternTransform='rotate(45)'";
    let stripe = "<rect width='2' height='8' fill='#d9655a'/>";
    hatching(text, "violation", turned, "#fbd5d0", stripe)?;
    let turned = " patternTransform='rotate(135)'";
    let stripe = "<rect width='2' height='8' fill='#c9922e'/>";
    hatching(text, "guess", turned, "#fdeac3", stripe)?;
    let dot = "<circle cx='4' cy='4' r='2' fill='#7a5bb0'/>";
    hatching(text, "cancel", "", "#e6ddf3", dot)?;
    let line = "<rect width='8' height='1' y='4' fill='#9ab4d0'/>";
    hatching(text, "active", "", "#ffffff", line)?;
    Ok(())
}

/// Writes what each picture begins with.
#[tactic(auto, unfolding(crate::specs::Legend::head))]
pub(crate) fn write_head(frame: &Frame<'_>, text: &mut Vec<u8>) -> Result<(), AllocError>
    ensures { OnOk result (text.new.items ≡ text.old.items ++ head frame.now.sheet) }
{
    opening(text, frame.bottom())?;
    write_hatchings(text)?;
    paper_text(text, frame.bottom())?;
    Ok(())
}

// Writes a sample of a fate.
#[tactic(auto, unfolding(crate::specs::Legend::sample_of))]
fn write_fate(text: &mut Vec<u8>, x: u32, fate: Fate) -> Result<(), AllocError>
    ensures { OnOk result (text.new.items ≡ text.old.items ++ sample_of x fate) }
{
    fate_sample(text, x, fill_of(fate), name_of(fate))
}

// Writes a sample of each fate.
#[tactic(auto, unfolding(crate::specs::Legend::fate_samples))]
fn write_fates(text: &mut Vec<u8>) -> Result<(), AllocError>
    ensures { OnOk result (text.new.items ≡ text.old.items ++ fate_samples) }
{
    write_fate(text, 90, Fate::Committed)?;
    write_fate(text, 320, Fate::Violation)?;
    write_fate(text, 550, Fate::Guess)?;
    write_fate(text, 780, Fate::Cancel)?;
    write_fate(text, 1010, Fate::Active)?;
    Ok(())
}

// Writes a sample of a load, with words after it.
#[tactic(auto, unfolding(crate::specs::Legend::load_sample))]
fn write_load(text: &mut Vec<u8>, x: u32, after: u32, words: &str) -> Result<(), AllocError>
    ensures { OnOk result (text.new.items ≡ text.old.items ++ load_sample x after words.now) }
{
    mark_sample(text, Point { x, y: 90 }, "load", "", after, words)
}

// Writes a sample of each kind of mark.
#[tactic(auto, unfolding(crate::specs::Legend::mark_samples))]
fn write_marks(text: &mut Vec<u8>) -> Result<(), AllocError>
    ensures { OnOk result (text.new.items ≡ text.old.items ++ mark_samples) }
{
    let output = "word put out";
    write_load(text, 106, 130, "load")?;
    mark_sample(text, Point { x: 226, y: 90 }, "store", "", 250, "store")?;
    mark_sample(text, Point { x: 346, y: 90 }, "output", "", 370, output)?;
    commit_sample(text)?;
    Ok(())
}

// Writes a sample of each arrow.
#[tactic(auto, unfolding(crate::specs::Legend::arrow_samples))]
fn write_arrows(text: &mut Vec<u8>) -> Result<(), AllocError>
    ensures { OnOk result (text.new.items ≡ text.old.items ++ arrow_samples) }
{
    let thin = "a version goes from its store to a reader";
    let bold = "a store finds a read too early, and squashes its task";
    thin_sample(text)?;
    write_load(text, 735, 755, thin)?;
    bold_sample(text)?;
    write_load(text, 1160, 1180, bold)?;
    Ok(())
}

// Writes a sample of a load that a supplier served.
#[tactic(auto, unfolding(crate::specs::Legend::supplier_sample))]
fn write_supplier(text: &mut Vec<u8>, x: u32, after: u32, by: ServedKind) -> Result<(), AllocError>
    ensures { OnOk result (text.new.items ≡ text.old.items ++ supplier_sample x after by) }
{
    let letter = letter_of(Some(by));
    mark_sample(text, Point { x, y: 25 }, "load", letter, after, by.text())
}

// Writes a sample of each of these, and one of a replacement.
#[tactic(auto, unfolding(crate::specs::Legend::supplier_samples))]
fn write_suppliers(text: &mut Vec<u8>) -> Result<(), AllocError>
    ensures { OnOk result (text.new.items ≡ text.old.items ++ supplier_samples) }
{
    let replaced = "line replaced";
    write_supplier(text, 790, 810, ServedKind::Hit)?;
    write_supplier(text, 875, 895, ServedKind::Reuse)?;
    write_supplier(text, 980, 1000, ServedKind::Version)?;
    write_supplier(text, 1095, 1115, ServedKind::Spill)?;
    write_supplier(text, 1190, 1210, ServedKind::Committed)?;
    write_supplier(text, 1325, 1345, ServedKind::Memory)?;
    mark_sample(
        text,
        Point { x: 1445, y: 25 },
        "replace",
        "",
        1465,
        replaced,
    )?;
    Ok(())
}

/// Writes the legend.
#[tactic(auto, unfolding(crate::specs::Legend::legend))]
pub(crate) fn write_legend(
    frame: &Frame<'_>,
    total: u64,
    text: &mut Vec<u8>,
) -> Result<(), AllocError>
    ensures { OnOk result (text.new.items ≡ text.old.items ++ legend frame.now.sheet total) }
{
    let from = frame.sheet.window.from;
    let count = frame.sheet.window.to - from;
    headline(text, count, total, from, u64::from(frame.sheet.units))?;
    write_suppliers(text)?;
    write_fates(text)?;
    write_marks(text)?;
    write_arrows(text)?;
    Ok(())
}

// The colour of a lane: every second one is darker.
fn lane_fill(number: u8) -> &'static str
    ensures { result.now ≡ lane_fill number }
{
    if number % 2 == 0 { "#f4f5f7" } else { "#fff" }
}

// Writes a lane.
#[tactic(auto, unfolding(crate::specs::Legend::lane_text))]
fn write_lane(frame: &Frame<'_>, number: u8, text: &mut Vec<u8>) -> Result<(), AllocError>
    requires few { number < 255 }
    ensures { OnOk result (text.new.items ≡ text.old.items ++ lane_text frame.now.sheet number) }
{
    let top = frame.lane_top(number);
    let height = frame.lane_top(number + 1).saturating_sub(top);
    let middle = top + height / 2 + 5;
    let fill = lane_fill(number);
    lane(text, u64::from(number), top, height, fill, middle)
}

/// Writes the lanes.
#[tactic(auto, unfolding(crate::specs::Legend::lanes))]
pub(crate) fn write_lanes(frame: &Frame<'_>, text: &mut Vec<u8>) -> Result<(), AllocError>
    ensures { OnOk result (text.new.items ≡ text.old.items ++ lanes frame.now.sheet) }
{
    for number in 0..frame.sheet.units {
        write_lane(frame, number, text)?;
    }
    border(text, frame.height())?;
    Ok(())
}

// The numbers of an axis with this step have room.
#[tactic(auto, unfolding(crate::specs::Legend::has_room))]
fn has_room(shown: u64, step: u64) -> bool
    requires shown { shown ≤ MAX_EVENTS }
    requires step { step < 2 ^ 32 }
    ensures { result ≡ has_room shown step }
{
    44 * shown <= step * WIDTH
}

// The first of these steps with room.
#[tactic(auto, using(crate::proofs::Texts::step_found))]
fn first_step(steps: &[u32], shown: u64) -> Option<u64>
    requires { shown ≤ MAX_EVENTS }
    ensures { result ≡ find (has_room shown) steps.now }
{
    for step in steps {
        let step = u64::from(*step);
        if has_room(shown, step) {
            return Some(step);
        }
    }
    None
}

// Every how many entries the axis has a number: as often as there is room.
#[tactic(auto, unfolding(crate::specs::Legend::step_for))]
fn step_for(shown: u64) -> u64
    requires { shown ≤ MAX_EVENTS }
    ensures value { result ≡ step_for shown }
    ensures some { 0 < result }
{
    first_step(&STEPS, shown).unwrap_or(100_000).max(1)
}

// Writes an entry's number, if it is a multiple of the step.
#[tactic(auto, unfolding(crate::specs::Legend::number_at))]
fn write_number(
    frame: &Frame<'_>,
    step: u64,
    place: u64,
    text: &mut Vec<u8>,
) -> Result<(), AllocError>
    requires step { step ≡ step_for (shown frame.now.sheet) }
    requires some { 0 < step }
    ensures { OnOk result (text.new.items ≡ text.old.items ++ number_at frame.now.sheet place) }
{
    if place % step == 0 {
        tick(text, frame.x(place), frame.bottom(), place)
    } else {
        Ok(())
    }
}

// Writes what a bar's words are, if bars have words.
fn write_names_told(frame: &Frame<'_>, text: &mut Vec<u8>) -> Result<(), AllocError>
    ensures { OnOk result (text.new.items ≡ text.old.items ++ names_told frame.now.sheet) }
{
    if frame.sheet.style.is_compact {
        return Ok(());
    }
    bar_words(text, frame.bottom())
}

// Writes it, and what the numbers are.
#[tactic(auto, unfolding(crate::specs::Legend::words_below))]
fn write_words_below(frame: &Frame<'_>, text: &mut Vec<u8>) -> Result<(), AllocError>
    ensures { OnOk result (text.new.items ≡ text.old.items ++ words_below frame.now.sheet) }
{
    write_names_told(frame, text)?;
    axis_words(text, frame.bottom())?;
    Ok(())
}

/// Writes the axis.
#[tactic(auto, unfolding(crate::specs::Legend::axis))]
pub(crate) fn write_axis(frame: &Frame<'_>, text: &mut Vec<u8>) -> Result<(), AllocError>
    ensures { OnOk result (text.new.items ≡ text.old.items ++ axis frame.now.sheet) }
{
    let step = step_for(frame.shown());
    for place in frame.sheet.window.from..frame.sheet.window.to {
        write_number(frame, step, place, text)?;
    }
    write_words_below(frame, text)?;
    Ok(())
}
