// The bars and marks of a picture of many entries: those of a kind in a cell of its grid are drawn as one.

ghost use Rattle.std.specs.Prelude.{◌≡◌, ◌++◌, OnOk, flat_map};
ghost use Rattle.svc_draw.specs.Joined.{joined_bars, joined_kind, joined_lines, joined_mark, joined_shape};
ghost use Rattle.svc_draw.specs.Joined.{joined_shapes};
ghost use Rattle.svc_draw.specs.Joined.{joined_text, long_bar, long_name, marks_called, other_x, other_y, stripe};
ghost use Rattle.svc_draw.specs.Joined.{stripe_box, stripe_style, stripe_text, stripes, style_of, tasks_called, use_at};
ghost use Rattle.svc_sheet.specs.Grid.{column_x, row_y};
ghost use Rattle.svc_marks.specs.declared.marks.MarkKind.TheVariants as mark;

use crate::tallies::{Tally, stripe_of, tally_bars, tally_marks};
use std::alloc::AllocError;
use svc_marks::{Bar, Mark, MarkKind};
use svc_shapes::sheet::TOP;
use svc_shapes::{
    Point, close, group_close, group_open, joined_title, mark_at, plain_box, plain_line,
};
use svc_sheet::{Frame, element_of, write_bar, write_name};
use svc_task_runs::Fate;

// What the stripes of a fate have in common.
fn stripe_style(fate: Fate) -> &'static str
    ensures { result.now ≡ stripe_style fate }
{
    match fate {
        Fate::Active => " fill='url(#active)'",
        Fate::Committed => " fill='#d3ead0' stroke='#333'",
        Fate::Violation => " fill='url(#violation)'",
        Fate::Guess => " fill='url(#guess)'",
        Fate::Cancel => " fill='url(#cancel)'",
    }
}

// What such tasks are called.
fn tasks_called(fate: Fate) -> &'static str
    ensures { result.now ≡ tasks_called fate }
{
    match fate {
        Fate::Active => "active",
        Fate::Committed => "committed",
        Fate::Violation => "read too early",
        Fate::Guess => "wrong guess",
        Fate::Cancel => "cancelled",
    }
}

// Writes the box of a cell's bars.
#[tactic(auto, unfolding(crate::specs::Joined::stripe_box))]
fn write_box(
    frame: &Frame<'_>,
    fate: Fate,
    tally: &Tally,
    text: &mut Vec<u8>,
) -> Result<(), AllocError>
    ensures { OnOk result (text.new.items ≡ text.old.items ++ stripe_box frame.now.sheet fate tally.now) }
{
    let x = frame.x(tally.first);
    let y = frame.stripe_y(tally.lane, stripe_of(fate));
    let width = frame.x(tally.last).saturating_sub(x).max(2);
    plain_box(text, x, y, width, frame.bar_height() / 4)
}

// Writes it with its title.
#[tactic(auto, unfolding(crate::specs::Joined::stripe_text))]
fn write_stripe(
    frame: &Frame<'_>,
    fate: Fate,
    tally: &Tally,
    text: &mut Vec<u8>,
) -> Result<(), AllocError>
    ensures { OnOk result (text.new.items ≡ text.old.items ++ stripe_text frame.now.sheet fate tally.now) }
{
    write_box(frame, fate, tally, text)?;
    let name = tasks_called(fate);
    joined_title(text, tally.count, name, tally.first, tally.last)?;
    close(text, "rect")?;
    Ok(())
}

// Writes it if there are any.
fn write_stripe_of_some(
    frame: &Frame<'_>,
    fate: Fate,
    tally: &Tally,
    text: &mut Vec<u8>,
) -> Result<(), AllocError>
    ensures { OnOk result (text.new.items ≡ text.old.items ++ stripe frame.now.sheet fate tally.now) }
{
    if tally.count == 0 {
        return Ok(());
    }
    write_stripe(frame, fate, tally, text)
}

// Writes these of a fate.
fn write_stripes_in(
    frame: &Frame<'_>,
    fate: Fate,
    tallies: &[Tally],
    text: &mut Vec<u8>,
) -> Result<(), AllocError>
    ensures { OnOk result (text.new.items
        ≡ text.old.items ++ flat_map (stripe frame.now.sheet fate) tallies.now) }
{
    for tally in tallies {
        write_stripe_of_some(frame, fate, tally, text)?;
    }
    Ok(())
}

// Writes the short bars of a fate.
#[tactic(auto, unfolding(crate::specs::Joined::stripes))]
fn write_stripes(
    frame: &Frame<'_>,
    fate: Fate,
    bars: &[Bar],
    text: &mut Vec<u8>,
) -> Result<(), AllocError>
    ensures { OnOk result (text.new.items ≡ text.old.items ++ stripes frame.now.sheet fate bars.now) }
{
    let tallies = tally_bars(frame, fate, bars);
    group_open(text, stripe_style(fate))?;
    write_stripes_in(frame, fate, &tallies, text)?;
    group_close(text)?;
    Ok(())
}

// Writes a bar, if it lies in more than one cell.
fn write_long_bar(frame: &Frame<'_>, bar: &Bar, text: &mut Vec<u8>) -> Result<(), AllocError>
    ensures { OnOk result (text.new.items ≡ text.old.items ++ long_bar frame.now.sheet bar.now) }
{
    if frame.is_short(bar) {
        return Ok(());
    }
    write_bar(frame, bar, text)
}

// Writes such bars.
fn write_long_bars(frame: &Frame<'_>, bars: &[Bar], text: &mut Vec<u8>) -> Result<(), AllocError>
    ensures { OnOk result (text.new.items ≡ text.old.items ++ flat_map (long_bar frame.now.sheet) bars.now) }
{
    for bar in bars {
        write_long_bar(frame, bar, text)?;
    }
    Ok(())
}

// Writes the words of such a bar.
fn write_long_name(frame: &Frame<'_>, bar: &Bar, text: &mut Vec<u8>) -> Result<(), AllocError>
    ensures { OnOk result (text.new.items ≡ text.old.items ++ long_name frame.now.sheet bar.now) }
{
    if frame.is_short(bar) {
        return Ok(());
    }
    write_name(frame, bar, text)
}

/// Writes the words of the bars that lie in more than one cell.
pub(crate) fn write_long_names(
    frame: &Frame<'_>,
    bars: &[Bar],
    text: &mut Vec<u8>,
) -> Result<(), AllocError>
    ensures { OnOk result (text.new.items ≡ text.old.items ++ flat_map (long_name frame.now.sheet) bars.now) }
{
    for bar in bars {
        write_long_name(frame, bar, text)?;
    }
    Ok(())
}

/// Writes the bars: those that lie in more than one cell, and stripes of the others.
#[tactic(auto, unfolding(crate::specs::Joined::joined_bars))]
pub(crate) fn write_joined_bars(
    frame: &Frame<'_>,
    bars: &[Bar],
    text: &mut Vec<u8>,
) -> Result<(), AllocError>
    ensures { OnOk result (text.new.items ≡ text.old.items ++ joined_bars frame.now.sheet bars.now) }
{
    write_long_bars(frame, bars, text)?;
    write_stripes(frame, Fate::Committed, bars, text)?;
    write_stripes(frame, Fate::Violation, bars, text)?;
    write_stripes(frame, Fate::Guess, bars, text)?;
    write_stripes(frame, Fate::Cancel, bars, text)?;
    Ok(())
}

// What the marks of a kind have in common.
fn style_of(kind: MarkKind) -> &'static str
    ensures { result.now ≡ style_of kind }
{
    match kind {
        MarkKind::Commit => " stroke='#2e7d32' stroke-width='2' stroke-dasharray='6 4'",
        MarkKind::Handed => " stroke='#14508c' stroke-width='2' marker-end='url(#thin)'",
        MarkKind::Squash => " stroke='#b01010' stroke-width='4' marker-end='url(#bold)'",
        MarkKind::Load | MarkKind::Store | MarkKind::PutOut | MarkKind::Replace => "",
    }
}

// What they are called.
fn marks_called(kind: MarkKind) -> &'static str
    ensures { result.now ≡ marks_called kind }
{
    match kind {
        MarkKind::Load => "loads",
        MarkKind::Store => "stores",
        MarkKind::PutOut => "words put out",
        MarkKind::Replace => "lines replaced",
        MarkKind::Commit => "commits",
        MarkKind::Handed => "versions read",
        MarkKind::Squash => "reads too early",
    }
}

// The middle of these marks, in a row of their lane.
fn middle(frame: &Frame<'_>, tally: &Tally, row: u8) -> Point
    ensures x { result.x ≡ column_x frame.now.sheet tally.now.first }
    ensures y { result.y ≡ row_y frame.now.sheet tally.now.lane row }
{
    Point {
        x: frame.column_x(tally.first) as u32,
        y: frame.row_y(tally.lane, row) as u32,
    }
}

// The other end of the first one's arrow, in a row.
fn other_end(frame: &Frame<'_>, tally: &Tally, row: u8) -> Point
    ensures x { result.x ≡ other_x frame.now.sheet tally.now tally.now.other }
    ensures y { result.y ≡ other_y frame.now.sheet row tally.now tally.now.other }
{
    match tally.other {
        Some(spot) => Point {
            x: frame.place_column_x(spot.place) as u32,
            y: frame.row_y(spot.lane.0, row) as u32,
        },
        None => middle(frame, tally, row),
    }
}

// Writes a mark in a row of its lane.
#[tactic(auto, unfolding(crate::specs::Joined::use_at))]
fn write_use(
    frame: &Frame<'_>,
    tally: &Tally,
    row: u8,
    name: &str,
    text: &mut Vec<u8>,
) -> Result<(), AllocError>
    ensures { OnOk result (text.new.items ≡ text.old.items ++ use_at frame.now.sheet tally.now row name.now) }
{
    mark_at(text, middle(frame, tally, row), name, "")
}

// Writes the line of commits.
fn write_line(frame: &Frame<'_>, tally: &Tally, text: &mut Vec<u8>) -> Result<(), AllocError>
    ensures { OnOk result (text.new.items
        ≡ text.old.items ++ joined_shape frame.now.sheet tally.now mark.Commit) }
{
    let x = frame.column_x(tally.first) as u32;
    let top = Point { x, y: TOP as u32 };
    let bottom = Point {
        x,
        y: frame.bottom(),
    };
    plain_line(text, top, bottom)
}

// Writes the shape of a kind's marks.
fn write_shape(
    frame: &Frame<'_>,
    kind: MarkKind,
    tally: &Tally,
    text: &mut Vec<u8>,
) -> Result<(), AllocError>
    ensures { OnOk result (text.new.items ≡ text.old.items ++ joined_shape frame.now.sheet tally.now kind) }
{
    match kind {
        MarkKind::Load => write_use(frame, tally, 0, "load", text),
        MarkKind::Store => write_use(frame, tally, 1, "store", text),
        MarkKind::PutOut => write_use(frame, tally, 2, "output", text),
        MarkKind::Replace => write_use(frame, tally, 3, "replace", text),
        MarkKind::Commit => write_line(frame, tally, text),
        MarkKind::Handed => {
            plain_line(text, other_end(frame, tally, 1), middle(frame, tally, 0))
        }
        MarkKind::Squash => {
            plain_line(text, middle(frame, tally, 1), other_end(frame, tally, 0))
        }
    }
}

// Writes it with its title.
#[tactic(auto, unfolding(crate::specs::Joined::joined_text))]
fn write_joined(
    frame: &Frame<'_>,
    kind: MarkKind,
    tally: &Tally,
    text: &mut Vec<u8>,
) -> Result<(), AllocError>
    ensures { OnOk result (text.new.items ≡ text.old.items ++ joined_text frame.now.sheet kind tally.now) }
{
    write_shape(frame, kind, tally, text)?;
    let name = marks_called(kind);
    joined_title(text, tally.count, name, tally.first, tally.last)?;
    close(text, element_of(kind))?;
    Ok(())
}

// Writes it if there are any.
fn write_joined_of_some(
    frame: &Frame<'_>,
    kind: MarkKind,
    tally: &Tally,
    text: &mut Vec<u8>,
) -> Result<(), AllocError>
    ensures { OnOk result (text.new.items ≡ text.old.items ++ joined_mark frame.now.sheet kind tally.now) }
{
    if tally.count == 0 {
        return Ok(());
    }
    write_joined(frame, kind, tally, text)
}

// Writes these of a kind.
fn write_kind_in(
    frame: &Frame<'_>,
    kind: MarkKind,
    tallies: &[Tally],
    text: &mut Vec<u8>,
) -> Result<(), AllocError>
    ensures { OnOk result (text.new.items
        ≡ text.old.items ++ flat_map (joined_mark frame.now.sheet kind) tallies.now) }
{
    for tally in tallies {
        write_joined_of_some(frame, kind, tally, text)?;
    }
    Ok(())
}

// Writes the marks of a kind.
#[tactic(auto, unfolding(crate::specs::Joined::joined_kind))]
fn write_kind(
    frame: &Frame<'_>,
    kind: MarkKind,
    marks: &[Mark],
    text: &mut Vec<u8>,
) -> Result<(), AllocError>
    ensures { OnOk result (text.new.items ≡ text.old.items ++ joined_kind frame.now.sheet kind marks.now) }
{
    let tallies = tally_marks(frame, kind, marks);
    group_open(text, style_of(kind))?;
    write_kind_in(frame, kind, &tallies, text)?;
    group_close(text)?;
    Ok(())
}

/// Writes the lines and arrows.
#[tactic(auto, unfolding(crate::specs::Joined::joined_lines))]
pub(crate) fn write_joined_lines(
    frame: &Frame<'_>,
    marks: &[Mark],
    text: &mut Vec<u8>,
) -> Result<(), AllocError>
    ensures { OnOk result (text.new.items ≡ text.old.items ++ joined_lines frame.now.sheet marks.now) }
{
    write_kind(frame, MarkKind::Commit, marks, text)?;
    write_kind(frame, MarkKind::Handed, marks, text)?;
    write_kind(frame, MarkKind::Squash, marks, text)?;
    Ok(())
}

/// Writes the shapes.
#[tactic(auto, unfolding(crate::specs::Joined::joined_shapes))]
pub(crate) fn write_joined_shapes(
    frame: &Frame<'_>,
    marks: &[Mark],
    text: &mut Vec<u8>,
) -> Result<(), AllocError>
    ensures { OnOk result (text.new.items ≡ text.old.items ++ joined_shapes frame.now.sheet marks.now) }
{
    write_kind(frame, MarkKind::Load, marks, text)?;
    write_kind(frame, MarkKind::Store, marks, text)?;
    write_kind(frame, MarkKind::PutOut, marks, text)?;
    write_kind(frame, MarkKind::Replace, marks, text)?;
    Ok(())
}
