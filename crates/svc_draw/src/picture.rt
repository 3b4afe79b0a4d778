// The picture of a history.

ghost use Rattle.std.specs.Prelude.{◌≡◌, ◌++◌, ◌≤◌, IfErr, IfOk, OnOk, length};
ghost use Rattle.svc_base.specs.declared.config.TheConstants.{MAX_EVENTS, MAX_UNITS};
ghost use Rattle.svc_report.specs.Faults.{IsMemoryFault};
ghost use Rattle.svc_draw.specs.Picture.{joined_note, joined_things, joined_things_words, parts, picture_of};
ghost use Rattle.svc_draw.specs.Picture.{picture_text, single_things, single_words, surroundings, things, words};
ghost use Rattle.svc_draw.specs.Picture.{words_on};

use crate::joined::{write_joined_bars, write_joined_lines, write_joined_shapes, write_long_names};
use crate::legend::{write_axis, write_head, write_lanes, write_legend};
use std::alloc::{AllocError, Global};
use svc_history_laws::Entry;
use svc_marks::{Bar, Mark, View, things_of};
use svc_names::Names;
use svc_report::ReportError;
use svc_shapes::{
    arrow_heads, closing, joined_words, parts_close, parts_open, rim_close, rim_open,
};
use svc_sheet::{
    Frame, Sheet, Style, write_bars, write_layer, write_names, write_plain_kinds,
    write_supplied_kinds, write_values,
};

// Writes what is made once: the heads of arrows and the kinds of marks.
#[tactic(auto, unfolding(crate::specs::Picture::parts))]
fn write_parts(size: u32, text: &mut Vec<u8>) -> Result<(), AllocError>
    requires small { size ≤ 10 }
    ensures { OnOk result (text.new.items ≡ text.old.items ++ parts size) }
{
    parts_open(text)?;
    arrow_heads(text, size)?;
    write_plain_kinds(size, text)?;
    write_supplied_kinds(size, text)?;
    parts_close(text)?;
    Ok(())
}

// Writes what lies below: these, the legend and the lanes.
#[tactic(auto, unfolding(crate::specs::Picture::surroundings))]
fn write_surroundings(frame: &Frame<'_>, total: u64, text: &mut Vec<u8>) -> Result<(), AllocError>
    ensures { OnOk result (text.new.items ≡ text.old.items ++ surroundings frame.now.sheet total) }
{
    write_head(frame, text)?;
    write_parts(frame.radius(), text)?;
    write_legend(frame, total, text)?;
    write_lanes(frame, text)?;
    Ok(())
}

// Writes the bars, and on them the marks, layer by layer.
#[tactic(auto, unfolding(crate::specs::Picture::single_things))]
fn write_single_things(
    frame: &Frame<'_>,
    bars: &[Bar],
    marks: &[Mark],
    text: &mut Vec<u8>,
) -> Result<(), AllocError>
    ensures { OnOk result (text.new.items ≡ text.old.items ++ single_things frame.now.sheet bars.now marks.now) }
{
    write_bars(frame, bars, text)?;
    write_layer(frame, 0, marks, text)?;
    write_layer(frame, 1, marks, text)?;
    write_layer(frame, 2, marks, text)?;
    Ok(())
}

// Writes them joined.
#[tactic(auto, unfolding(crate::specs::Picture::joined_things))]
fn write_joined_things(
    frame: &Frame<'_>,
    bars: &[Bar],
    marks: &[Mark],
    text: &mut Vec<u8>,
) -> Result<(), AllocError>
    ensures { OnOk result (text.new.items ≡ text.old.items ++ joined_things frame.now.sheet bars.now marks.now) }
{
    write_joined_bars(frame, bars, text)?;
    write_joined_lines(frame, marks, text)?;
    write_joined_shapes(frame, marks, text)?;
    Ok(())
}

// Writes them as the number of entries wants it.
#[tactic(auto, unfolding(crate::specs::Picture::things))]
fn write_things(
    frame: &Frame<'_>,
    bars: &[Bar],
    marks: &[Mark],
    text: &mut Vec<u8>,
) -> Result<(), AllocError>
    ensures { OnOk result (text.new.items ≡ text.old.items ++ things frame.now.sheet bars.now marks.now) }
{
    if frame.is_joined() {
        write_joined_things(frame, bars, marks, text)
    } else {
        write_single_things(frame, bars, marks, text)
    }
}

// Writes the words on these.
#[tactic(auto, unfolding(crate::specs::Picture::single_words))]
fn write_single_words(
    frame: &Frame<'_>,
    bars: &[Bar],
    marks: &[Mark],
    text: &mut Vec<u8>,
) -> Result<(), AllocError>
    ensures { OnOk result (text.new.items ≡ text.old.items ++ single_words frame.now.sheet bars.now marks.now) }
{
    rim_open(text)?;
    write_values(frame, marks, text)?;
    write_names(frame, bars, text)?;
    rim_close(text)?;
    Ok(())
}

// Writes those on things that are joined.
#[tactic(auto, unfolding(crate::specs::Picture::joined_things_words))]
fn write_joined_words(frame: &Frame<'_>, bars: &[Bar], text: &mut Vec<u8>) -> Result<(), AllocError>
    ensures { OnOk result (text.new.items ≡ text.old.items ++ joined_things_words frame.now.sheet bars.now) }
{
    rim_open(text)?;
    write_long_names(frame, bars, text)?;
    rim_close(text)?;
    Ok(())
}

// Writes these words as the number of entries wants it.
fn write_words_on(
    frame: &Frame<'_>,
    bars: &[Bar],
    marks: &[Mark],
    text: &mut Vec<u8>,
) -> Result<(), AllocError>
    ensures { OnOk result (text.new.items ≡ text.old.items ++ words_on frame.now.sheet bars.now marks.now) }
{
    if frame.is_joined() {
        write_joined_words(frame, bars, text)
    } else {
        write_single_words(frame, bars, marks, text)
    }
}

// Writes them, unless the picture is compact.
fn write_words(
    frame: &Frame<'_>,
    bars: &[Bar],
    marks: &[Mark],
    text: &mut Vec<u8>,
) -> Result<(), AllocError>
    ensures { OnOk result (text.new.items ≡ text.old.items ++ words frame.now.sheet bars.now marks.now) }
{
    if frame.sheet.style.is_compact {
        return Ok(());
    }
    write_words_on(frame, bars, marks, text)
}

// Writes what is said of things that are joined.
fn write_joined_note(frame: &Frame<'_>, text: &mut Vec<u8>) -> Result<(), AllocError>
    ensures { OnOk result (text.new.items ≡ text.old.items ++ joined_note frame.now.sheet) }
{
    if frame.is_joined() {
        joined_words(text, frame.bottom())
    } else {
        Ok(())
    }
}

// Writes a picture of these bars and marks, of a history of so many entries.
#[tactic(auto, unfolding(crate::specs::Picture::picture_text))]
fn write_picture(
    frame: &Frame<'_>,
    total: u64,
    bars: &[Bar],
    marks: &[Mark],
    text: &mut Vec<u8>,
) -> Result<(), AllocError>
    ensures { OnOk result (text.new.items
        ≡ text.old.items ++ picture_text frame.now.sheet total bars.now marks.now) }
{
    write_surroundings(frame, total, text)?;
    write_things(frame, bars, marks, text)?;
    write_words(frame, bars, marks, text)?;
    write_joined_note(frame, text)?;
    write_axis(frame, text)?;
    closing(text)?;
    Ok(())
}

// The picture of these bars and marks.
fn picture(
    alloc: Global,
    frame: &Frame<'_>,
    total: u64,
    bars: &[Bar],
    marks: &[Mark],
) -> Result<Vec<u8>, AllocError>
    ensures { IfOk result (λ text. text.items ≡ picture_text frame.now.sheet total bars.now marks.now) }
{
    let mut text = Vec::new(alloc);
    write_picture(frame, total, bars, marks, &mut text)?;
    Ok(text)
}

/// The picture of what a view shows of a history, drawn in a style and told with these names, if any are given, and
/// with the address of the instruction at which each entry asks, if it does: one SVG that needs no other file.
///
/// Errors: [`ReportError::Memory`].
#[tactic(auto, unfolding(crate::specs::Picture::picture_of))]
pub fn draw(
    alloc: Global,
    entries: &[Entry],
    units: u32,
    view: &View,
    style: Style,
    names: Option<&Names>,
    addresses: &[Option<u32>],
) -> Result<Vec<u8>, ReportError>
    requires few { length entries.now ≤ MAX_EVENTS }
    requires some_units { 1 ≤ units }
    requires few_units { units ≤ MAX_UNITS }
    ensures ok { IfOk result (λ text.
        text.items ≡ picture_of entries.now units view.now style names.entry addresses.entry) }
    ensures err { IfErr result IsMemoryFault }
{
    let things = things_of(alloc, entries, view)?;
    let frame = Frame {
        sheet: Sheet {
            window: things.window,
            units: units as u8,
            style,
            names,
            addresses,
        },
    };
    let total = entries.len() as u64;
    let text = picture(alloc, &frame, total, &things.bars, &things.marks)?;
    Ok(text)
}
