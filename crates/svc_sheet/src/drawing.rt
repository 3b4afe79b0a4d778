// The bars and marks of a picture, as they are drawn.

ghost use Rattle.std.specs.Prelude.{◌≡◌, ◌++◌, ◌≤◌, OnOk, codes, decimal, flat_map, length};
ghost use Rattle.svc_names.specs.Given.{listed};
ghost use Rattle.svc_sheet.specs.Drawing.{address_of, bar_name, bar_text, bar_title, element_of, fill_of, layer};
ghost use Rattle.svc_sheet.specs.Drawing.{layer_text, mark_in, mark_shape, mark_text, name_of, name_words, title};
ghost use Rattle.svc_sheet.specs.Names.{label_text};
ghost use Rattle.svc_shapes.specs.Shapes.{label};

use crate::frame::Frame;
use crate::kinds::letter_of;
use crate::names::{Label, address_label, put_address, put_word_called};
use crate::row::put_row;
use crate::sentences::{put_fate, put_sentence};
use itoa::Buffer;
use std::alloc::AllocError;
use svc_marks::{Bar, Mark, MarkKind};
use svc_names::{Names, put_note};
use svc_shapes::{
    bar_box, bold_arrow, box_fate, box_title, close, commit_line, label_close, label_open, mark_at,
    thin_arrow, title_open,
};
use svc_task_runs::{Fate, TaskRun};
use svc_text::{Piece, put};

/// How a fate's bars are filled.
pub fn fill_of(fate: Fate) -> &'static str
    ensures { result.now ≡ fill_of fate }
{
    match fate {
        Fate::Active => "url(#active)",
        Fate::Committed => "#d3ead0",
        Fate::Violation => "url(#violation)",
        Fate::Guess => "url(#guess)",
        Fate::Cancel => "url(#cancel)",
    }
}

/// What a fate is called.
pub fn name_of(fate: Fate) -> &'static str
    ensures { result.now ≡ name_of fate }
{
    match fate {
        Fate::Active => "still active",
        Fate::Committed => "committed",
        Fate::Violation => "squashed: read too early",
        Fate::Guess => "squashed: wrong guess",
        Fate::Cancel => "squashed: cancelled",
    }
}

// Writes the title of a task's bar: which task it is, and what became of it.
#[tactic(auto, unfolding(crate::specs::Drawing::bar_title))]
fn write_bar_title(
    names: Option<&Names>,
    task: &TaskRun,
    text: &mut Vec<u8>,
) -> Result<(), AllocError>
    ensures { OnOk result (text.new.items ≡ text.old.items ++ bar_title (listed names.entry) task.now) }
{
    box_title(text, task.number, u64::from(task.entry))?;
    put_note(names, text, task.entry)?;
    box_fate(text, task.first, name_of(task.fate), task.turns)?;
    "\n".put(text)?;
    put_fate(text, task)?;
    "</title>".put(text)?;
    Ok(())
}

/// Writes a bar, with its title.
#[tactic(auto, unfolding(crate::specs::Drawing::bar_text))]
pub fn write_bar(frame: &Frame<'_>, bar: &Bar, text: &mut Vec<u8>) -> Result<(), AllocError>
    ensures { OnOk result (text.new.items ≡ text.old.items ++ bar_text frame.now.sheet bar.now) }
{
    let x = frame.bar_left(bar);
    let y = frame.bar_top(bar.task.unit.0);
    let width = frame.bar_width(bar);
    let height = frame.bar_height();
    bar_box(text, x, y, width, height, fill_of(bar.task.fate))?;
    write_bar_title(frame.sheet.names, &bar.task, text)?;
    close(text, "rect")?;
    Ok(())
}

/// Writes the bars.
pub fn write_bars(frame: &Frame<'_>, bars: &[Bar], text: &mut Vec<u8>) -> Result<(), AllocError>
    ensures { OnOk result (text.new.items ≡ text.old.items ++ flat_map (bar_text frame.now.sheet) bars.now) }
{
    for bar in bars {
        write_bar(frame, bar, text)?;
    }
    Ok(())
}

/// How many digits a number has.
pub(crate) fn digits(number: u64) -> u64
    ensures value { result ≡ length (decimal number) }
    ensures few { result ≤ 20 }
{
    let mut digits = Buffer::new();
    digits.format(number).len() as u64
}

// Adds a task's number and the address where it began, as far as there is room for so many letters.
#[tactic(auto, unfolding(crate::specs::Drawing::name_words))]
fn put_name_words(
    text: &mut Vec<u8>,
    letters: u64,
    number: u64,
    address: Label<'_>,
) -> Result<(), AllocError>
    ensures { OnOk result (text.new.items
        ≡ text.old.items ++ name_words letters number (label_text address.entry)) }
{
    let others = digits(number);
    if others + 8 <= letters && address.fits(letters - (others + 8)) {
        put!(text; "task ", number, " @ ");
        address.put(text)
    } else if others < letters && address.fits(letters - (others + 1)) {
        put!(text; number, "@");
        address.put(text)
    } else {
        number.put(text)
    }
}

// Writes these words at a place.
#[tactic(auto, unfolding(svc_shapes::specs::Shapes::label))]
fn write_name_at(
    text: &mut Vec<u8>,
    x: u64,
    y: u64,
    letters: u64,
    number: u64,
    address: Label<'_>,
) -> Result<(), AllocError>
    ensures { OnOk result (text.new.items ≡ text.old.items
        ++ label x y (codes "font-size='12'") (name_words letters number (label_text address.entry))) }
{
    label_open(text, x, y, "font-size='12'")?;
    put_name_words(text, letters, number, address)?;
    label_close(text)?;
    Ok(())
}

/// Writes a bar's words, if there is room for any.
#[tactic(auto, unfolding(crate::specs::Drawing::bar_name))]
pub fn write_name(frame: &Frame<'_>, bar: &Bar, text: &mut Vec<u8>) -> Result<(), AllocError>
    ensures { OnOk result (text.new.items ≡ text.old.items ++ bar_name frame.now.sheet bar.now) }
{
    let letters = frame.bar_width(bar).saturating_sub(8) / 7;
    let number = bar.task.number;
    if digits(number) > letters {
        return Ok(());
    }
    let x = frame.bar_left(bar) + 4;
    let y = frame.bar_top(bar.task.unit.0) + 12;
    let address = address_label(frame.sheet.names, u64::from(bar.task.entry));
    write_name_at(text, x, y, letters, number, address)
}

/// Writes the words of the bars.
pub fn write_names(frame: &Frame<'_>, bars: &[Bar], text: &mut Vec<u8>) -> Result<(), AllocError>
    ensures { OnOk result (text.new.items ≡ text.old.items ++ flat_map (bar_name frame.now.sheet) bars.now) }
{
    for bar in bars {
        write_name(frame, bar, text)?;
    }
    Ok(())
}

// The address of the instruction at which a mark's entry asks, if it does.
fn address_of(frame: &Frame<'_>, mark: &Mark) -> Option<u32>
    ensures { result ≡ address_of frame.now.sheet mark.now }
{
    let address = frame.sheet.addresses.get(mark.place as usize)?;
    *address
}

// Writes the title of a mark.
#[tactic(auto, unfolding(crate::specs::Drawing::title))]
fn write_title(frame: &Frame<'_>, mark: &Mark, text: &mut Vec<u8>) -> Result<(), AllocError>
    ensures { OnOk result (text.new.items
        ≡ text.old.items ++ title (listed frame.now.sheet.names) (address_of frame.now.sheet mark.now) mark.now) }
{
    title_open(text, mark.place)?;
    put_row(text, &mark.entry)?;
    put_sentence(text, mark)?;
    "\n".put(text)?;
    put_word_called(text, frame.sheet.names, mark.entry.addr)?;
    put_address(text, frame.sheet.names, address_of(frame, mark))?;
    "</title>".put(text)?;
    Ok(())
}

/// The element of a mark.
pub fn element_of(kind: MarkKind) -> &'static str
    ensures { result.now ≡ element_of kind }
{
    match kind {
        MarkKind::Load | MarkKind::Store | MarkKind::PutOut | MarkKind::Replace => "use",
        MarkKind::Commit | MarkKind::Handed | MarkKind::Squash => "path",
    }
}

// Writes the shape of a mark.
fn write_shape(frame: &Frame<'_>, mark: &Mark, text: &mut Vec<u8>) -> Result<(), AllocError>
    ensures { OnOk result (text.new.items ≡ text.old.items ++ mark_shape frame.now.sheet mark.now mark.now.kind) }
{
    let middle = frame.at(mark);
    let letter = letter_of(mark.entry.served);
    match mark.kind {
        MarkKind::Load => mark_at(text, middle, "load", letter),
        MarkKind::Store => mark_at(text, middle, "store", letter),
        MarkKind::PutOut => mark_at(text, middle, "output", ""),
        MarkKind::Replace => mark_at(text, middle, "replace", ""),
        MarkKind::Commit => commit_line(text, middle.x as u64, u64::from(frame.bottom())),
        MarkKind::Handed => thin_arrow(text, frame.other_end(mark), middle),
        MarkKind::Squash => bold_arrow(text, middle, frame.other_end(mark)),
    }
}

// Writes a mark, with its title.
#[tactic(auto, unfolding(crate::specs::Drawing::mark_text))]
fn write_mark(frame: &Frame<'_>, mark: &Mark, text: &mut Vec<u8>) -> Result<(), AllocError>
    ensures { OnOk result (text.new.items ≡ text.old.items ++ mark_text frame.now.sheet mark.now) }
{
    write_shape(frame, mark, text)?;
    write_title(frame, mark, text)?;
    close(text, element_of(mark.kind))?;
    Ok(())
}

// Which marks lie below which: lines of commits, then arrows, then shapes.
fn layer(kind: MarkKind) -> u8
    ensures { result ≡ layer kind }
{
    match kind {
        MarkKind::Commit => 0,
        MarkKind::Handed | MarkKind::Squash => 1,
        MarkKind::Load | MarkKind::Store | MarkKind::PutOut | MarkKind::Replace => 2,
    }
}

// Writes a mark, if it is of a layer.
fn write_mark_in(
    frame: &Frame<'_>,
    wanted: u8,
    mark: &Mark,
    text: &mut Vec<u8>,
) -> Result<(), AllocError>
    ensures { OnOk result (text.new.items ≡ text.old.items ++ mark_in frame.now.sheet wanted mark.now) }
{
    if layer(mark.kind) == wanted {
        write_mark(frame, mark, text)
    } else {
        Ok(())
    }
}

/// Writes the marks of a layer.
#[tactic(auto, unfolding(crate::specs::Drawing::layer_text))]
pub fn write_layer(
    frame: &Frame<'_>,
    wanted: u8,
    marks: &[Mark],
    text: &mut Vec<u8>,
) -> Result<(), AllocError>
    ensures { OnOk result (text.new.items ≡ text.old.items ++ layer_text frame.now.sheet wanted marks.now) }
{
    for mark in marks {
        write_mark_in(frame, wanted, mark, text)?;
    }
    Ok(())
}
