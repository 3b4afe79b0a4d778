// What stands beside the marks of a picture.

ghost use Rattle.std.specs.Prelude.{◌≡◌, ◌++◌, ◌≤◌, OnOk, get_or, unwrap_or};
ghost use Rattle.svc_names.specs.Given.{listed};
ghost use Rattle.svc_sheet.specs.Values.{committed_text, edges_after, letters_before, arrow_label, sentence, stands};
ghost use Rattle.svc_sheet.specs.Values.{value_text, value_words, values_text, words_of};
ghost use Rattle.svc_shapes.specs.Shapes.{label};

use crate::drawing::digits;
use crate::frame::Frame;
use crate::names::word_label;
use crate::sheet::Values;
use std::alloc::AllocError;
use svc_base::WordAddr;
use svc_marks::{Mark, MarkKind};
use svc_names::Names;
use svc_shapes::sheet::{LEFT, TOP};
use svc_shapes::{label, label_close, label_open};
use svc_text::{Part, Piece, put};

// Words that end at a place.
const ENDED: &str = "text-anchor='end'";

// For how many letters there is room before a mark, where the one before it on its lane ends at an edge.
fn letters_before(frame: &Frame<'_>, edge: u64, mark: &Mark) -> u64
    ensures { result ≡ letters_before frame.now.sheet edge mark.now }
{
    let end = frame.x(mark.place) - (frame.radius() as u64 + 6);
    end.saturating_sub(edge) / 8
}

// Adds a value, with its word if so many letters have room for both.
fn put_value_words(
    text: &mut Vec<u8>,
    names: Option<&Names>,
    letters: u64,
    word: Option<WordAddr>,
    value: u64,
) -> Result<(), AllocError>
    ensures { OnOk result (text.new.items
        ≡ text.old.items ++ value_words (listed names.entry) letters word value) }
{
    let Some(word) = word else {
        return value.put(text);
    };
    let word = word_label(names, word);
    let others = digits(value) + 3;
    if others <= letters && word.fits(letters - others) {
        word.put(text)?;
        put!(text; " = ");
    }
    value.put(text)
}

// Writes these words, which end at a place.
#[tactic(auto, unfolding(svc_shapes::specs::Shapes::label))]
fn write_value_at(
    text: &mut Vec<u8>,
    names: Option<&Names>,
    x: u64,
    y: u64,
    letters: u64,
    word: Option<WordAddr>,
    value: u64,
) -> Result<(), AllocError>
    ensures { OnOk result (text.new.items
        ≡ text.old.items ++ label x y ENDED.now (value_words (listed names.entry) letters word value)) }
{
    label_open(text, x, y, ENDED)?;
    put_value_words(text, names, letters, word, value)?;
    label_close(text)?;
    Ok(())
}

// A value stands beside a mark that has room for so many letters.
fn stands(values: Values, letters: u64, value: u64) -> bool
    ensures { result ≡ stands values letters value }
{
    match values {
        Values::WithRoom => digits(value) <= letters,
        Values::All => true,
        Values::Nowhere => false,
    }
}

// Writes what was loaded, stored or output, before its mark, if it stands there.
#[tactic(auto, unfolding(crate::specs::Values::value_text))]
fn write_value(
    frame: &Frame<'_>,
    edge: u64,
    mark: &Mark,
    value: u32,
    text: &mut Vec<u8>,
) -> Result<(), AllocError>
    ensures { OnOk result (text.new.items ≡ text.old.items ++ value_text frame.now.sheet edge mark.now value) }
{
    let value = u64::from(value);
    let letters = letters_before(frame, edge, mark);
    if !stands(frame.sheet.style.values, letters, value) {
        return Ok(());
    }
    let x = frame.x(mark.place) - (frame.radius() as u64 + 6);
    let y = frame.at(mark).y as u64 + 5;
    write_value_at(
        text,
        frame.sheet.names,
        x,
        y,
        letters,
        mark.entry.addr,
        value,
    )
}

// Writes the task that is committed, at the top of its line.
#[tactic(auto, unfolding(crate::specs::Values::committed_text))]
fn write_committed(frame: &Frame<'_>, mark: &Mark, text: &mut Vec<u8>) -> Result<(), AllocError>
    ensures { OnOk result (text.new.items ≡ text.old.items ++ committed_text frame.now.sheet mark.now) }
{
    let number = u64::from(mark.entry.word.unwrap_or(0));
    let words = [
        Part::Text("task "),
        Part::Number(number),
        Part::Text(" is committed"),
    ];
    label(text, frame.x(mark.place) - 6, TOP + 18, ENDED, &words)
}

// Writes an arrow's label at its middle.
#[tactic(auto, unfolding(crate::specs::Values::arrow_label))]
fn write_arrow_label(
    frame: &Frame<'_>,
    mark: &Mark,
    words: &str,
    text: &mut Vec<u8>,
) -> Result<(), AllocError>
    ensures { OnOk result (text.new.items ≡ text.old.items ++ arrow_label frame.now.sheet mark.now words.now) }
{
    let from = frame.at(mark);
    let to = frame.other_end(mark);
    let x = (from.x as u64 + to.x as u64) / 2 + 12;
    let y = (from.y as u64 + to.y as u64) / 2 + 2;
    label(text, x, y, "font-style='italic'", &[Part::Text(words)])
}

// Writes the words of a mark that isn't a value, if there is room for sentences.
fn write_sentence(frame: &Frame<'_>, mark: &Mark, text: &mut Vec<u8>) -> Result<(), AllocError>
    ensures { OnOk result (text.new.items ≡ text.old.items ++ sentence frame.now.sheet mark.now mark.now.kind) }
{
    if !frame.is_wide() {
        return Ok(());
    }
    match mark.kind {
        MarkKind::Commit => write_committed(frame, mark, text),
        MarkKind::Handed => write_arrow_label(frame, mark, "the version goes to a reader", text),
        MarkKind::Squash => write_arrow_label(frame, mark, "read too early", text),
        MarkKind::Load | MarkKind::Store | MarkKind::PutOut | MarkKind::Replace => Ok(()),
    }
}

// Writes a mark's words, where the one before it on its lane ends at an edge.
fn write_words(
    frame: &Frame<'_>,
    edge: u64,
    mark: &Mark,
    text: &mut Vec<u8>,
) -> Result<(), AllocError>
    ensures { OnOk result (text.new.items ≡ text.old.items ++ words_of frame.now.sheet edge mark.now mark.now.kind) }
{
    match mark.kind {
        MarkKind::Load | MarkKind::Store | MarkKind::PutOut => {
            write_value(frame, edge, mark, mark.entry.word.unwrap_or(0), text)
        }
        MarkKind::Commit | MarkKind::Handed | MarkKind::Squash | MarkKind::Replace => {
            write_sentence(frame, mark, text)
        }
    }
}

// Writes a mark's words, and notes where the mark ends on its lane.
fn write_next(
    frame: &Frame<'_>,
    mark: &Mark,
    edges: &mut [u64; 256],
    text: &mut Vec<u8>,
) -> Result<(), AllocError>
    ensures text { OnOk result (text.new.items ≡ text.old.items
        ++ words_of frame.now.sheet (get_or edges.old mark.now.entry.unit.0 0) mark.now mark.now.kind) }
    ensures edges { OnOk result (edges.new ≡ edges_after frame.now.sheet mark.now edges.old) }
{
    let lane = mark.entry.unit.0 as usize;
    write_words(frame, edges[lane], mark, text)?;
    edges[lane] = frame.x(mark.place) + frame.radius() as u64;
    Ok(())
}

/// Writes the words of the marks.
pub fn write_values(frame: &Frame<'_>, marks: &[Mark], text: &mut Vec<u8>) -> Result<(), AllocError>
    ensures { OnOk result (text.new.items ≡ text.old.items ++ values_text frame.now.sheet marks.now) }
{
    let mut edges = [LEFT; 256];
    for mark in marks {
        write_next(frame, mark, &mut edges, text)?;
    }
    Ok(())
}
