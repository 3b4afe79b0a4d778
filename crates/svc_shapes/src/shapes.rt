// The shapes of bars and marks.

ghost use Rattle.std.specs.Prelude.{◌≡◌, ◌++◌, OnOk, flat_map};
ghost use Rattle.svc_text.specs.Parts.{part_text};
ghost use Rattle.svc_shapes.specs.Shapes.{label, mark_at, rim_open, rim_close, commit_line, thin_arrow, bold_arrow};
ghost use Rattle.svc_shapes.specs.Shapes.{bar_box, box_fate, box_title, close, label_close, label_open, title_open};

use crate::sheet::{Point, TOP};
use std::alloc::AllocError;
use svc_text::{Part, put_parts};

/// A mark of a kind, at a place.
#[tactic(auto, unfolding(crate::specs::Shapes::mark_at))]
pub fn mark_at<'a>(
    text: &mut Vec<u8>,
    middle: Point,
    name: &'a str,
    letter: &'a str,
) -> Result<(), AllocError>
    ensures { OnOk result (text.new.items ≡ text.old.items ++ mark_at middle.x middle.y name.now letter.now) }
{
    put_parts(
        text,
        &[
            Part::Text("<use href='#"),
            Part::Text(name),
            Part::Text(letter),
            Part::Text("' x='"),
            Part::Number(middle.x as u64),
            Part::Text("' y='"),
            Part::Number(middle.y as u64),
            Part::Text("'>"),
        ],
    )
}

/// A broken line across all lanes, down to where they end: a commit.
#[tactic(auto, unfolding(crate::specs::Shapes::commit_line))]
pub fn commit_line(text: &mut Vec<u8>, x: u64, bottom: u64) -> Result<(), AllocError>
    ensures { OnOk result (text.new.items ≡ text.old.items ++ commit_line x bottom) }
{
    put_parts(
        text,
        &[
            Part::Text("<path d='M"),
            Part::Number(x),
            Part::Text(" "),
            Part::Number(TOP),
            Part::Text("V"),
            Part::Number(bottom),
            Part::Text("' fill='none' stroke='#2e7d32' stroke-width='2' stroke-dasharray='6 4'>"),
        ],
    )
}

/// A thin arrow: a version goes to its reader.
#[tactic(auto, unfolding(crate::specs::Shapes::thin_arrow))]
pub fn thin_arrow(text: &mut Vec<u8>, from: Point, to: Point) -> Result<(), AllocError>
    ensures { OnOk result (text.new.items ≡ text.old.items ++ thin_arrow from.x from.y to.x to.y) }
{
    put_parts(
        text,
        &[
            Part::Text("<path d='M"),
            Part::Number(from.x as u64),
            Part::Text(" "),
            Part::Number(from.y as u64),
            Part::Text("L"),
            Part::Number(to.x as u64),
            Part::Text(" "),
            Part::Number(to.y as u64),
            Part::Text("' fill='none' stroke='#14508c' stroke-width='2' marker-end='url(#thin)'>"),
        ],
    )
}

/// A bold arrow: a store squashes a reader.
#[tactic(auto, unfolding(crate::specs::Shapes::bold_arrow))]
pub fn bold_arrow(text: &mut Vec<u8>, from: Point, to: Point) -> Result<(), AllocError>
    ensures { OnOk result (text.new.items ≡ text.old.items ++ bold_arrow from.x from.y to.x to.y) }
{
    put_parts(
        text,
        &[
            Part::Text("<path d='M"),
            Part::Number(from.x as u64),
            Part::Text(" "),
            Part::Number(from.y as u64),
            Part::Text("L"),
            Part::Number(to.x as u64),
            Part::Text(" "),
            Part::Number(to.y as u64),
            Part::Text("' fill='none' stroke='#b01010' stroke-width='4' marker-end='url(#bold)'>"),
        ],
    )
}

/// The end of a mark's element.
#[tactic(auto, unfolding(crate::specs::Shapes::close))]
pub fn close(text: &mut Vec<u8>, element: &str) -> Result<(), AllocError>
    ensures { OnOk result (text.new.items ≡ text.old.items ++ close element.now) }
{
    put_parts(
        text,
        &[Part::Text("</"), Part::Text(element), Part::Text(">\n")],
    )
}

/// The beginning of the title that shows at the pointer.
#[tactic(auto, unfolding(crate::specs::Shapes::title_open))]
pub fn title_open(text: &mut Vec<u8>, place: u64) -> Result<(), AllocError>
    ensures { OnOk result (text.new.items ≡ text.old.items ++ title_open place) }
{
    put_parts(
        text,
        &[
            Part::Text("<title>entry "),
            Part::Number(place),
            Part::Text(": "),
        ],
    )
}

/// A box: a bar.
#[tactic(auto, unfolding(crate::specs::Shapes::bar_box))]
pub fn bar_box(
    text: &mut Vec<u8>,
    x: u64,
    y: u64,
    width: u64,
    height: u64,
    fill: &str,
) -> Result<(), AllocError>
    ensures { OnOk result (text.new.items ≡ text.old.items ++ bar_box x y width height fill.now) }
{
    put_parts(
        text,
        &[
            Part::Text("<rect x='"),
            Part::Number(x),
            Part::Text("' y='"),
            Part::Number(y),
            Part::Text("' width='"),
            Part::Number(width),
            Part::Text("' height='"),
            Part::Number(height),
            Part::Text("' rx='3' fill='"),
            Part::Text(fill),
            Part::Text("' stroke='#333'>"),
        ],
    )
}

/// The beginning of a bar's title: its task, and the address where that began.
#[tactic(auto, unfolding(crate::specs::Shapes::box_title))]
pub fn box_title(text: &mut Vec<u8>, number: u64, entry: u64) -> Result<(), AllocError>
    ensures { OnOk result (text.new.items ≡ text.old.items ++ box_title number entry) }
{
    put_parts(
        text,
        &[
            Part::Text("<title>task "),
            Part::Number(number),
            Part::Text(" at address "),
            Part::Number(entry),
        ],
    )
}

/// The rest of it: what became of the task.
#[tactic(auto, unfolding(crate::specs::Shapes::box_fate))]
pub fn box_fate(text: &mut Vec<u8>, first: u64, fate: &str, turns: u64) -> Result<(), AllocError>
    ensures { OnOk result (text.new.items ≡ text.old.items ++ box_fate first fate.now turns) }
{
    put_parts(
        text,
        &[
            Part::Text(", begun by entry "),
            Part::Number(first),
            Part::Text(": "),
            Part::Text(fate),
            Part::Text("; turns: "),
            Part::Number(turns),
        ],
    )
}

/// The beginning of words.
#[tactic(auto, unfolding(crate::specs::Shapes::label_open))]
pub fn label_open(text: &mut Vec<u8>, x: u64, y: u64, style: &str) -> Result<(), AllocError>
    ensures { OnOk result (text.new.items ≡ text.old.items ++ label_open x y style.now) }
{
    put_parts(
        text,
        &[
            Part::Text("<text x='"),
            Part::Number(x),
            Part::Text("' y='"),
            Part::Number(y),
            Part::Text("' "),
            Part::Text(style),
            Part::Text(">"),
        ],
    )
}

/// The end of such words.
#[tactic(auto, unfolding(crate::specs::Shapes::label_close))]
pub fn label_close(text: &mut Vec<u8>) -> Result<(), AllocError>
    ensures { OnOk result (text.new.items ≡ text.old.items ++ label_close) }
{
    put_parts(text, &[Part::Text("</text>\n")])
}

/// Words.
#[tactic(auto, unfolding(crate::specs::Shapes::label))]
pub fn label(
    text: &mut Vec<u8>,
    x: u64,
    y: u64,
    style: &str,
    words: &[Part<'_>],
) -> Result<(), AllocError>
    ensures { OnOk result (text.new.items ≡ text.old.items ++ label x y style.now (flat_map part_text words.now)) }
{
    label_open(text, x, y, style)?;
    put_parts(text, words)?;
    label_close(text)?;
    Ok(())
}

/// The beginning of words that have a white rim.
#[tactic(auto, unfolding(crate::specs::Shapes::rim_open))]
pub fn rim_open(text: &mut Vec<u8>) -> Result<(), AllocError>
    ensures { OnOk result (text.new.items ≡ text.old.items ++ rim_open) }
{
    put_parts(
        text,
        &[Part::Text(
            "<g paint-order='stroke' stroke='#fff' stroke-width='4' stroke-linejoin='round'>\n",
        )],
    )
}

/// Their end.
#[tactic(auto, unfolding(crate::specs::Shapes::rim_close))]
pub fn rim_close(text: &mut Vec<u8>) -> Result<(), AllocError>
    ensures { OnOk result (text.new.items ≡ text.old.items ++ rim_close) }
{
    put_parts(text, &[Part::Text("</g>\n")])
}
