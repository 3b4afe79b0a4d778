// The shapes of what surrounds them.

ghost use Rattle.std.specs.Prelude.{◌≡◌, ◌++◌, OnOk};
ghost use Rattle.svc_shapes.specs.Shapes.{headline, fate_sample, mark_sample, arrow_heads, parts_open, parts_close};
ghost use Rattle.svc_shapes.specs.Shapes.{lane, tick, opening, hatching, paper_text, commit_sample, thin_sample};
ghost use Rattle.svc_shapes.specs.Shapes.{bold_sample, closing, border, axis_words, bar_words};

use crate::sheet::Point;
use std::alloc::AllocError;
use svc_text::{Part, put_parts};

/// What is shown.
#[tactic(auto, unfolding(crate::specs::Shapes::headline))]
pub fn headline(
    text: &mut Vec<u8>,
    count: u64,
    total: u64,
    from: u64,
    units: u64,
) -> Result<(), AllocError>
    ensures { OnOk result (text.new.items ≡ text.old.items ++ headline count total from units) }
{
    put_parts(
        text,
        &[
            Part::Text("<text x='90' y='30' font-size='18' font-weight='bold'>"),
            Part::Number(count),
            Part::Text(" of "),
            Part::Number(total),
            Part::Text(" entries, from entry "),
            Part::Number(from),
            Part::Text("; units: "),
            Part::Number(units),
            Part::Text("</text>\n"),
        ],
    )
}

/// A sample of a fate, from the left.
#[tactic(auto, unfolding(crate::specs::Shapes::fate_sample))]
pub fn fate_sample<'a>(
    text: &mut Vec<u8>,
    x: u32,
    fill: &'a str,
    name: &'a str,
) -> Result<(), AllocError>
    ensures { OnOk result (text.new.items ≡ text.old.items ++ fate_sample x fill.now name.now) }
{
    let left = x as u64;
    put_parts(
        text,
        &[
            Part::Text("<rect x='"),
            Part::Number(left),
            Part::Text("' y='48' width='32' height='18' fill='"),
            Part::Text(fill),
            Part::Text("' stroke='#111'/><text x='"),
            Part::Number(left + 40),
            Part::Text("' y='62'>"),
            Part::Text(name),
            Part::Text("</text>\n"),
        ],
    )
}

/// A sample of a mark, and what it is.
#[tactic(auto, unfolding(crate::specs::Shapes::mark_sample))]
pub fn mark_sample<'a>(
    text: &mut Vec<u8>,
    middle: Point,
    name: &'a str,
    letter: &'a str,
    after: u32,
    words: &'a str,
) -> Result<(), AllocError>
    ensures { OnOk result (text.new.items
        ≡ text.old.items ++ mark_sample middle.x middle.y name.now letter.now after words.now) }
{
    let y = middle.y as u64;
    put_parts(
        text,
        &[
            Part::Text("<use href='#"),
            Part::Text(name),
            Part::Text(letter),
            Part::Text("' x='"),
            Part::Number(middle.x as u64),
            Part::Text("' y='"),
            Part::Number(y),
            Part::Text("'/><text x='"),
            Part::Number(after as u64),
            Part::Text("' y='"),
            Part::Number(y + 5),
            Part::Text("'>"),
            Part::Text(words),
            Part::Text("</text>\n"),
        ],
    )
}

/// The heads of arrows, which end at the rim of a mark of this size.
#[tactic(auto, unfolding(crate::specs::Shapes::arrow_heads))]
pub fn arrow_heads(text: &mut Vec<u8>, size: u32) -> Result<(), AllocError>
    ensures { OnOk result (text.new.items ≡ text.old.items ++ arrow_heads size) }
{
    let size = size as u64;
    put_parts(
        text,
        &[
            Part::Text("<marker id='thin' markerWidth='12' markerHeight='10' refX='"),
            Part::Number(11 + size),
            Part::Text(
                "' refY='5' orient='auto' markerUnits='userSpaceOnUse'><path d='M0 0L11 5L0 10Z' fill='#14508c'/></marker>",
            ),
            Part::Text("<marker id='bold' markerWidth='18' markerHeight='16' refX='"),
            Part::Number(18 + size),
            Part::Text(
                "' refY='8' orient='auto' markerUnits='userSpaceOnUse'><path d='M0 0L17 8L0 16Z' fill='#b01010'/></marker>\n",
            ),
        ],
    )
}

/// The beginning of what is made once.
#[tactic(auto, unfolding(crate::specs::Shapes::parts_open))]
pub fn parts_open(text: &mut Vec<u8>) -> Result<(), AllocError>
    ensures { OnOk result (text.new.items ≡ text.old.items ++ parts_open) }
{
    put_parts(text, &[Part::Text("<defs>\n")])
}

/// Its end.
#[tactic(auto, unfolding(crate::specs::Shapes::parts_close))]
pub fn parts_close(text: &mut Vec<u8>) -> Result<(), AllocError>
    ensures { OnOk result (text.new.items ≡ text.old.items ++ parts_close) }
{
    put_parts(text, &[Part::Text("</defs>\n")])
}

/// A lane, with its name before it.
#[tactic(auto, unfolding(crate::specs::Shapes::lane))]
pub fn lane(
    text: &mut Vec<u8>,
    number: u64,
    top: u64,
    height: u64,
    fill: &str,
    middle: u64,
) -> Result<(), AllocError>
    ensures { OnOk result (text.new.items ≡ text.old.items ++ lane number top height fill.now middle) }
{
    put_parts(
        text,
        &[
            Part::Text("<rect x='90' y='"),
            Part::Number(top),
            Part::Text("' width='1490' height='"),
            Part::Number(height),
            Part::Text("' fill='"),
            Part::Text(fill),
            Part::Text("'/><text x='20' y='"),
            Part::Number(middle),
            Part::Text("'>unit "),
            Part::Number(number),
            Part::Text("</text>\n"),
        ],
    )
}

/// An entry's number, below its place, where the lanes end.
#[tactic(auto, unfolding(crate::specs::Shapes::tick))]
pub fn tick(text: &mut Vec<u8>, x: u64, bottom: u32, place: u64) -> Result<(), AllocError>
    ensures { OnOk result (text.new.items ≡ text.old.items ++ tick x bottom place) }
{
    let bottom = bottom as u64;
    put_parts(
        text,
        &[
            Part::Text("<path d='M"),
            Part::Number(x),
            Part::Text(" "),
            Part::Number(bottom),
            Part::Text("V"),
            Part::Number(bottom + 7),
            Part::Text("' stroke='#111'/><text x='"),
            Part::Number(x),
            Part::Text("' y='"),
            Part::Number(bottom + 22),
            Part::Text("' text-anchor='middle'>"),
            Part::Number(place),
            Part::Text("</text>\n"),
        ],
    )
}

/// The size of a picture, by where its lanes end.
#[tactic(auto, unfolding(crate::specs::Shapes::opening))]
pub fn opening(text: &mut Vec<u8>, bottom: u32) -> Result<(), AllocError>
    ensures { OnOk result (text.new.items ≡ text.old.items ++ opening bottom) }
{
    let height = bottom as u64 + 62;
    put_parts(
        text,
        &[
            Part::Text(
                "<?xml version='1.0' encoding='UTF-8'?>\n<svg xmlns='http://www.w3.org/2000/svg' width='1600' height='",
            ),
            Part::Number(height),
            Part::Text("' viewBox='0 0 1600 "),
            Part::Number(height),
            Part::Text(
                "' font-family='Helvetica, Arial, sans-serif' font-size='14' fill='#111'>\n<defs>\n",
            ),
        ],
    )
}

/// A hatching of 8 by 8.
#[tactic(auto, unfolding(crate::specs::Shapes::hatching))]
pub fn hatching<'a>(
    text: &mut Vec<u8>,
    name: &'a str,
    turn: &'a str,
    paper: &'a str,
    lines: &'a str,
) -> Result<(), AllocError>
    ensures { OnOk result (text.new.items ≡ text.old.items ++ hatching name.now turn.now paper.now lines.now) }
{
    put_parts(
        text,
        &[
            Part::Text("<pattern id='"),
            Part::Text(name),
            Part::Text("' width='8' height='8' patternUnits='userSpaceOnUse'"),
            Part::Text(turn),
            Part::Text("><rect width='8' height='8' fill='"),
            Part::Text(paper),
            Part::Text("'/>"),
            Part::Text(lines),
            Part::Text("</pattern>\n"),
        ],
    )
}

/// The paper, after the hatchings.
#[tactic(auto, unfolding(crate::specs::Shapes::paper_text))]
pub fn paper_text(text: &mut Vec<u8>, bottom: u32) -> Result<(), AllocError>
    ensures { OnOk result (text.new.items ≡ text.old.items ++ paper_text bottom) }
{
    put_parts(
        text,
        &[
            Part::Text("</defs>\n<rect width='1600' height='"),
            Part::Number(bottom as u64 + 62),
            Part::Text("' fill='#fff'/>\n"),
        ],
    )
}

/// A sample of a commit.
#[tactic(auto, unfolding(crate::specs::Shapes::commit_sample))]
pub fn commit_sample(text: &mut Vec<u8>) -> Result<(), AllocError>
    ensures { OnOk result (text.new.items ≡ text.old.items ++ commit_sample) }
{
    put_parts(
        text,
        &[Part::Text(
            "<path d='M550 80V100' stroke='#2e7d32' stroke-width='2' stroke-dasharray='6 4'/><text x='562' y='95'>commit</text>\n",
        )],
    )
}

/// A sample of a thin arrow.
#[tactic(auto, unfolding(crate::specs::Shapes::thin_sample))]
pub fn thin_sample(text: &mut Vec<u8>) -> Result<(), AllocError>
    ensures { OnOk result (text.new.items ≡ text.old.items ++ thin_sample) }
{
    put_parts(
        text,
        &[Part::Text(
            "<path d='M670 90H735' stroke='#14508c' stroke-width='2' marker-end='url(#thin)'/>",
        )],
    )
}

/// A sample of a bold arrow.
#[tactic(auto, unfolding(crate::specs::Shapes::bold_sample))]
pub fn bold_sample(text: &mut Vec<u8>) -> Result<(), AllocError>
    ensures { OnOk result (text.new.items ≡ text.old.items ++ bold_sample) }
{
    put_parts(
        text,
        &[Part::Text(
            "<path d='M1090 90H1160' stroke='#b01010' stroke-width='4' marker-end='url(#bold)'/>",
        )],
    )
}

/// The end of a picture.
#[tactic(auto, unfolding(crate::specs::Shapes::closing))]
pub fn closing(text: &mut Vec<u8>) -> Result<(), AllocError>
    ensures { OnOk result (text.new.items ≡ text.old.items ++ closing) }
{
    put_parts(text, &[Part::Text("</svg>\n")])
}

/// The rim of the lanes, as high as they are together.
#[tactic(auto, unfolding(crate::specs::Shapes::border))]
pub fn border(text: &mut Vec<u8>, height: u64) -> Result<(), AllocError>
    ensures { OnOk result (text.new.items ≡ text.old.items ++ border height) }
{
    put_parts(
        text,
        &[
            Part::Text("<rect x='90' y='118' width='1490' height='"),
            Part::Number(height),
            Part::Text("' fill='none' stroke='#888'/>\n"),
        ],
    )
}

/// The words below the axis: what a bar's words are.
#[tactic(auto, unfolding(crate::specs::Shapes::bar_words))]
pub fn bar_words(text: &mut Vec<u8>, bottom: u32) -> Result<(), AllocError>
    ensures { OnOk result (text.new.items ≡ text.old.items ++ bar_words bottom) }
{
    put_parts(
        text,
        &[
            Part::Text("<text x='90' y='"),
            Part::Number(bottom as u64 + 46),
            Part::Text(
                "'>in a bar: the number of its task @ the address where that began</text>\n",
            ),
        ],
    )
}

/// And what the numbers are.
#[tactic(auto, unfolding(crate::specs::Shapes::axis_words))]
pub fn axis_words(text: &mut Vec<u8>, bottom: u32) -> Result<(), AllocError>
    ensures { OnOk result (text.new.items ≡ text.old.items ++ axis_words bottom) }
{
    put_parts(
        text,
        &[
            Part::Text("<text x='1580' y='"),
            Part::Number(bottom as u64 + 46),
            Part::Text("' text-anchor='end'>entry of the trace, counted from 0</text>\n"),
        ],
    )
}
