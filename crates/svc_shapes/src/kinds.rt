// The kinds of marks, about the place where they are used.

ghost use Rattle.std.specs.Prelude.{◌≡◌, ◌++◌, OnOk};
ghost use Rattle.svc_shapes.specs.Shapes.{ring, square, diamond, cross, letter_within, letter_above, kind_open};
ghost use Rattle.svc_shapes.specs.Shapes.{kind_close};

use std::alloc::AllocError;
use svc_text::{Part, put_parts};

/// A ring: a load.
#[tactic(auto, unfolding(crate::specs::Shapes::ring))]
pub fn ring(text: &mut Vec<u8>, size: u32) -> Result<(), AllocError>
    ensures { OnOk result (text.new.items ≡ text.old.items ++ ring size) }
{
    put_parts(
        text,
        &[
            Part::Text("<circle r='"),
            Part::Number(size as u64),
            Part::Text("' fill='#fff' stroke='#111' stroke-width='2'/>"),
        ],
    )
}

/// A full square: a store.
#[tactic(auto, unfolding(crate::specs::Shapes::square))]
pub fn square(text: &mut Vec<u8>, size: u32) -> Result<(), AllocError>
    ensures { OnOk result (text.new.items ≡ text.old.items ++ square size) }
{
    let size = size as u64;
    put_parts(
        text,
        &[
            Part::Text("<rect x='-"),
            Part::Number(size),
            Part::Text("' y='-"),
            Part::Number(size),
            Part::Text("' width='"),
            Part::Number(2 * size),
            Part::Text("' height='"),
            Part::Number(2 * size),
            Part::Text("' fill='#111'/>"),
        ],
    )
}

/// A diamond: an output word.
#[tactic(auto, unfolding(crate::specs::Shapes::diamond))]
pub fn diamond(text: &mut Vec<u8>, half: u32) -> Result<(), AllocError>
    ensures { OnOk result (text.new.items ≡ text.old.items ++ diamond half) }
{
    let half = half as u64;
    put_parts(
        text,
        &[
            Part::Text("<path d='M-"),
            Part::Number(half),
            Part::Text(" 0L0 -"),
            Part::Number(half),
            Part::Text("L"),
            Part::Number(half),
            Part::Text(" 0L0 "),
            Part::Number(half),
            Part::Text("Z' fill='#ffe04a' stroke='#111' stroke-width='2'/>"),
        ],
    )
}

/// A cross: a line that is let go.
#[tactic(auto, unfolding(crate::specs::Shapes::cross))]
pub fn cross(text: &mut Vec<u8>, half: u32) -> Result<(), AllocError>
    ensures { OnOk result (text.new.items ≡ text.old.items ++ cross half) }
{
    let half = half as u64;
    put_parts(
        text,
        &[
            Part::Text("<path d='M-"),
            Part::Number(half),
            Part::Text(" -"),
            Part::Number(half),
            Part::Text("L"),
            Part::Number(half),
            Part::Text(" "),
            Part::Number(half),
            Part::Text("M-"),
            Part::Number(half),
            Part::Text(" "),
            Part::Number(half),
            Part::Text("L"),
            Part::Number(half),
            Part::Text(" -"),
            Part::Number(half),
            Part::Text("' stroke='#111' stroke-width='3'/>"),
        ],
    )
}

/// The letter of a supplier, in a mark that has room for it.
#[tactic(auto, unfolding(crate::specs::Shapes::letter_within))]
pub fn letter_within<'a>(
    text: &mut Vec<u8>,
    size: u32,
    fill: &'a str,
    letter: &'a str,
) -> Result<(), AllocError>
    ensures { OnOk result (text.new.items ≡ text.old.items ++ letter_within size fill.now letter.now) }
{
    let height = size as u64 + 2;
    put_parts(
        text,
        &[
            Part::Text("<text y='"),
            Part::Number(height * 9 / 25),
            Part::Text("' font-size='"),
            Part::Number(height),
            Part::Text("' font-weight='bold' text-anchor='middle' fill='"),
            Part::Text(fill),
            Part::Text("'>"),
            Part::Text(letter),
            Part::Text("</text>"),
        ],
    )
}

/// The letter of a supplier, above a smaller mark.
#[tactic(auto, unfolding(crate::specs::Shapes::letter_above))]
pub fn letter_above(text: &mut Vec<u8>, size: u32, letter: &str) -> Result<(), AllocError>
    ensures { OnOk result (text.new.items ≡ text.old.items ++ letter_above size letter.now) }
{
    put_parts(
        text,
        &[
            Part::Text("<text y='-"),
            Part::Number(size as u64 + 2),
            Part::Text("' font-size='9' font-weight='bold' text-anchor='middle'>"),
            Part::Text(letter),
            Part::Text("</text>"),
        ],
    )
}

/// The beginning of a kind of mark.
#[tactic(auto, unfolding(crate::specs::Shapes::kind_open))]
pub fn kind_open<'a>(text: &mut Vec<u8>, name: &'a str, letter: &'a str) -> Result<(), AllocError>
    ensures { OnOk result (text.new.items ≡ text.old.items ++ kind_open name.now letter.now) }
{
    put_parts(
        text,
        &[
            Part::Text("<g id='"),
            Part::Text(name),
            Part::Text(letter),
            Part::Text("'>"),
        ],
    )
}

/// Its end.
#[tactic(auto, unfolding(crate::specs::Shapes::kind_close))]
pub fn kind_close(text: &mut Vec<u8>) -> Result<(), AllocError>
    ensures { OnOk result (text.new.items ≡ text.old.items ++ kind_close) }
{
    put_parts(text, &[Part::Text("</g>\n")])
}
