// The parts of a text.

ghost use Rattle.std.specs.Prelude.{◌≡◌, ◌++◌, OnOk, flat_map};
ghost use Rattle.svc_text.specs.Parts.{part_text};

use crate::pieces::Piece;
use std::alloc::AllocError;

/// A part of a text.
#[derive(Clone, Copy)]
pub enum Part<'a> {
    /// This text.
    Text(&'a str),
    /// This number, in decimal.
    Number(u64),
    /// This number in decimal, or nothing.
    Maybe(Option<u64>),
}

// Adds a part to a text.
fn put_part(text: &mut Vec<u8>, part: Part<'_>) -> Result<(), AllocError>
    ensures { OnOk result (text.new.items ≡ text.old.items ++ part_text part.entry) }
{
    match part {
        Part::Text(piece) => piece.put(text),
        Part::Number(number) => number.put(text),
        Part::Maybe(Some(number)) => number.put(text),
        Part::Maybe(None) => Ok(()),
    }
}

/// Adds parts to a text, one after the other.
///
/// Errors: [`AllocError`], if memory runs out.
pub fn put_parts(text: &mut Vec<u8>, parts: &[Part<'_>]) -> Result<(), AllocError>
    ensures { OnOk result (text.new.items ≡ text.old.items ++ flat_map part_text parts.now) }
{
    for part in parts {
        put_part(text, *part)?;
    }
    Ok(())
}
