// The kinds of marks, each made once for a picture.

ghost use Rattle.std.specs.Prelude.{◌≡◌, ◌++◌, ◌≤◌, OnOk};
ghost use Rattle.svc_sheet.specs.Kinds.{kinds_of, letter_of, letter_text, load_kind, output_kind, plain_kinds};
ghost use Rattle.svc_sheet.specs.Kinds.{plain_load, plain_store, replace_kind, store_kind, supplied_kinds};

use std::alloc::AllocError;
use svc_history_laws::ServedKind;
use svc_shapes::{
    cross, diamond, kind_close, kind_open, letter_above, letter_within, ring, square,
};

/// Who supplied a read, as a letter.
pub fn letter_of(served: Option<ServedKind>) -> &'static str
    ensures { result.now ≡ letter_of served }
{
    match served {
        None => "",
        Some(ServedKind::Hit) => "H",
        Some(ServedKind::Reuse) => "R",
        Some(ServedKind::Version) => "V",
        Some(ServedKind::Spill) => "S",
        Some(ServedKind::Committed) => "C",
        Some(ServedKind::Memory) => "M",
    }
}

// Writes a letter in a mark, or above a small one.
fn write_letter<'a>(
    size: u32,
    fill: &'a str,
    letter: &'a str,
    text: &mut Vec<u8>,
) -> Result<(), AllocError>
    ensures { OnOk result (text.new.items ≡ text.old.items ++ letter_text size fill.now letter.now) }
{
    if size >= 7 {
        letter_within(text, size, fill, letter)
    } else {
        letter_above(text, size, letter)
    }
}

// Writes the kind of a load that no supplier is told of.
#[tactic(auto, unfolding(crate::specs::Kinds::plain_load))]
fn write_plain_load(size: u32, text: &mut Vec<u8>) -> Result<(), AllocError>
    ensures { OnOk result (text.new.items ≡ text.old.items ++ plain_load size) }
{
    kind_open(text, "load", "")?;
    ring(text, size)?;
    kind_close(text)?;
    Ok(())
}

// Writes the kind of a store that reads nothing.
#[tactic(auto, unfolding(crate::specs::Kinds::plain_store))]
fn write_plain_store(size: u32, text: &mut Vec<u8>) -> Result<(), AllocError>
    ensures { OnOk result (text.new.items ≡ text.old.items ++ plain_store size) }
{
    kind_open(text, "store", "")?;
    square(text, size)?;
    kind_close(text)?;
    Ok(())
}

// Writes the kind of an output word.
#[tactic(auto, unfolding(crate::specs::Kinds::output_kind))]
fn write_output(size: u32, text: &mut Vec<u8>) -> Result<(), AllocError>
    requires small { size ≤ 10 }
    ensures { OnOk result (text.new.items ≡ text.old.items ++ output_kind size) }
{
    kind_open(text, "output", "")?;
    diamond(text, size + 2)?;
    kind_close(text)?;
    Ok(())
}

// Writes the kind of a replacement.
#[tactic(auto, unfolding(crate::specs::Kinds::replace_kind))]
fn write_replace(size: u32, text: &mut Vec<u8>) -> Result<(), AllocError>
    ensures { OnOk result (text.new.items ≡ text.old.items ++ replace_kind size) }
{
    kind_open(text, "replace", "")?;
    cross(text, size)?;
    kind_close(text)?;
    Ok(())
}

/// Writes the kinds that read nothing.
#[tactic(auto, unfolding(crate::specs::Kinds::plain_kinds))]
pub fn write_plain_kinds(size: u32, text: &mut Vec<u8>) -> Result<(), AllocError>
    requires small { size ≤ 10 }
    ensures { OnOk result (text.new.items ≡ text.old.items ++ plain_kinds size) }
{
    write_plain_load(size, text)?;
    write_plain_store(size, text)?;
    write_output(size, text)?;
    write_replace(size, text)?;
    Ok(())
}

// Writes the kind of a load with a letter.
#[tactic(auto, unfolding(crate::specs::Kinds::load_kind))]
fn write_load(size: u32, letter: &str, text: &mut Vec<u8>) -> Result<(), AllocError>
    ensures { OnOk result (text.new.items ≡ text.old.items ++ load_kind size letter.now) }
{
    kind_open(text, "load", letter)?;
    ring(text, size)?;
    write_letter(size, "#111", letter, text)?;
    kind_close(text)?;
    Ok(())
}

// Writes the kind of a store with a letter.
#[tactic(auto, unfolding(crate::specs::Kinds::store_kind))]
fn write_store(size: u32, letter: &str, text: &mut Vec<u8>) -> Result<(), AllocError>
    ensures { OnOk result (text.new.items ≡ text.old.items ++ store_kind size letter.now) }
{
    kind_open(text, "store", letter)?;
    square(text, size)?;
    write_letter(size, "#fff", letter, text)?;
    kind_close(text)?;
    Ok(())
}

// Writes the kinds of a supplier.
#[tactic(auto, unfolding(crate::specs::Kinds::kinds_of))]
fn write_kinds(size: u32, served: Option<ServedKind>, text: &mut Vec<u8>) -> Result<(), AllocError>
    ensures { OnOk result (text.new.items ≡ text.old.items ++ kinds_of size served) }
{
    let letter = letter_of(served);
    write_load(size, letter, text)?;
    write_store(size, letter, text)?;
    Ok(())
}

/// Writes the kinds of all suppliers.
#[tactic(auto, unfolding(crate::specs::Kinds::supplied_kinds))]
pub fn write_supplied_kinds(size: u32, text: &mut Vec<u8>) -> Result<(), AllocError>
    ensures { OnOk result (text.new.items ≡ text.old.items ++ supplied_kinds size) }
{
    write_kinds(size, Some(ServedKind::Hit), text)?;
    write_kinds(size, Some(ServedKind::Reuse), text)?;
    write_kinds(size, Some(ServedKind::Version), text)?;
    write_kinds(size, Some(ServedKind::Spill), text)?;
    write_kinds(size, Some(ServedKind::Committed), text)?;
    write_kinds(size, Some(ServedKind::Memory), text)?;
    Ok(())
}
