// How addresses and words are told: by their names, if names are given and they have one, or else by their numbers.

ghost use Rattle.std.specs.Prelude.{◌≡◌, ◌++◌, OnOk, length, nat_le};
ghost use Rattle.svc_names.specs.Given.{listed};
ghost use Rattle.svc_names.specs.Near.{behind_text};
ghost use Rattle.svc_sheet.specs.Names.{address_label, address_line, label_text, word_called, word_label};

use crate::drawing::digits;
use std::alloc::AllocError;
use svc_base::WordAddr;
use svc_names::{Names, Near, data_address, put_note};
use svc_text::{Piece, put};

/// An address or a word, as it is told.
#[derive(Clone, Copy)]
pub(crate) enum Label<'a> {
    /// By this name.
    Name(Near<'a>),
    /// By its number, behind this text.
    Number(&'a str, u64),
}

// How many letters tell how far behind a name an address is.
fn letters_behind(behind: u64) -> u64
    ensures { result ≡ length (behind_text behind) }
{
    if behind > 0 { 1 + digits(behind) } else { 0 }
}

impl Label<'_> {
    /// Whether it has at most so many letters.
    pub(crate) fn fits(self, letters: u64) -> bool
        ensures { result ≡ nat_le (length (label_text self.entry)) letters }
    {
        match self {
            Label::Name(near) => {
                let name = near.name.len() as u64;
                name <= letters && letters_behind(near.behind) <= letters - name
            }
            Label::Number(before, number) => {
                let before = before.len() as u64;
                before <= letters && digits(number) <= letters - before
            }
        }
    }

    /// Adds it to a text.
    pub(crate) fn put(self, text: &mut Vec<u8>) -> Result<(), AllocError>
        ensures { OnOk result (text.new.items ≡ text.old.items ++ label_text self.entry) }
    {
        match self {
            Label::Name(near) => near.put(text),
            Label::Number(before, number) => {
                put!(text; before, number);
                Ok(())
            }
        }
    }
}

/// An address by its name, if names are given and it has one, or by its number.
pub(crate) fn address_label(names: Option<&Names>, address: u64) -> Label<'_>
    ensures { label_text result ≡ address_label (listed names.entry) address }
{
    let Some(names) = names else {
        return Label::Number("", address);
    };
    match names.nearest(address) {
        Some(near) => Label::Name(near),
        None => Label::Number("", address),
    }
}

/// A word of data likewise.
pub(crate) fn word_label(names: Option<&Names>, word: WordAddr) -> Label<'_>
    ensures { label_text result ≡ word_label (listed names.entry) word.0 }
{
    let number = u64::from(word.0);
    let Some(names) = names else {
        return Label::Number("word ", number);
    };
    match names.nearest(data_address(word.0)) {
        Some(near) => Label::Name(near),
        None => Label::Number("word ", number),
    }
}

/// Adds a line with the name of a word, if names are given and it has one.
pub(crate) fn put_word_called(
    text: &mut Vec<u8>,
    names: Option<&Names>,
    word: Option<WordAddr>,
) -> Result<(), AllocError>
    ensures { OnOk result (text.new.items ≡ text.old.items ++ word_called (listed names.entry) word) }
{
    let (Some(names), Some(word)) = (names, word) else {
        return Ok(());
    };
    if let Some(near) = names.nearest(data_address(word.0)) {
        put!(text; "word ", word.0, " is ", near, "\n");
    }
    Ok(())
}

/// Adds a line with the address of an instruction, and its name, if names are given and it has one.
pub(crate) fn put_address(
    text: &mut Vec<u8>,
    names: Option<&Names>,
    address: Option<u32>,
) -> Result<(), AllocError>
    ensures { OnOk result (text.new.items ≡ text.old.items ++ address_line (listed names.entry) address) }
{
    let Some(address) = address else {
        return Ok(());
    };
    put!(text; "at address ", address);
    put_note(names, text, address)?;
    put!(text; "\n");
    Ok(())
}
