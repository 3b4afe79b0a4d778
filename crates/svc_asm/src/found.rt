// What stands where a text can't be read further.

ghost use Rattle.std.specs.Prelude.{◌≤◌};

use std::fmt;

/// The most characters of a word that a fault shows.
const MOST_TOLD: usize = 24;

/// What stands where a text can't be read further.
#[derive(Clone, Copy, Debug)]
pub enum Found {
    /// The end of the text.
    TextEnd,
    /// The end of a line, or the comment before it.
    LineEnd,
    /// A word, or a mark.
    Word(Word),
}

/// The first characters of a word.
#[derive(Clone, Copy, Debug)]
pub struct Word {
    bytes: [u8; MOST_TOLD],
    length: usize,
    // Whether the word has more.
    is_cut: bool,
    ghost within: { length ≤ 24 },
}

// Whether a character goes on with a word: one of a name or a number, a sign, or a part of a character in quotes.
fn goes_on(c: u8) -> bool {
    match c {
        b'a'..=b'z' | b'A'..=b'Z' | b'0'..=b'9' => true,
        b'.' | b'_' | b'$' | b'+' | b'-' | b'%' | b'\'' | b'\\' => true,
        _ => false,
    }
}

// The word that a text begins with, of which the first character is a part in any case.
fn first_word(text: &[u8]) -> Word {
    let mut bytes = [0; MOST_TOLD];
    let mut length = 0;
    let mut is_cut = false;
    for &c in text {
        if length > 0 && !goes_on(c) {
            break;
        }
        if length >= MOST_TOLD {
            is_cut = true;
            break;
        }
        bytes[length] = c;
        length += 1;
    }
    Word {
        bytes,
        length,
        is_cut,
    }
}

/// What a text begins with.
pub(crate) fn found_in(text: &[u8]) -> Found {
    match text {
        [] => Found::TextEnd,
        [b'\n' | b'#' | b';', ..] => Found::LineEnd,
        [first, ..] if goes_on(*first) => Found::Word(first_word(text)),
        _ => Found::Word(first_word(&text[..1])),
    }
}

// Writes a character, or, where it has no shape of its own, its escape.
fn write_escaped<W: fmt::Write>(f: &mut fmt::Formatter<W>, byte: u8) -> fmt::Result {
    match byte {
        b'\t' => write!(f, "\\t"),
        b'\r' => write!(f, "\\r"),
        b' '..=b'~' => {
            let character = byte as char;
            write!(f, "{character}")
        }
        _ => write!(f, "\\x{byte:02x}"),
    }
}

impl fmt::Display for Word {
    fn fmt<W: fmt::Write>(&self, f: &mut fmt::Formatter<W>) -> fmt::Result {
        for &byte in &self.bytes[..self.length] {
            write_escaped(f, byte)?;
        }
        if self.is_cut {
            write!(f, "...")?;
        }
        Ok(())
    }
}

impl fmt::Display for Found {
    fn fmt<W: fmt::Write>(&self, f: &mut fmt::Formatter<W>) -> fmt::Result {
        match self {
            Found::TextEnd => write!(f, "the end of the text"),
            Found::LineEnd => write!(f, "the end of the line"),
            Found::Word(word) => write!(f, "`{word}`"),
        }
    }
}
