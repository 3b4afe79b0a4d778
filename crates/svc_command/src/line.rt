//! A line of words, and what its parser made of it.

ghost use Rattle.std.specs.Prelude.{◌≡◌, ◌+◌, ◌++◌, ◌∷◌, ℕ, Ok, Some, IfOk, IfSome, IsTrue, codes, drop, map};
ghost use Rattle.std.specs.Prelude.{slice_get};
ghost use Rattle.svc_command.specs.Line.{AreInOrder, Has, HasWord, IsGivenNumber, IsJoined, IsNext, IsNumberOf};
ghost use Rattle.svc_command.specs.Line.{IsValueOf, option_word, texts};

use clap::ArgMatches;
use std::str::FromStr;
use svc_program::Fault;

/// The words of a line, and what its parser made of them. A value from the parser is looked up on the line.
#[derive(Clone, Copy)]
pub(crate) struct Line<'w, 'a> {
    pub(crate) words: &'w [String],
    pub(crate) given: &'w ArgMatches<'a>,
}

impl<'w, 'a> Line<'w, 'a> {
    /// A file by its place on the line, which has to be named.
    pub(crate) fn file(self, name: &str) -> Result<&'a str, Fault>
        ensures { IfOk result (λ file. HasWord file.now (texts self.entry.words.now)) }
    {
        match self.given.get_str(name) {
            Some(file) if has_word(self.words, file) => Ok(file),
            // The parser reads no line without it, and gives a word of the line.
            _ => Err(Fault::File),
        }
    }

    /// The last file by a place on the line that takes several, and those before it.
    pub(crate) fn last_file(self, name: &str) -> Result<(&'a str, &'w [&'a str]), Fault>
        ensures { IfOk result (λ files. HasWord files.0.now (texts self.entry.words.now)) }
    {
        // The parser reads no line without it, and gives words of the line.
        let files = self.given.get_strs(name).ok_or(Fault::File)?;
        match files.split_last() {
            Some((last, others)) if has_word(self.words, last) => Ok((*last, others)),
            _ => Err(Fault::File),
        }
    }

    /// A file by its place on the line, with these others behind it.
    pub(crate) fn file_before(self, name: &str, others: &[&str]) -> Result<&'a str, Fault>
        ensures { IfOk result (λ file.
            AreInOrder (file.now ∷ map (λ other. other.now) others.now) (texts self.entry.words.now)) }
    {
        match self.given.get_str(name) {
            Some(file) if are_in_order(self.words, file, others) => Ok(file),
            // The parser gives words of the line, in its order.
            _ => Err(Fault::File),
        }
    }

    /// The value of an option, if it is given.
    pub(crate) fn option(self, name: &str) -> Result<Option<&'a str>, Fault>
        ensures { IfOk result (λ value. IfSome value
            (λ text. IsValueOf name.now text.now (texts self.entry.words.now))) }
    {
        match self.given.get_str(name) {
            Some(value) if has_value(self.words, name, value) => Ok(Some(value)),
            // The parser gives a value that the line gives.
            Some(_) => Err(Fault::File),
            None => Ok(None),
        }
    }

    /// The number of an option, or the default if none is given.
    pub(crate) fn number(self, name: &str, default: u32) -> Result<u32, Fault>
        ensures { IfOk result (λ number. IsNumberOf name.now default number (texts self.entry.words.now)) }
    {
        let Some(text) = self.given.get_str(name) else {
            return Ok(default);
        };
        // The parser accepts no other text as a number.
        let number = number_of::<u32>(text).ok_or(Fault::File)?;
        if number == default || has_value(self.words, name, text) {
            return Ok(number);
        }
        // The parser gives a value that the line gives, or the default.
        Err(Fault::File)
    }

    /// The number of an option that is required.
    pub(crate) fn given_number(self, name: &str) -> Result<u32, Fault>
        ensures { IfOk result (λ number. IsGivenNumber name.now number (texts self.entry.words.now)) }
    {
        match self.option(name)? {
            Some(text) => number_of::<u32>(text).ok_or(Fault::File),
            // The parser reads no line without it.
            None => Err(Fault::File),
        }
    }

    /// The number of an option, if it is given.
    pub(crate) fn number_if_given(self, name: &str) -> Result<Option<u32>, Fault>
        ensures { IfOk result (λ number. IfSome number
            (λ n. IsGivenNumber name.now n (texts self.entry.words.now))) }
    {
        match self.option(name)? {
            Some(text) => Ok(Some(number_of::<u32>(text).ok_or(Fault::File)?)),
            None => Ok(None),
        }
    }

    /// The number of 64 bits of an option, if it is given.
    pub(crate) fn index(self, name: &str) -> Result<Option<u64>, Fault>
        ensures { IfOk result (λ index. IfSome index (λ n. IsGivenNumber name.now n (texts self.entry.words.now))) }
    {
        match self.option(name)? {
            Some(text) => Ok(Some(number_of::<u64>(text).ok_or(Fault::File)?)),
            None => Ok(None),
        }
    }

    /// Whether a flag is given.
    pub(crate) fn flag(self, name: &str) -> bool
        ensures { IsTrue result → HasWord (option_word name.now) (texts self.entry.words.now) }
    {
        self.given.get_flag(name) && has_option(self.words, name)
    }
}

// The number that a text reads as, if it reads as one.
pub(crate) fn number_of<N: FromStr>(text: &str) -> Option<N>
where
    N::Err: Drop,
    ensures { IfSome result (λ number. N.from_str_gives text.now (Ok number)) }
{
    text.parse::<N>().ok()
}

// This is one of the words.
pub(crate) fn has_word(words: &[String], text: &str) -> bool
    ensures { IsTrue result → HasWord text.now (texts words.now) }
{
    for word in words {
        if word.as_str() == text {
            return true;
        }
    }
    false
}

// The words behind the first one that is this text.
fn words_behind<'w>(words: &'w [String], text: &str) -> Option<&'w [String]>
    ensures { IfSome result (λ rest. (k : ℕ) × (slice_get (texts words.now) k ≡ Some text.now)
        × (texts rest.now ≡ drop (k + 1) (texts words.now))) }
{
    for index in 0..words.len() {
        if words[index].as_str() == text {
            return Some(&words[index + 1..]);
        }
    }
    None
}

// These texts are words, in their order.
fn follow(words: &[String], given: &[&str]) -> bool
    ensures { IsTrue result → AreInOrder (map (λ text. text.now) given.now) (texts words.now) }
{
    let mut rest = words;
    for text in given {
        match words_behind(rest, text) {
            Some(behind) => rest = behind,
            None => return false,
        }
    }
    true
}

// This text is one of the words, and the others follow it in their order.
fn are_in_order(words: &[String], first: &str, others: &[&str]) -> bool
    ensures { IsTrue result → AreInOrder (first.now ∷ map (λ text. text.now) others.now) (texts words.now) }
{
    match words_behind(words, first) {
        Some(behind) => follow(behind, others),
        None => false,
    }
}

// The option of this name is one of the words.
fn has_option(words: &[String], name: &str) -> bool
    ensures { IsTrue result → HasWord (option_word name.now) (texts words.now) }
{
    for word in words {
        if is_option(word.as_str(), name) {
            return true;
        }
    }
    false
}

// The value of the option of this name is on the line, as the next word or in one word with it.
fn has_value(words: &[String], name: &str, value: &str) -> bool
    ensures { IsTrue result → IsValueOf name.now value.now (texts words.now) }
{
    has_next(words, name, value) || has_joined(words, name, value)
}

// The value is the word after the option of this name.
fn has_next(words: &[String], name: &str, value: &str) -> bool
    ensures { IsTrue result → IsNext name.now value.now (texts words.now) }
{
    for index in 1..words.len() {
        if is_option(words[index - 1].as_str(), name) && words[index].as_str() == value {
            return true;
        }
    }
    false
}

// The value is in one word with the option of this name.
fn has_joined(words: &[String], name: &str, value: &str) -> bool
    ensures { IsTrue result → Has (IsJoined name.now value.now) (texts words.now) }
{
    for word in words {
        if is_joined(word.as_str(), name, value) {
            return true;
        }
    }
    false
}

// The word is the option of this name.
fn is_option(word: &str, name: &str) -> bool
    ensures { IsTrue result → word.now ≡ option_word name.now }
{
    match behind_option(word, name) {
        Some(rest) => rest.is_empty(),
        None => false,
    }
}

// The word is the option of this name with the value after `=`.
fn is_joined(word: &str, name: &str, value: &str) -> bool
    ensures { IsTrue result → IsJoined name.now value.now word.now }
{
    match behind_option(word, name) {
        Some(rest) => is_assigned(rest, value.as_bytes()),
        None => false,
    }
}

// These bytes are `=` and the value.
fn is_assigned(rest: &[u8], value: &[u8]) -> bool
    ensures { IsTrue result → rest.now ≡ codes "=" ++ value.now }
{
    match rest.strip_prefix(b"=".as_slice()) {
        Some(given) => given == value,
        None => false,
    }
}

// The rest of the word after the option of this name.
fn behind_option<'w>(word: &'w str, name: &str) -> Option<&'w [u8]>
    ensures { IfSome result (λ rest. word.now ≡ option_word name.now ++ rest.now) }
{
    let long = word.as_bytes().strip_prefix(b"--".as_slice())?;
    long.strip_prefix(name.as_bytes())
}
