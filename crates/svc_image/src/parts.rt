// What an image is made of, and its checks, in the format's order.

ghost use Rattle.std.specs.Prelude.{◌≡◌, ◌<◌, ◌^◌, Ok, length, IfOk, if◌then◌else◌};
ghost use Rattle.svc_image.specs.Version.{read_only_by, limits_by};
ghost use Rattle.svc_image.specs.Format.{first_of, each_of, is_outside};
ghost use Rattle.svc_image.specs.Image.{AreWords};
ghost use Rattle.svc_image.specs.Parts.{AreFit, version_by, number_by, listed_by, size_checks, place_checks};
ghost use Rattle.svc_image.specs.Parts.{start_checks, limit_checks, fault_in};
ghost use Rattle.svc_image.specs.Reading.{unless_fault};

use crate::error::ImageError;
use crate::header::{count, own};
use crate::layout::{MOST_ENTRIES, MOST_WORDS};
use crate::version::Version;
use std::alloc::{AllocError, Global};

/// What only one of the versions has.
#[derive(Drop)]
pub enum Own {
    /// Version 1: the limit of turns of every task.
    One(u32),
    /// Version 2: how many of the first data words are read-only, and a limit for each entry, in their order.
    Two(u32, Vec<u32>),
}

/// What an image is made of.
#[derive(Drop)]
pub struct Parts {
    /// The version, with what only it has.
    pub own: Own,
    /// The first task's entry.
    pub start: u32,
    /// The values of x1 to x31.
    pub registers: [u32; 31],
    /// The entries, which rise.
    pub entries: Vec<u32>,
    /// The words of the text.
    pub text: Vec<u32>,
    /// The words of the data.
    pub words: Vec<u32>,
}

impl Own {
    // The version that it is of.
    pub(crate) fn version(&self) -> Version
        ensures { result ≡ version_by self.now }
    {
        match self {
            Own::One(_) => Version::One,
            Own::Two(..) => Version::Two,
        }
    }

    // The number of the header that depends on the version.
    fn number(&self) -> u32
        ensures { result ≡ number_by self.now }
    {
        match self {
            Own::One(limit) => *limit,
            Own::Two(read_only, _) => *read_only,
        }
    }

    // How many data words are read-only.
    pub(crate) fn read_only(&self) -> u32
        ensures { result ≡ read_only_by (version_by self.now) (number_by self.now) }
    {
        match self {
            Own::One(_) => 0,
            Own::Two(read_only, _) => *read_only,
        }
    }

    // The limits that a file lists.
    fn limit_list(&self) -> &[u32]
        ensures { result.now ≡ listed_by self.now }
    {
        match self {
            Own::One(_) => &[],
            Own::Two(_, limits) => limits,
        }
    }

    // The limits of so many entries.
    pub(crate) fn limits(self, alloc: Global, entries: usize) -> Result<Vec<u32>, AllocError>
        ensures { IfOk result (λ limits. limits.items
            ≡ limits_by (version_by self) entries (number_by self) (listed_by self)) }
    {
        match self {
            Own::One(limit) => Vec::from_elem(alloc, limit, entries),
            Own::Two(_, limits) => Ok(limits),
        }
    }
}

// By their type, words have 32 bits.
fn words_fit(words: &[u32])
    ensures { AreWords words.now }
{}

// By their type, there are 31 registers.
fn registers_all(registers: &[u32; 31])
    ensures { length registers.now ≡ 31 }
{}

/// The first fault of these parts, if there is one.
pub fn check_parts(parts: &Parts) -> Result<(), ImageError>
    ensures value { result ≡ unless_fault (fault_in parts.now) tt }
    ensures fit { AreFit parts.now }
{
    registers_all(&parts.registers);
    words_fit(&parts.registers);
    let entries = parts.entries.as_slice();
    let text = parts.text.as_slice();
    let words = parts.words.as_slice();
    words_fit(text);
    words_fit(words);
    check_sizes(parts)?;
    check_places(entries, text.len())?;
    check_start(entries, parts.start)?;
    check_limits(parts.own.limit_list())
}

// A count from 1 to the most.
#[tactic(auto, unfolding(crate::specs::Format::is_outside))]
fn size(len: usize, most: u32) -> Result<u32, ImageError>
    ensures { result ≡ (if is_outside most len then Err ImageError.Count else Ok len) }
{
    if len < 1 || len > most as usize {
        return Err(ImageError::Count);
    }
    Ok(len as u32)
}

// The counts, and the number that depends on the version.
fn check_sizes(parts: &Parts) -> Result<(), ImageError>
    ensures { result ≡ unless_fault (first_of (size_checks parts.now)) tt }
{
    size(parts.entries.len(), MOST_ENTRIES)?;
    size(parts.text.len(), MOST_WORDS)?;
    let words = size(parts.words.len(), MOST_WORDS)?;
    own(parts.own.version(), words, parts.own.number())?;
    Ok(())
}

// The entries, in turn.
fn check_places(entries: &[u32], words: usize) -> Result<(), ImageError>
    requires { words < 2 ^ 61 }
    ensures { result ≡ unless_fault (first_of (each_of (place_checks entries.now words) (length entries.now))) tt }
{
    for index in 0..entries.len() {
        check_place(entries, index, words)?;
    }
    Ok(())
}

// One entry: it is above the one before it, and at a word of the text.
#[tactic(auto, unfolding(crate::specs::Parts::place_checks))]
fn check_place(entries: &[u32], index: usize, words: usize) -> Result<(), ImageError>
    requires index { index < length entries.now }
    requires words { words < 2 ^ 61 }
    ensures { result ≡ unless_fault (first_of (place_checks entries.now words index)) tt }
{
    let entry = entries[index];
    if index > 0 && entry <= entries[index - 1] {
        return Err(ImageError::EntryOrder);
    }
    if entry % 4 != 0 || entry as usize >= 4 * words {
        return Err(ImageError::EntryPlace);
    }
    Ok(())
}

// The start, which is one of the entries.
#[tactic(auto, unfolding(crate::specs::Parts::start_checks))]
fn check_start(entries: &[u32], start: u32) -> Result<(), ImageError>
    ensures { result ≡ unless_fault (first_of (start_checks entries.now start)) tt }
{
    if !entries.contains(&start) {
        return Err(ImageError::Start);
    }
    Ok(())
}

// The limits that a file lists.
#[tactic(auto, unfolding(crate::specs::Parts::limit_checks))]
fn check_limits(limits: &[u32]) -> Result<(), ImageError>
    ensures { result ≡ unless_fault (first_of (limit_checks limits.now)) tt }
{
    for &limit in limits {
        count(limit, MOST_WORDS)?;
    }
    Ok(())
}
