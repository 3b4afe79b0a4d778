// The header of an image file, and its checks.

ghost use Rattle.std.specs.Prelude.{◌≡◌, ◌<◌, ◌≤◌, ◌+◌, ◌*◌, ◌^◌, length, nat_lt, if◌then◌else◌, IfOk, OnOk};
ghost use Rattle.svc_image.specs.Version.{listed_count, read_only_by};
ghost use Rattle.svc_image.specs.Format.{half_at, word_at, first_of, version_in, version_checks, count_checks};
ghost use Rattle.svc_image.specs.Format.{header_checks, is_outside, is_own_outside};
ghost use Rattle.svc_image.specs.Reading.{InLimits, IsOwn, unless_fault, header_in, size_of};

use crate::error::ImageError;
use crate::layout::{
    DATA_COUNT_PLACE, ENTRIES_PLACE, ENTRY_COUNT_PLACE, MAGIC, MOST_ENTRIES, MOST_WORDS, OWN_PLACE,
    START_PLACE, TEXT_COUNT_PLACE, VERSION_PLACE,
};
use crate::version::Version;
use byteorder::{ByteOrder, LittleEndian};

/// The numbers of an image file's header.
#[derive(Clone, Copy)]
pub struct Header {
    /// The version of the format.
    pub version: Version,
    /// How many entries there are.
    pub entries: usize,
    /// How many text words there are.
    pub text: usize,
    /// How many data words there are.
    pub words: usize,
    /// In version 1 the limit of every task, in version 2 how many data words are read-only.
    pub own: u32,
    /// The byte address of the first task's entry.
    pub start: u32,
}

impl Header {
    /// How many limits the file lists.
    pub fn limit_count(self) -> usize
        ensures value { result ≡ listed_count self.version self.entries }
        ensures few { result ≤ self.entries }
    {
        match self.version {
            Version::One => 0,
            Version::Two => self.entries,
        }
    }

    /// How many data words are read-only.
    pub fn read_only(self) -> u32
        ensures { result ≡ read_only_by self.version self.own }
    {
        match self.version {
            Version::One => 0,
            Version::Two => self.own,
        }
    }

    /// Where the text begins.
    pub fn text_place(self) -> usize
        requires { InLimits self }
        ensures { result ≡ 148 + 4 * self.entries + 4 * listed_count self.version self.entries }
    {
        ENTRIES_PLACE + 4 * self.entries + 4 * self.limit_count()
    }

    /// How many bytes the file has.
    pub fn size(self) -> usize
        requires { InLimits self }
        ensures { result ≡ size_of self }
    {
        self.text_place() + 4 * self.text + 4 * self.words
    }
}

/// The number of 16 bits at a place of the file.
#[tactic(auto, unfolding(crate::specs::Format::half_at))]
pub fn half(bytes: &[u8], place: usize) -> Result<u32, ImageError>
    requires { place < 2 ^ 32 }
    ensures { result ≡ (if nat_lt (length bytes.now) (place + 2) then Err ImageError.Short
        else Ok (half_at bytes.now place)) }
{
    if bytes.len() < place + 2 {
        return Err(ImageError::Short);
    }
    Ok(LittleEndian::read_u16(&bytes[place..]) as u32)
}

/// The number of 32 bits at a place of the file, which has all of its bytes.
#[tactic(auto, unfolding(crate::specs::Format::word_at))]
pub fn whole_word(bytes: &[u8], place: usize) -> u32
    requires { place + 4 ≤ length bytes.now }
    ensures { result ≡ word_at bytes.now place }
{
    LittleEndian::read_u32(&bytes[place..])
}

/// The number of 32 bits at a place of the file.
pub fn word(bytes: &[u8], place: usize) -> Result<u32, ImageError>
    requires { place < 2 ^ 32 }
    ensures { result ≡ (if nat_lt (length bytes.now) (place + 4) then Err ImageError.Short
        else Ok (word_at bytes.now place)) }
{
    if bytes.len() < place + 4 {
        return Err(ImageError::Short);
    }
    Ok(whole_word(bytes, place))
}

/// A count from 1 to the most.
#[tactic(auto, unfolding(crate::specs::Format::is_outside))]
pub fn count(value: u32, most: u32) -> Result<u32, ImageError>
    ensures value { result ≡ (if is_outside most value then Err ImageError.Count else Ok value) }
    ensures some { IfOk result (λ n. 1 ≤ n) }
    ensures few { IfOk result (λ n. n ≤ most) }
{
    if value < 1 || most < value {
        return Err(ImageError::Count);
    }
    Ok(value)
}

/// The version's own number, if it is in its range.
#[tactic(auto, unfolding(crate::specs::Format::is_outside))]
pub fn own(version: Version, words: u32, value: u32) -> Result<u32, ImageError>
    ensures value { result ≡ (if is_own_outside version words value then Err ImageError.Count else Ok value) }
    ensures sound { IfOk result (IsOwn version words) }
{
    match version {
        Version::One => count(value, MOST_WORDS),
        Version::Two if value <= words => Ok(value),
        Version::Two => Err(ImageError::Count),
    }
}

// The version, if it and the magic before it have no fault.
#[tactic(auto, unfolding(crate::specs::Format::version_checks))]
fn check_version(bytes: &[u8]) -> Result<Version, ImageError>
    ensures { result ≡ unless_fault (first_of (version_checks bytes.now)) (version_in bytes.now) }
{
    if bytes.len() < MAGIC.len() {
        return Err(ImageError::Short);
    }
    if !bytes.starts_with(&MAGIC) {
        return Err(ImageError::Magic);
    }
    Version::of(half(bytes, VERSION_PLACE)?).ok_or(ImageError::Version)
}

// The header, if what follows its version and the registers have no fault.
#[tactic(auto, unfolding(crate::specs::Format::count_checks))]
fn check_counts(bytes: &[u8], version: Version) -> Result<Header, ImageError>
    requires { version ≡ version_in bytes.now }
    ensures value { result ≡ unless_fault (first_of (count_checks bytes.now)) (header_in bytes.now) }
    ensures counts { IfOk result InLimits }
    ensures whole { OnOk result (148 ≤ length bytes.now) }
{
    let entries = count(half(bytes, ENTRY_COUNT_PLACE)?, MOST_ENTRIES)?;
    let text = count(word(bytes, TEXT_COUNT_PLACE)?, MOST_WORDS)?;
    let words = count(word(bytes, DATA_COUNT_PLACE)?, MOST_WORDS)?;
    let own = own(version, words, word(bytes, OWN_PLACE)?)?;
    let start = word(bytes, START_PLACE)?;
    if bytes.len() < ENTRIES_PLACE {
        return Err(ImageError::Short);
    }
    Ok(Header {
        version,
        entries: entries as usize,
        text: text as usize,
        words: words as usize,
        own,
        start,
    })
}

/// The header, if it and the registers after it have no fault.
pub fn check_header(bytes: &[u8]) -> Result<Header, ImageError>
    ensures value { result ≡ unless_fault (first_of (header_checks bytes.now)) (header_in bytes.now) }
    ensures counts { IfOk result InLimits }
    ensures whole { OnOk result (148 ≤ length bytes.now) }
{
    let version = check_version(bytes)?;
    check_counts(bytes, version)
}
