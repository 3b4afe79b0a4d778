// The checks of an image file, in the format's order, which take no memory.

ghost use Rattle.std.specs.Prelude.{◌≡◌, ◌<◌, ◌≤◌, ◌+◌, ◌*◌, ◌^◌, length, nat_eq, drop, IfOk, OnOk};
ghost use Rattle.std.specs.List.{list_any};
ghost use Rattle.svc_image.specs.declared.layout.TheConstants.{MOST_ENTRIES, MOST_WORDS};
ghost use Rattle.svc_image.specs.Format.{first_of, fault, each_of, entry_checks, start_checks, limit_checks};
ghost use Rattle.svc_image.specs.Format.{end_checks, listed_in, limits_place as limits_place_in, text_place};
ghost use Rattle.svc_image.specs.Format.{text_count_in, words_in};
ghost use Rattle.svc_image.specs.Reading.{InLimits, unless_fault, header_in, size_of};

use crate::error::ImageError;
use crate::header::{Header, check_header, count, whole_word, word};
use crate::layout::{ENTRIES_PLACE, MOST_WORDS};

/// The header of a file without fault, otherwise the first fault.
pub fn check(bytes: &[u8]) -> Result<Header, ImageError>
    ensures value { result ≡ unless_fault (fault bytes.now) (header_in bytes.now) }
    ensures counts { IfOk result InLimits }
    ensures size { IfOk result (λ header. length bytes.now ≡ size_of header) }
{
    let header = check_header(bytes)?;
    check_entries(bytes, header.entries, header.text)?;
    check_start(bytes, header)?;
    check_limits(bytes, header)?;
    check_end(bytes, header)?;
    Ok(header)
}

// The entries, in turn.
fn check_entries(bytes: &[u8], entries: usize, text: usize) -> Result<(), ImageError>
    requires whole { 148 ≤ length bytes.now }
    requires few { entries ≤ MOST_ENTRIES }
    requires text { text ≡ text_count_in bytes.now }
    requires text_few { text ≤ MOST_WORDS }
    ensures value { result ≡ unless_fault (first_of (each_of (entry_checks bytes.now) entries)) tt }
    ensures whole { OnOk result (148 + 4 * entries ≤ length bytes.now) }
{
    for index in 0..entries {
        check_entry(bytes, index, text)?;
    }
    Ok(())
}

// One entry: it is whole, above the one before it, and at a word of the text.
#[tactic(auto, unfolding(crate::specs::Format::entry_checks))]
fn check_entry(bytes: &[u8], index: usize, text: usize) -> Result<(), ImageError>
    requires few { index < MOST_ENTRIES }
    requires text { text ≡ text_count_in bytes.now }
    requires text_few { text ≤ MOST_WORDS }
    ensures value { result ≡ unless_fault (first_of (entry_checks bytes.now index)) tt }
    ensures whole { OnOk result (148 + 4 * index + 4 ≤ length bytes.now) }
{
    let place = ENTRIES_PLACE + 4 * index;
    let entry = word(bytes, place)?;
    if index > 0 && entry <= word(bytes, place - 4)? {
        return Err(ImageError::EntryOrder);
    }
    if entry % 4 != 0 || entry as usize >= 4 * text {
        return Err(ImageError::EntryPlace);
    }
    Ok(())
}

// The start, which is one of the entries.
#[tactic(auto, unfolding(crate::specs::Format::start_checks))]
fn check_start(bytes: &[u8], header: Header) -> Result<(), ImageError>
    requires header { header ≡ header_in bytes.now }
    requires counts { InLimits header }
    requires whole { 148 + 4 * header.entries ≤ length bytes.now }
    ensures { result ≡ unless_fault (first_of (start_checks bytes.now)) tt }
{
    if !has_entry(bytes, header.entries, header.start) {
        return Err(ImageError::Start);
    }
    Ok(())
}

// The limits that the file lists, in turn.
fn check_limits(bytes: &[u8], header: Header) -> Result<(), ImageError>
    requires header { header ≡ header_in bytes.now }
    requires counts { InLimits header }
    requires whole { 148 + 4 * header.entries ≤ length bytes.now }
    ensures value { result ≡ unless_fault (first_of (each_of (limit_checks bytes.now) (listed_in bytes.now))) tt }
    ensures whole { OnOk result (text_place bytes.now ≤ length bytes.now) }
{
    let limits_place = ENTRIES_PLACE + 4 * header.entries;
    for index in 0..header.limit_count() {
        check_limit(bytes, limits_place, index)?;
    }
    Ok(())
}

// One limit: it is whole, and in its range.
#[tactic(auto, unfolding(crate::specs::Format::limit_checks))]
fn check_limit(bytes: &[u8], limits_place: usize, index: usize) -> Result<(), ImageError>
    requires few { index < MOST_ENTRIES }
    requires place { limits_place ≡ limits_place_in bytes.now }
    requires early { limits_place ≤ 4244 }
    ensures value { result ≡ unless_fault (first_of (limit_checks bytes.now index)) tt }
    ensures whole { OnOk result (limits_place + 4 * index + 4 ≤ length bytes.now) }
{
    count(word(bytes, limits_place + 4 * index)?, MOST_WORDS)?;
    Ok(())
}

// What follows the limits: where the file ends.
#[tactic(auto, unfolding(crate::specs::Format::end_checks))]
fn check_end(bytes: &[u8], header: Header) -> Result<(), ImageError>
    requires header { header ≡ header_in bytes.now }
    requires counts { InLimits header }
    ensures value { result ≡ unless_fault (first_of (end_checks bytes.now)) tt }
    ensures size { OnOk result (length bytes.now ≡ size_of header) }
{
    let size = header.size();
    if bytes.len() < size {
        return Err(ImageError::Short);
    }
    if size < bytes.len() {
        return Err(ImageError::Trailing);
    }
    Ok(())
}

// Whether a number is among the entries.
fn has_entry(bytes: &[u8], entries: usize, wanted: u32) -> bool
    requires few { entries ≤ MOST_ENTRIES }
    requires whole { 148 + 4 * entries ≤ length bytes.now }
    ensures { result ≡ list_any (λ e. nat_eq e wanted) (words_in entries (drop 148 bytes.now)) }
{
    for index in 0..entries {
        if whole_word(bytes, ENTRIES_PLACE + 4 * index) == wanted {
            return true;
        }
    }
    false
}
