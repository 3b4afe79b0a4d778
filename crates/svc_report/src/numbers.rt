// Numbers in fields: decimal, without a sign and without leading zeros.

ghost use Rattle.std.specs.Prelude.{◌≡◌, ◌<◌, ◌≤◌, ◌^◌, IfSome, decimal};
ghost use Rattle.svc_report.specs.Fields.{Reads, is_padded, optional, unit_text, address_text};

use itoa::Buffer;
use std::str;
use svc_base::{UnitId, WordAddr};

/// The text of a number that may not apply.
pub fn number_text(buffer: &mut Buffer, number: Option<u32>) -> &str
    ensures text { result.now ≡ optional decimal number }
    ensures small { IfSome number (λ n. n < 2 ^ 32) }
{
    match number {
        None => "",
        Some(number) => buffer.format(number),
    }
}

/// The text of a small number that may not apply.
pub(crate) fn small_text(buffer: &mut Buffer, number: Option<u8>) -> &str
    ensures text { result.now ≡ optional decimal number }
    ensures small { IfSome number (λ n. n < 2 ^ 8) }
{
    match number {
        None => "",
        Some(number) => buffer.format(number),
    }
}

/// The text of a unit that may not apply.
pub fn unit_text(buffer: &mut Buffer, unit: Option<UnitId>) -> &str
    ensures text { result.now ≡ optional unit_text unit }
    ensures small { IfSome unit (λ u. u.0 < 2 ^ 8) }
{
    match unit {
        None => "",
        Some(UnitId(number)) => buffer.format(number),
    }
}

/// The text of a word's address that may not apply.
pub(crate) fn address_text(buffer: &mut Buffer, addr: Option<WordAddr>) -> &str
    ensures text { result.now ≡ optional address_text addr }
    ensures small { IfSome addr (λ a. a.0 < 2 ^ 32) }
{
    match addr {
        None => "",
        Some(WordAddr(number)) => buffer.format(number),
    }
}

// Whether a sign or a zero stands before other bytes: the parser accepts both, and the text of a number has neither.
fn is_padded(field: &[u8]) -> bool
    ensures { result ≡ is_padded field.now }
{
    if field.is_empty() {
        return false;
    }
    field[0] == b'+' || (field[0] == b'0' && field.len() > 1)
}

/// The number whose text this is.
pub fn number_of(field: &[u8]) -> Option<u32>
    ensures { Reads (λ n. n < 2 ^ 32) decimal field.now result }
{
    if is_padded(field) {
        return None;
    }
    let Ok(text) = str::from_utf8(field) else {
        return None;
    };
    text.parse().ok()
}

/// The number of at most `most` whose text this is.
pub(crate) fn small_of(field: &[u8], most: u8) -> Option<u8>
    ensures { Reads (λ n. n ≤ most) decimal field.now result }
{
    let number = number_of(field)?;
    if number <= most as u32 {
        Some(number as u8)
    } else {
        None
    }
}

/// The unit whose text this is.
pub fn unit_of(field: &[u8]) -> Option<UnitId>
    ensures { Reads (λ u. u.0 ≤ 255) unit_text field.now result }
{
    let number = small_of(field, u8::MAX)?;
    Some(UnitId(number))
}

/// The number whose text this is, or no number.
pub fn optional_number_of(field: &[u8]) -> Option<Option<u32>>
    ensures { Reads (λ o. IfSome o (λ n. n < 2 ^ 32)) (optional decimal) field.now result }
{
    if field.is_empty() {
        return Some(None);
    }
    let number = number_of(field)?;
    Some(Some(number))
}

/// The number of at most `most` whose text this is, or no number.
pub(crate) fn optional_small_of(field: &[u8], most: u8) -> Option<Option<u8>>
    ensures { Reads (λ o. IfSome o (λ n. n ≤ most)) (optional decimal) field.now result }
{
    if field.is_empty() {
        return Some(None);
    }
    let number = small_of(field, most)?;
    Some(Some(number))
}

/// The unit whose text this is, or no unit.
pub(crate) fn optional_unit_of(field: &[u8]) -> Option<Option<UnitId>>
    ensures { Reads (λ o. IfSome o (λ u. u.0 ≤ 255)) (optional unit_text) field.now result }
{
    if field.is_empty() {
        return Some(None);
    }
    let unit = unit_of(field)?;
    Some(Some(unit))
}

/// The word's address whose text this is, or no address.
pub(crate) fn optional_address_of(field: &[u8]) -> Option<Option<WordAddr>>
    ensures { Reads (λ o. IfSome o (λ a. a.0 < 2 ^ 32)) (optional address_text) field.now result }
{
    if field.is_empty() {
        return Some(None);
    }
    let number = number_of(field)?;
    Some(Some(WordAddr(number)))
}
