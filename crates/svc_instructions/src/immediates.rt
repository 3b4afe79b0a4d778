// Immediates: numbers that fit, and the parts of values and of distances.

ghost use Rattle.std.specs.Prelude.{◌≡◌};
ghost use Rattle.svc_draft.specs.Drafts.{layout_of};
ghost use Rattle.svc_tokens.specs.Tokens.{Gives};
ghost use Rattle.svc_instructions.specs.Immediates.{bits_within, high_part, from_here, enclosed_at, relative_at};
ghost use Rattle.svc_instructions.specs.Immediates.{high_at, distance_named, completed_at, low_at, number_short_at};
ghost use Rattle.svc_instructions.specs.Immediates.{short_at, upper_at};

use crate::steps::{distance, signed_bits};
use svc_draft::Draft;
use svc_expressions::{Signed, bits_of, place_of, read_below, read_signed, read_value};
use svc_tokens::{Read, Wanted, is_word, read_mark, skip_mark, split_name, stopped_at};

// The 32 bits of a number of so many that has room, of which half may be below 0.
#[tactic(auto, unfolding(crate::specs::Immediates::bits_within))]
pub(crate) fn bits_within(half: u32, number: Signed) -> Option<u32>
    ensures { result ≡ bits_within half number }
{
    if number.negative {
        if number.magnitude <= half {
            return Some(bits_of(number));
        }
        return None;
    }
    if (number.magnitude as u64) < 2 * half as u64 {
        return Some(number.magnitude);
    }
    None
}

// The high part of a value, which makes it together with its low 12 bits, which count with a sign.
pub(crate) fn high_part(value: u32) -> u32
    ensures { result ≡ high_part value }
{
    ((value as u64 + 2048) / 4096 % 1_048_576) as u32
}

// How far it is from the address of what comes next to this one, as 32 bits.
pub(crate) fn from_here(draft: &Draft, address: u32) -> u32
    ensures { result ≡ from_here (layout_of draft.now) address }
{
    bits_of(distance(draft.here(), address))
}

#[tactic(auto, unfolding(crate::specs::Immediates::enclosed_at))]
fn read_enclosed<'a>(draft: &Draft, text: &'a [u8]) -> Read<'a, u32>
    ensures { Gives (λ x. (x.0, x.1.now)) result (enclosed_at (layout_of draft.now) text.now) }
{
    let inside = read_mark(b'(', Wanted::Open, text)?;
    let (value, rest) = read_value(draft, inside)?;
    let rest = read_mark(b')', Wanted::Close, rest)?;
    Ok((value, rest))
}

// What follows a percent sign, `pcrel_hi(VALUE)`, as how far it is from here to the value.
#[tactic(auto, unfolding(crate::specs::Immediates::relative_at))]
pub(crate) fn read_relative<'a>(draft: &Draft, text: &'a [u8]) -> Read<'a, u32>
    ensures { Gives (λ x. (x.0, x.1.now)) result (relative_at (layout_of draft.now) text.now) }
{
    let (name, rest) = split_name(text);
    if is_word(name, "pcrel_hi") {
        let (value, rest) = read_enclosed(draft, rest)?;
        return Ok((from_here(draft, value), rest));
    }
    Err(stopped_at(text, Wanted::High))
}

#[tactic(auto, unfolding(crate::specs::Immediates::high_at))]
fn read_high<'a>(draft: &Draft, text: &'a [u8]) -> Read<'a, u32>
    ensures { Gives (λ x. (x.0, x.1.now)) result (high_at (layout_of draft.now) text.now) }
{
    let (name, rest) = split_name(text);
    if is_word(name, "hi") {
        let (value, rest) = read_enclosed(draft, rest)?;
        return Ok((high_part(value), rest));
    }
    let (distance, rest) = read_relative(draft, text)?;
    Ok((high_part(distance), rest))
}

#[tactic(auto, unfolding(crate::specs::Immediates::distance_named))]
fn distance_named(draft: &Draft, name: &[u8]) -> Option<u32>
    ensures { result ≡ distance_named (layout_of draft.now) name.now }
{
    draft.distance_from(place_of(draft, name)?)
}

#[tactic(auto, unfolding(crate::specs::Immediates::completed_at))]
fn read_completed<'a>(draft: &Draft, text: &'a [u8]) -> Read<'a, u32>
    ensures { Gives (λ x. (x.0, x.1.now)) result (completed_at (layout_of draft.now) text.now) }
{
    let inside = read_mark(b'(', Wanted::Open, text)?;
    let (name, rest) = split_name(inside);
    let distance = match distance_named(draft, name) {
        Some(distance) => distance,
        None => return Err(stopped_at(inside, Wanted::Relative)),
    };
    let rest = read_mark(b')', Wanted::Close, rest)?;
    Ok((distance, rest))
}

#[tactic(auto, unfolding(crate::specs::Immediates::low_at))]
fn read_low<'a>(draft: &Draft, text: &'a [u8]) -> Read<'a, u32>
    ensures { Gives (λ x. (x.0, x.1.now)) result (low_at (layout_of draft.now) text.now) }
{
    let (name, rest) = split_name(text);
    if is_word(name, "lo") {
        let (value, rest) = read_enclosed(draft, rest)?;
        return Ok((value % 4096, rest));
    }
    if is_word(name, "pcrel_lo") {
        let (distance, rest) = read_completed(draft, rest)?;
        return Ok((distance % 4096, rest));
    }
    Err(stopped_at(text, Wanted::Low))
}

// What an immediate of 12 bits may be: it counts with a sign.
const IMMEDIATE: Wanted = Wanted::Range {
    least: -2048,
    most: 2047,
};

#[tactic(auto, unfolding(crate::specs::Immediates::number_short_at))]
fn read_number_short(text: &[u8]) -> Read<'_, u32>
    ensures { Gives (λ x. (x.0, x.1.now)) result (number_short_at text.now) }
{
    let (number, rest) = read_signed(text)?;
    match signed_bits(2048, number) {
        Some(bits) => Ok((bits, rest)),
        None => Err(stopped_at(text, IMMEDIATE)),
    }
}

// An immediate of 12 bits: a number that fits, `%lo(VALUE)` or `%pcrel_lo(LABEL)`.
#[tactic(auto, unfolding(crate::specs::Immediates::short_at))]
pub(crate) fn read_short<'a>(draft: &Draft, text: &'a [u8]) -> Read<'a, u32>
    ensures { Gives (λ x. (x.0, x.1.now)) result (short_at (layout_of draft.now) text.now) }
{
    match skip_mark(b'%', text) {
        Some(part) => read_low(draft, part),
        None => read_number_short(text),
    }
}

// An immediate of 20 bits: a number that fits, `%hi(VALUE)` or `%pcrel_hi(VALUE)`.
#[tactic(auto, unfolding(crate::specs::Immediates::upper_at))]
pub(crate) fn read_upper<'a>(draft: &Draft, text: &'a [u8]) -> Read<'a, u32>
    ensures { Gives (λ x. (x.0, x.1.now)) result (upper_at (layout_of draft.now) text.now) }
{
    match skip_mark(b'%', text) {
        Some(part) => read_high(draft, part),
        None => read_below(1_048_576, text),
    }
}
