// Registers, marks and numbers, each read from the text that begins with it.

ghost use Rattle.std.specs.Prelude.{◌≡◌};
ghost use Rattle.svc_tokens.specs.Characters.{mark_at};
ghost use Rattle.svc_tokens.specs.Tokens.{Gives, register_at, first_register_at, base_at, number_at};

use crate::characters::{number_of, skip_mark, split_character, split_name};
use crate::names::register_named;
use crate::unread::{Read, Unread, Wanted, stopped_at};
use svc_rv32i::Register;

/// A register, by its number or by its name in the calling convention.
#[tactic(auto, unfolding(crate::specs::Tokens::register_at))]
pub fn read_register(text: &[u8]) -> Read<'_, Register>
    ensures { Gives (λ x. (x.0, x.1.now)) result (register_at text.now) }
{
    let (name, rest) = split_name(text);
    match register_named(name) {
        Some(register) => Ok((register, rest)),
        None => Err(stopped_at(text, Wanted::Register)),
    }
}

/// What follows a mark.
pub fn read_mark(mark: u8, wanted: Wanted, text: &[u8]) -> Result<&[u8], Unread>
    ensures { Gives (λ x. x.now) result (mark_at mark text.now) }
{
    match skip_mark(mark, text) {
        Some(rest) => Ok(rest),
        None => Err(stopped_at(text, wanted)),
    }
}

/// A register and the comma behind it.
#[tactic(auto, unfolding(crate::specs::Tokens::first_register_at))]
pub fn read_first_register(text: &[u8]) -> Read<'_, Register>
    ensures { Gives (λ x. (x.0, x.1.now)) result (first_register_at text.now) }
{
    let (register, rest) = read_register(text)?;
    let rest = read_mark(b',', Wanted::Comma, rest)?;
    Ok((register, rest))
}

/// A register in parentheses.
#[tactic(auto, unfolding(crate::specs::Tokens::base_at))]
pub fn read_base(text: &[u8]) -> Read<'_, Register>
    ensures { Gives (λ x. (x.0, x.1.now)) result (base_at text.now) }
{
    let inside = read_mark(b'(', Wanted::Open, text)?;
    let (base, rest) = read_register(inside)?;
    let rest = read_mark(b')', Wanted::Close, rest)?;
    Ok((base, rest))
}

/// A number of 64 bits, or a character as one.
#[tactic(auto, unfolding(crate::specs::Tokens::number_at))]
pub fn read_number(text: &[u8]) -> Read<'_, u64>
    ensures { Gives (λ x. (x.0, x.1.now)) result (number_at text.now) }
{
    let (name, rest) = split_name(text);
    if let Some(number) = number_of(name) {
        return Ok((number, rest));
    }
    match split_character(text) {
        Some((character, rest)) => Ok((character as u64, rest)),
        None => Err(stopped_at(text, Wanted::Number)),
    }
}
