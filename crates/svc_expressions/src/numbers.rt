// Numbers: expressions without names, within bounds.

ghost use Rattle.std.specs.Prelude.{◌≡◌, ◌^◌};
ghost use Rattle.svc_tokens.specs.Tokens.{Gives};
ghost use Rattle.svc_expressions.specs.Numbers.{number_below, signed_of, signed_at};

use crate::expressions::read_expression;
use crate::signed::Signed;
use svc_tokens::{Read, Wanted, stopped_at};

/// A number below a bound.
#[tactic(auto, unfolding(crate::specs::Numbers::number_below))]
pub fn read_below(bound: u32, text: &[u8]) -> Read<'_, u32>
    ensures { Gives (λ x. (x.0, x.1.now)) result (number_below bound text.now) }
{
    let (number, rest) = read_expression(None, text)?;
    if number < bound as u64 {
        return Ok((number as u32, rest));
    }
    let most = bound as i64 - 1;
    Err(stopped_at(text, Wanted::Range { least: 0, most }))
}

/// A number of 32 bits without a sign.
#[tactic(auto, unfolding(crate::specs::Numbers::number_below))]
pub fn read_count(text: &[u8]) -> Read<'_, u32>
    ensures { Gives (λ x. (x.0, x.1.now)) result (number_below (2 ^ 32) text.now) }
{
    let (number, rest) = read_expression(None, text)?;
    if number < 0x1_0000_0000 {
        return Ok((number as u32, rest));
    }
    Err(stopped_at(text, Wanted::Number))
}

/// 64 bits as a number of at most 32 bits and a sign.
#[tactic(auto, unfolding(crate::specs::Numbers::signed_of))]
pub fn signed_of(number: u64) -> Option<Signed>
    ensures { result ≡ signed_of number }
{
    if number < 0x1_0000_0000 {
        return Some(Signed {
            negative: false,
            magnitude: number as u32,
        });
    }
    let magnitude = 0u64.wrapping_sub(number);
    if magnitude < 0x1_0000_0000 {
        return Some(Signed {
            negative: true,
            magnitude: magnitude as u32,
        });
    }
    None
}

/// A number that may be below 0.
#[tactic(auto, unfolding(crate::specs::Numbers::signed_at))]
pub fn read_signed(text: &[u8]) -> Read<'_, Signed>
    ensures { Gives (λ x. (x.0, x.1.now)) result (signed_at text.now) }
{
    let (number, rest) = read_expression(None, text)?;
    match signed_of(number) {
        Some(signed) => Ok((signed, rest)),
        None => Err(stopped_at(text, Wanted::Number)),
    }
}
