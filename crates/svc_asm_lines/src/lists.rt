// Lists of numbers, which are read one by one.

ghost use Rattle.std.specs.Prelude.{◌≡◌, ◌%◌, ◌^◌, ◌<◌, option_map};
ghost use Rattle.svc_tokens.specs.Tokens.{Gives};
ghost use Rattle.svc_asm_lines.specs.Lists.{half, fits, datum_at, going_at, item_at, long_at};
ghost use Rattle.svc_draft.specs.Drafts.{layout_of};

use crate::line::{read_begun, read_end};
use svc_draft::Draft;
use svc_expressions::read_expression;
use svc_layout::{Next, Statement, Width};
use svc_tokens::{Read, Wanted, skip_mark, stopped_at};

fn half(width: Width) -> u32
    ensures value { result ≡ half width }
    ensures some { 0 < result }
{
    match width {
        Width::Byte => 128,
        Width::Half => 32_768,
        Width::Word => 2_147_483_648,
    }
}

// Whether 64 bits are a number of so many bytes. Of more than a word's, the low ones count.
fn fits(width: Width, number: u64) -> bool
    ensures { result ≡ fits width number }
{
    match width {
        Width::Word => true,
        _ => {
            let half = half(width) as u64;
            number < 2 * half || number >= 0u64.wrapping_sub(half)
        }
    }
}

// A number of so many bytes, as what may stand at a place.
fn number_in(width: Width) -> Wanted {
    match width {
        Width::Byte => Wanted::Range {
            least: -128,
            most: 255,
        },
        Width::Half => Wanted::Range {
            least: -32_768,
            most: 65_535,
        },
        Width::Word => Wanted::Number,
    }
}

#[tactic(auto, unfolding(crate::specs::Lists::going_at))]
pub fn read_going(next: Next, text: &[u8]) -> Read<'_, Next>
    ensures { Gives (λ x. (x.0, x.1.now)) result (going_at next text.now) }
{
    match skip_mark(b',', text) {
        Some(more) => {
            let rest = read_begun(next, more)?;
            Ok((next, rest))
        }
        None => {
            let rest = read_end(text)?;
            Ok((Next::Line, rest))
        }
    }
}

#[tactic(auto, unfolding(crate::specs::Lists::datum_at))]
fn read_datum<'a>(draft: &Draft, width: Width, text: &'a [u8]) -> Read<'a, u64>
    ensures { Gives (λ x. (x.0, x.1.now)) result (datum_at (layout_of draft.now) width text.now) }
{
    let (number, rest, holds) = match read_expression(None, text) {
        Ok((number, rest)) => (number, rest, fits(width, number)),
        Err(_) => {
            let (number, rest) = read_expression(Some(draft), text)?;
            (number, rest, !draft.is_known() || fits(width, number))
        }
    };
    if holds {
        return Ok((number, rest));
    }
    Err(stopped_at(text, number_in(width)))
}

/// The low 32 bits of a number.
pub fn low(number: u64) -> u32
    ensures { result ≡ number % 2 ^ 32 }
{
    (number % 0x1_0000_0000) as u32
}

#[tactic(auto, unfolding(crate::specs::Lists::item_at))]
pub fn read_item<'a>(draft: &Draft, width: Width, text: &'a [u8]) -> Read<'a, Statement>
    ensures { Gives (λ x. (x.0, x.1.now)) result (item_at (layout_of draft.now) width text.now) }
{
    let (number, rest) = read_datum(draft, width, text)?;
    let (next, rest) = read_going(Next::Value(width), rest)?;
    Ok((Statement::Value(width, low(number), next), rest))
}

#[tactic(auto, unfolding(crate::specs::Lists::long_at))]
pub fn read_long<'a>(draft: &Draft, text: &'a [u8]) -> Read<'a, Statement>
    ensures { Gives (λ x. (x.0, x.1.now)) result (long_at (layout_of draft.now) text.now) }
{
    let (number, rest) = read_expression(Some(draft), text)?;
    let (next, rest) = read_going(Next::Long, rest)?;
    let high = (number / 0x1_0000_0000) as u32;
    Ok((Statement::Long(low(number), high, next), rest))
}
