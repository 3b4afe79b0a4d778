// Expressions: what operators make of numbers, and of the addresses of labels where names may stand.

ghost use Rattle.std.specs.Prelude.{◌≡◌, ◌+◌, ◌*◌, ◌<◌, ◌≤◌, option_map, length};
ghost use Rattle.svc_draft.specs.Drafts.{layout_of};
ghost use Rattle.svc_tokens.specs.Tokens.{Gives};
ghost use Rattle.svc_expressions.specs.Expressions.{operators_on, operators_at, named_by};
ghost use Rattle.svc_expressions.specs.Expressions.{plain_at, operand_from, operand_at, expression_at, added_at, value_at};

use crate::operators::{operator_at, result_of};
use crate::places::place_of;
use svc_draft::Draft;
use svc_tokens::{Read, Wanted, read_mark, read_number, skip_spaces, split_name, stopped_at};

/// How deep signs and parentheses stand in one another.
pub const DEPTH: u32 = 32;

// What may stand where an operand doesn't.
fn wanted_by(names: Option<&Draft>) -> Wanted {
    match names {
        Some(_) => Wanted::Value,
        None => Wanted::Number,
    }
}

fn named_by(names: Option<&Draft>, name: &[u8]) -> Option<u32>
    ensures { result ≡ named_by (option_map (λ d. layout_of d.now) names.entry) name.now }
{
    match names {
        Some(draft) => place_of(draft, name),
        None => None,
    }
}

#[tactic(auto, unfolding(crate::specs::Expressions::plain_at))]
fn read_plain<'a>(names: Option<&Draft>, text: &'a [u8]) -> Read<'a, u64>
    ensures { Gives (λ x. (x.0, x.1.now)) result (plain_at (option_map (λ d. layout_of d.now) names.entry) text.now) }
{
    if let Ok((number, rest)) = read_number(text) {
        return Ok((number, rest));
    }
    let (name, rest) = split_name(text);
    match named_by(names, name) {
        Some(address) => Ok((address as u64, rest)),
        None => Err(stopped_at(text, wanted_by(names))),
    }
}

// An operand, which begins with no space.
#[cycle(expression)]
fn read_operand_from<'a>(names: Option<&Draft>, inner: u32, text: &'a [u8]) -> Read<'a, u64>
    requires { inner ≤ 31 }
    ensures { Gives (λ x. (x.0, x.1.now)) result
        (operand_from (option_map (λ d. layout_of d.now) names.entry)
        (operand_at (option_map (λ d. layout_of d.now) names.entry) inner) text.now) }
{
    match text {
        [] => Err(stopped_at(text, wanted_by(names))),
        [b'-', operand @ ..] => {
            let (number, rest) = read_operand(names, inner, operand)?;
            Ok((0u64.wrapping_sub(number), rest))
        }
        [b'~', operand @ ..] => {
            let (number, rest) = read_operand(names, inner, operand)?;
            Ok((!number, rest))
        }
        [b'+', operand @ ..] => read_operand(names, inner, operand),
        [b'(', inside @ ..] => {
            let (number, rest) = read_operators(names, inner, inside)?;
            let rest = read_mark(b')', Wanted::Close, rest)?;
            Ok((number, rest))
        }
        _ => read_plain(names, text),
    }
}

#[tactic(auto, using(crate::proofs::ExpressionSteps::operand_step, crate::proofs::ExpressionSteps::operand_none))]
#[cycle(expression)]
fn read_operand<'a>(names: Option<&Draft>, depth: u32, text: &'a [u8]) -> Read<'a, u64>
    requires { depth ≤ 32 }
    ensures { Gives (λ x. (x.0, x.1.now)) result
        (operand_at (option_map (λ d. layout_of d.now) names.entry) depth text.now) }
{
    if depth == 0 {
        return Err(stopped_at(text, wanted_by(names)));
    }
    read_operand_from(names, depth - 1, skip_spaces(text))
}

// What a number and the operators below a rank behind it make, so many operators at most.
#[tactic(auto, using(crate::proofs::ExpressionSteps::operators_step, crate::proofs::ExpressionSteps::operators_done))]
#[cycle(expression)]
fn read_behind<'a>(
    names: Option<&Draft>,
    depth: u32,
    most: usize,
    ranks: u32,
    first: u64,
    text: &'a [u8],
) -> Read<'a, u64>
    requires depth { depth ≤ 32 }
    requires ranks { ranks ≤ 3 }
    ensures { Gives (λ x. (x.0, x.1.now)) result
        (operators_on (operand_at (option_map (λ d. layout_of d.now) names.entry) depth) most ranks first text.now) }
{
    let mut number = first;
    let mut rest = text;
    for step in 0..most {
        let (operator, behind) = match operator_at(rest) {
            Some(read) => read,
            None => return Ok((number, rest)),
        };
        if operator.rank >= ranks {
            return Ok((number, rest));
        }
        let (other, after) = read_operand(names, depth, behind)?;
        let (right, after) = read_behind(
            names,
            depth,
            most - step - 1,
            operator.rank,
            other,
            after,
        )?;
        number = result_of(operator.does, number, right);
        rest = after;
    }
    Ok((number, rest))
}

// An operand, and what the operators behind it make.
#[tactic(auto, unfolding(crate::specs::Expressions::operators_at))]
#[cycle(expression)]
fn read_operators<'a>(names: Option<&Draft>, depth: u32, text: &'a [u8]) -> Read<'a, u64>
    requires { depth ≤ 32 }
    ensures { Gives (λ x. (x.0, x.1.now)) result
        (operators_at (operand_at (option_map (λ d. layout_of d.now) names.entry) depth) text.now) }
{
    let (number, rest) = read_operand(names, depth, text)?;
    read_behind(names, depth, text.len(), 3, number, rest)
}

/// An expression of 64 bits: one operand, or what operators make of several.
#[tactic(auto, unfolding(crate::specs::Expressions::expression_at))]
pub fn read_expression<'a>(names: Option<&Draft>, text: &'a [u8]) -> Read<'a, u64>
    ensures { Gives (λ x. (x.0, x.1.now)) result
        (expression_at (option_map (λ d. layout_of d.now) names.entry) text.now) }
{
    read_operators(names, DEPTH, text)
}

/// The numbers that are added behind something, or taken away.
#[tactic(auto, unfolding(crate::specs::Expressions::added_at))]
pub fn read_added(text: &[u8]) -> Read<'_, u64>
    ensures { Gives (λ x. (x.0, x.1.now)) result (added_at text.now) }
{
    match operator_at(text) {
        Some((operator, _)) if operator.rank == 2 => read_behind(
            None,
            DEPTH,
            text.len(),
            3,
            0,
            text,
        ),
        _ => Ok((0, text)),
    }
}

/// A value of 32 bits: the low ones of an expression, in which numbers, `.` and labels stand.
#[tactic(auto, unfolding(crate::specs::Expressions::value_at))]
pub fn read_value<'a>(draft: &Draft, text: &'a [u8]) -> Read<'a, u32>
    ensures { Gives (λ x. (x.0, x.1.now)) result (value_at (layout_of draft.now) text.now) }
{
    let (number, rest) = read_expression(Some(draft), text)?;
    Ok(((number % 0x1_0000_0000) as u32, rest))
}
