// The operators of expressions, and what they make of two numbers.

ghost use Rattle.std.specs.Prelude.{◌≡◌, ◌<◌, option_map};
ghost use Rattle.svc_expressions.specs.Operators.{is_below, signed_by, magnitude, divisor, result_of, operator_at};

use svc_tokens::skip_spaces;

/// What an operator makes of two numbers of 64 bits.
#[derive(Clone, Copy)]
pub enum Operation {
    Multiply,
    Divide,
    Remainder,
    ShiftLeft,
    ShiftRight,
    Or,
    And,
    ExclusiveOr,
    Add,
    Subtract,
}

/// An operator.
#[derive(Clone, Copy)]
pub struct Operator {
    /// How close it binds: 0 is the closest.
    pub rank: u32,
    /// What it makes of two numbers.
    pub does: Operation,
}

fn is_below(number: u64) -> bool
    ensures { result ≡ is_below number }
{
    number >= 0x8000_0000_0000_0000
}

fn signed_by(negative: bool, magnitude: u64) -> u64
    ensures { result ≡ signed_by negative magnitude }
{
    if negative {
        0u64.wrapping_sub(magnitude)
    } else {
        magnitude
    }
}

fn magnitude(number: u64) -> u64
    ensures { result ≡ magnitude number }
{
    signed_by(is_below(number), number)
}

fn divisor(number: u64) -> u64
    ensures value { result ≡ divisor number }
    ensures some { 0 < result }
{
    if number == 0 { 1 } else { magnitude(number) }
}

#[tactic(auto, unfolding(crate::specs::Operators::result_of))]
pub fn result_of(operation: Operation, left: u64, right: u64) -> u64
    ensures { result ≡ result_of operation left right }
{
    match operation {
        Operation::Multiply => left.wrapping_mul(right),
        Operation::Divide => signed_by(
            is_below(left) != is_below(right),
            magnitude(left) / divisor(right),
        ),
        Operation::Remainder => signed_by(is_below(left), magnitude(left) % divisor(right)),
        Operation::ShiftLeft if right < 64 => left << right,
        Operation::ShiftRight if right < 64 => left >> right,
        Operation::ShiftLeft | Operation::ShiftRight => 0,
        Operation::Or => left | right,
        Operation::And => left & right,
        Operation::ExclusiveOr => left ^ right,
        Operation::Add => left.wrapping_add(right),
        Operation::Subtract => left.wrapping_sub(right),
    }
}

/// The operator that stands next, and what follows it.
#[tactic(auto, unfolding(crate::specs::Operators::operator_at))]
pub fn operator_at(text: &[u8]) -> Option<(Operator, &[u8])>
    ensures { option_map (λ x. (x.0, x.1.now)) result ≡ operator_at text.now }
{
    let (rank, does, rest) = match skip_spaces(text) {
        [b'*', rest @ ..] => (0, Operation::Multiply, rest),
        [b'/', rest @ ..] => (0, Operation::Divide, rest),
        [b'%', rest @ ..] => (0, Operation::Remainder, rest),
        [b'<', b'<', rest @ ..] => (0, Operation::ShiftLeft, rest),
        [b'>', b'>', rest @ ..] => (0, Operation::ShiftRight, rest),
        [b'|', rest @ ..] => (1, Operation::Or, rest),
        [b'&', rest @ ..] => (1, Operation::And, rest),
        [b'^', rest @ ..] => (1, Operation::ExclusiveOr, rest),
        [b'+', rest @ ..] => (2, Operation::Add, rest),
        [b'-', rest @ ..] => (2, Operation::Subtract, rest),
        _ => return None,
    };
    Some((Operator { rank, does }, rest))
}
