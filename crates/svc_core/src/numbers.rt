// Operations and comparisons of 32 bits.

ghost use Rattle.std.specs.Prelude.{◌≡◌};
ghost use Rattle.svc_core_laws.specs.Numbers.{operation_result, comparison_holds};

use svc_rv32i::{Comparison, Operation};

/// The result of an operation on two numbers; a shift takes the lowest five bits of the second.
#[inline(always)]
#[tactic(auto, unfolding(svc_core_laws::specs::Numbers::operation_result))]
pub fn operate(op: Operation, a: u32, b: u32) -> u32
    ensures { result ≡ operation_result op a b }
{
    match op {
        Operation::Add => a.wrapping_add(b),
        Operation::Sub => a.wrapping_sub(b),
        Operation::ShiftLeft => a << (b % 32),
        Operation::SetLess => (a.cast_signed() < b.cast_signed()) as u32,
        Operation::SetLessUnsigned => (a < b) as u32,
        Operation::Xor => a ^ b,
        Operation::ShiftRight => a >> (b % 32),
        Operation::ShiftRightArithmetic => (a.cast_signed() >> (b % 32)).cast_unsigned(),
        Operation::Or => a | b,
        Operation::And => a & b,
    }
}

/// Whether a branch that compares these two numbers is taken.
#[inline(always)]
#[tactic(auto, unfolding(svc_core_laws::specs::Numbers::comparison_holds))]
pub fn compare(test: Comparison, a: u32, b: u32) -> bool
    ensures { result ≡ comparison_holds test a b }
{
    match test {
        Comparison::Equal => a == b,
        Comparison::NotEqual => a != b,
        Comparison::Less => a.cast_signed() < b.cast_signed(),
        Comparison::GreaterEqual => a.cast_signed() >= b.cast_signed(),
        Comparison::LessUnsigned => a < b,
        Comparison::GreaterEqualUnsigned => a >= b,
    }
}
