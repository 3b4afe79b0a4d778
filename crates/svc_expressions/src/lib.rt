//! Expressions of a line of assembly: operators, the numbers and names that they stand between, and numbers within bounds.
#![tactic(auto)]

mod expressions;
mod numbers;
mod operators;
mod places;
mod signed;

pub use expressions::{read_added, read_expression, read_value};
pub use numbers::{read_below, read_count, read_signed, signed_of};
pub use places::place_of;
pub use signed::{Signed, bits_of};
