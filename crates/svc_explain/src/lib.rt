//! What is told after a fault: which entry, which number, which field or which file, and what would be right.
#![tactic(auto)]

mod files;
mod names;
mod traced;
mod why;

pub use why::{explain, explain_alone};
