//! Calls of the libraries that ask for memory, each by its name, and whether it answers correctly.
#![tactic(auto)]

pub mod attempt;
pub mod images;
pub mod machines;
pub mod reasons;
pub mod texts;
pub mod threads;
