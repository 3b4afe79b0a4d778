//! Spans of numbers, as a command line gives them by `A-B`.
#![tactic(auto)]

pub mod span;

pub use span::{Span, is_asked};
