//! The lines of a word in the order of their versions, as rows: those of committed tasks, oldest first, and then those
//! of the active tasks.
#![tactic(auto)]

mod active;
mod clean;
mod fields;
mod lone;
mod order;
mod versions;

pub use order::put_orders;
