//! What a picture of a history shows, read off the entries alone: a bar a task, marks, and arrows between them.
#![tactic(auto)]

pub mod bars;
pub mod marks;
mod rows;
mod stores;
pub mod view;

pub use bars::{Bar, Window, bars_of};
pub use marks::{Mark, MarkKind, Spot, marks_of};
pub use rows::picture_rows;
pub use view::{Choice, Things, View, things_of};
