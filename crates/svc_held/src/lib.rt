//! The words of which a machine holds something, and the numbers of its tasks, for whoever tells of it after a history.
#![tactic(auto)]

mod bits;
mod held;
mod holds;
mod named;
mod span;
mod tasks;

pub use bits::{is_committed, is_loaded, is_stale, is_stored};
pub use held::held_words;
pub use holds::{backing_of, has_spill, holds_line, line_of, line_of_named, spill_of, words_of};
pub use named::{Named, Namers};
pub use tasks::number_at;
