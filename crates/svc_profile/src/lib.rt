//! What the speculation of a history cost: its totals, and tables of them by task, by unit and by word.
#![tactic(auto)]

mod counts;
mod laws;
mod meetings;
mod met;
mod met_laws;
mod profile;
mod profile_row;
mod shares;
mod tally;
mod tasks;
mod totals;
mod units;
mod word_laws;
mod words;

pub use laws::{task_rows_add_up, unit_rows_add_up};
pub use met::{write_pairs, write_suppliers};
pub use met_laws::{pair_rows_add_up, supplier_rows_add_up};
pub use profile::write_profile;
pub use profile_row::write_profile_row;
pub use tasks::write_tasks;
pub use totals::{Group, Measure, Total};
pub use units::write_units;
pub use word_laws::{legal_entries_name_their_words, word_rows_add_up, word_rows_are_of_tasks};
pub use words::write_words;
