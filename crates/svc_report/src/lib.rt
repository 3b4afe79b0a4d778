//! The texts of histories: traces and summaries, over any writer or reader, as `csv` writes and reads records.
#![tactic(auto)]

mod counts;
mod error;
mod legal_rows;
mod lines;
mod numbers;
mod reading;
mod records;
mod summary;
mod summary_row;
mod table;
mod trace;
mod words;

pub use counts::{COUNT_NAMES, Counts};
pub use error::ReportError;
pub use legal_rows::legal_history_has_rows;
pub use lines::Pending;
pub use numbers::{number_of, number_text, optional_number_of, unit_of, unit_text};
pub use reading::{Row, read_rows};
pub use records::{check_names, field, next_row, open};
pub use summary::write_summary;
pub use summary_row::write_summary_row;
pub use table::{Fields, TableRow, write_row};
pub use trace::{read_trace, write_entry, write_trace};
pub use words::{Word, named};
