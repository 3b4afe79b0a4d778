//! Text that is gathered in memory, piece by piece, and written once it is long enough.
#![tactic(auto)]

mod parts;
mod pieces;
mod rows;
mod writing;

pub use parts::{Part, put_parts};
pub use pieces::Piece;
pub use rows::{put_fields, put_row};
pub use writing::{ENOUGH, write_if_long, write_text};
