//! The sheet of a picture: where the bars and marks of a history stand on it, and how each is drawn.
#![tactic(auto)]

mod drawing;
pub mod frame;
mod grid;
mod kinds;
mod names;
mod row;
mod sentences;
pub mod sheet;
mod values;

pub use drawing::{
    element_of, fill_of, name_of, write_bar, write_bars, write_layer, write_name, write_names,
};
pub use frame::Frame;
pub use kinds::{letter_of, write_plain_kinds, write_supplied_kinds};
pub use sheet::{Sheet, Style, Values};
pub use values::write_values;
