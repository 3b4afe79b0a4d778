//! What one line of assembly says, or one part of a line that has parts.
#![tactic(auto)]

mod directives;
mod line;
mod lists;
mod parts;
mod strings;
mod symbols;

pub use directives::{Beginning, DIRECTIVES, Directive, Kept, Number, OPENED, SECTIONS, Says};
pub use parts::read_next;
