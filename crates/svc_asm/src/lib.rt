//! Assembly: programs as text, to images.
#![tactic(auto)]

mod assembling;
mod found;
mod labels;
mod rounds;
mod texts;

pub use assembling::{AssembleError, Expected, assemble};
pub use found::{Found, Word};
pub use labels::{Label, labels_of};
pub use rounds::{MOST_PASSES, MOST_ROUNDS};
pub use texts::NEXT_TEXT;
