//! A reader that ends within the first record that is too long, so that a record without an end takes no unbounded
//! memory.
//!
//! Where a record of a text ends follows RFC 4180's rules for quotes, commas and line breaks, as the crate `csv` reads
//! them.
#![tactic(auto)]

mod gauge;
mod limited;
mod place;

pub use limited::Limited;
