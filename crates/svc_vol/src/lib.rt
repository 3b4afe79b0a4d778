//! The version ordering list of a word (Gopal, Vijaykumar, Smith, Sohi, "Speculative Versioning Cache",
//! HPCA 1998): its valid lines in all caches, in the order of their tasks.
#![tactic(auto)]

pub mod held_line;
pub mod list;
mod walk;

pub use held_line::HeldLine;
pub use list::{CAPACITY, VersionList};
