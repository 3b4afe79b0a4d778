//! The listing of an image: a text that is assembled to it.
#![tactic(auto)]

mod labels;
mod listing;
mod text;

pub use labels::each_is_listed;
pub use listing::list;
