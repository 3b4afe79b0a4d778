//! Images: the programs that the simulator runs, and the loader of their files.
#![tactic(auto)]

mod check;
mod error;
mod fetched;
mod header;
mod image;
mod laws;
mod layout;
mod marks;
mod parts;
pub mod samples;
mod slot;
mod slots;
mod version;
mod words;

pub use error::ImageError;
pub use fetched::Fetched;
pub use image::Image;
pub use laws::one_meaning;
pub use layout::{DATA_START, MOST_BYTES, MOST_ENTRIES, MOST_WORDS};
pub use parts::{Own, Parts};
pub use slot::{Found, Slot};
pub use version::Version;
pub use words::read_words;
