//! The command line: what its words ask for, and the program over any words, files and streams; and the words and the
//! files that the system gives.
#![tactic(auto)]

mod disk;
mod line;
mod options;
mod program;
mod reading;
mod requests;
mod words;

pub use disk::Disk;
pub use program::{execute, execute_alone};
pub use words::words_of;
