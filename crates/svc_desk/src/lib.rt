//! The program at a desk: its words in one text, and files of any names in memory, those that it reads and those that
//! it saves. It starts no thread.
#![tactic(auto)]

mod answer;
mod desk;
mod line;
mod packed;

pub use answer::{Answer, answered};
pub use desk::Desk;
pub use packed::{FileSize, Lent, Packed};
