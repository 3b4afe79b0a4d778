//! The machine to which a history leads, as rows: its active tasks, the lines of its caches with their bits, its
//! spilled words, and the memory of the words in these; and, if asked for, the cores of its tasks, the order of its
//! lines' versions, and what may come next.
#![tactic(auto)]

mod bits;
mod cached;
mod cores;
mod extras;
mod lines;
mod memory;
mod progress;
mod show;
mod tasks;
mod told;

pub use extras::Extras;
pub use show::show_text;
