//! All schedules of a small image: every standing that moves of its units lead to, and all that can be seen there.
#![tactic(auto)]

mod finding;
mod found;
mod key;
mod moves;
mod names;
mod order;
mod rows;
mod runs;
mod search;
mod shown;
mod walk;

pub use finding::find;
pub use found::Seen;
pub use moves::make_move;
pub use rows::{put_exploration, put_finding};
pub use runs::scheduled_runs_play;
pub use shown::witness;
pub use walk::{Exploration, explore};
