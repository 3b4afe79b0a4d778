//! What can be seen of a history: its entries' observations, their rows and their order, and what is looked for among
//! them.
#![tactic(auto)]

mod order;
mod roster;
mod rows;
mod sight;
mod sought;
mod trace;

pub use order::places_of;
pub use roster::Roster;
pub use rows::{put_seen, put_sightings};
pub use sight::{happened, roster_of, squashed};
pub use sought::Sought;
pub use trace::{Sighting, sightings};
