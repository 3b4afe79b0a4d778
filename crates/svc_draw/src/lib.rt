//! Pictures of histories: a lane for each unit, a bar for each task, and marks for what the tasks did.
#![tactic(auto)]

mod joined;
mod legend;
mod picture;
mod tallies;

pub use picture::draw;
