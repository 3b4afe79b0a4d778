//! All schedules of a machine: which standings have the same future, and what follows where a list of their keys is
//! closed.
#![tactic(auto)]

mod closed;
mod futures;
mod lines;
pub mod observation;

pub use closed::closed_law;
pub use futures::future_law;
pub use lines::twin_law;
pub use observation::{By, Happening, Observation};
