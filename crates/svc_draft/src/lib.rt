//! An image in the making, by what the lines of a program say.
#![tactic(auto)]

mod area;
mod data;
mod draft;
mod labels;
mod making;
mod notes;
mod numbers;
mod settings;
mod sources;
mod steps;
mod texts;

pub use draft::Draft;
pub use making::Mark;
pub use sources::SourceTables;
