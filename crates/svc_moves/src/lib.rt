//! What may come next at a machine: the events that its units may ask for, each with its refusal, as rows.
#![tactic(auto)]

mod burst;
mod moves;
mod row;

pub use moves::put_moves;
