//! What a run of the program leaves, and whether that is what is wanted. It is apart from the program that runs the
//! cases, so that its proofs and edits load nothing of the simulator.
#![tactic(auto)]

mod outcome;

pub use outcome::{Outcome, Part};
