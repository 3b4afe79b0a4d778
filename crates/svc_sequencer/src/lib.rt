//! The sequencer: which task is due, which one to guess, and what an ended task cuts (Sohi, Breach, Vijaykumar,
//! "Multiscalar Processors", ISCA 1995: a sequencer predicts the next task and assigns it, and tasks retire in order).
#![tactic(auto)]

mod sequencer;

pub use sequencer::{CAPACITY, Sequencer};
