//! The order of the active tasks, as the units that run them: tasks are added at the tail and leave
//! at the head (Sohi, Breach, Vijaykumar, "Multiscalar Processors", ISCA 1995).
#![tactic(auto)]

pub mod queue;

pub use queue::{CAPACITY, TaskQueue};
