//! Scheduled runs: all units of a machine in one host thread, in an order that a policy gives, so that a run can be
//! repeated. Each step of a run that has not ended makes exactly one accepted event.
#![tactic(auto)]

mod bursts;
pub mod policies;
pub mod policy;
pub mod run;
mod step;

pub use policies::{Oldest, Random, Rotate, Youngest};
pub use policy::Policy;
pub use run::{continue_schedule, run_schedule};
