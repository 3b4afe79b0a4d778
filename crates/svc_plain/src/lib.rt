//! The plain runner: a program's tasks, one after another, on one flat memory.
#![tactic(auto)]

mod code;
mod error;
mod run;
mod task;

pub use error::PlainError;
pub use run::{PlainOutcome, run_tasks};
pub use svc_core::Ending;
