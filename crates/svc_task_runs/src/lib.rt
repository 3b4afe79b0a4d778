//! The tasks that a history's entries begin: what each did, and what became of it.
#![tactic(auto)]

mod runs;
mod task_run;

pub use runs::{TaskRuns, tasks_of};
pub use task_run::{Fate, TaskRun, loads_in, stores_in};
