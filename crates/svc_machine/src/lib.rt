//! The machine: one sequential program on one to sixteen units over the versioned bus, one event at a time.
//!
//! An event assigns a task to a unit, takes over the turns that a unit has run outside the lock, replaces a line,
//! cancels a task or commits the head (Sohi, Breach, Vijaykumar, "Multiscalar Processors", ISCA 1995, for the
//! sequencer, the head and retirement in order). Whatever the events, what is committed is what the program leaves when
//! its tasks run one after another on one flat memory.
#![tactic(auto)]

mod admit;
mod asked;
mod assign;
mod cancel;
mod check;
mod commit;
mod copy;
pub mod event;
pub mod machine;
mod reads;
mod refusal;
mod replace;
mod run;
pub mod seat;
pub mod shown;
mod submit;

pub use event::Event;
pub use machine::Machine;
pub use run::drive;
pub use shown::ActiveTask;
pub use svc_machine_laws::{Cause, Cut, Reply, Served, What};
