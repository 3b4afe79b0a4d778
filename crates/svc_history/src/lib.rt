//! The recorder: a machine with the history of its accepted events, which is legal by its type, and the check of a
//! trace.
#![tactic(auto)]

pub mod glance;
pub mod recorder;
pub mod same;
pub mod trace;
mod writing;

pub use glance::{Glance, Move};
pub use recorder::Recorder;
pub use svc_history_laws::{CutKind, Entry, Kind, ReplyKind, ServedKind, Slip};
pub use svc_machine::{Event, Machine};
pub use trace::{TraceFault, TraceFaultKind, check_on, check_trace, open_trace};
