//! What may be asked of the program, over which files, and why it may give up.
#![tactic(auto)]

mod faults;
mod files;
mod names;
mod request;

pub use faults::{Fault, tell};
pub use files::{FileFault, Files};
pub use request::{
    Assembly, Compared, Depended, Explored, Exported, NeedsTable, Order, Picture, Request, Run,
    Schedule, Scripted, Shown, Source, Table, Tasks, Traced, VERSION,
};
