//! The program as a library: what may be asked of it, and how each request is done over any files and streams.
#![tactic(auto)]

mod assembly;
mod depend;
mod dispatch;
mod explore;
mod find;
mod run;
mod script;
mod sequential;

pub use dispatch::{perform, perform_alone};
pub use svc_export::Format;
pub use svc_marks::{Choice, View};
pub use svc_observations::Sought;
pub use svc_report::TableRow;
pub use svc_request::{
    Assembly, Compared, Depended, Explored, Exported, Fault, FileFault, Files, NeedsTable, Order,
    Picture, Request, Run, Schedule, Scripted, Shown, Source, Table, Tasks, Traced, VERSION, tell,
};
pub use svc_sheet::{Style, Values};
pub use svc_show::Extras;
pub use svc_span::Span;
