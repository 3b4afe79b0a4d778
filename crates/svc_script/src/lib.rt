//! Scripts: their text, both ways, what their steps do to a recorder, and the one that leads to a history; and the
//! replay of a trace with other suppliers.
#![tactic(auto)]

mod answering;
mod events;
mod leading;
mod playing;
mod script;
mod suppliers;

pub use answering::retry;
pub use events::{first_other, lead_on};
pub use leading::{script_leads_back, script_of};
pub use playing::{Answer, Kept, no_bursts, play};
pub use script::{Step, StepKind, read_script, write_script};
pub use suppliers::check_but_suppliers;
