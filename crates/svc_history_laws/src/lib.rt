//! Histories of the machine: what an entry is, which lists of entries are legal, where they lead, and the laws of what
//! they say. Besides the types of an entry there are only functions with empty bodies, whose contracts are laws.
#![tactic(auto)]

pub mod entry;
mod laws;
mod rows;

pub use entry::{CutKind, Entry, Kind, ReplyKind, ServedKind, Slip};
pub use laws::{
    cuts_are_blamed, entry_has_event, history_leads_on, numbers_are_in_order,
    stories_are_sequential, violations_have_causes,
};
pub use rows::story_of_two_units;
