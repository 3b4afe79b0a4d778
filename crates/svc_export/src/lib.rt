//! A history as files for viewers: a trace of events, and a dump of value changes. It knows only entries.
#![tactic(auto)]

mod changes;
mod chrome;
mod events;
mod export;
pub mod flows;
mod mark_events;
mod vcd;

pub use export::{Format, export_text};
