//! The subcommands that replay a trace: each checks its entries, and tells what they say.
#![tactic(auto)]

pub mod check;
pub mod draw;
pub mod export;
mod fronts;
pub mod observe;
pub mod profile;
pub mod show;
