//! What the speculation of a history cost, instruction by instruction.
#![tactic(auto)]

mod addresses;
mod charge;
mod charges;
mod cost;
mod instructions;
mod laws;
mod lost;
mod reader;
mod rows;

pub use addresses::asked_at;
pub use instructions::write_instructions;
pub use laws::{
    instruction_rows_add_up, legal_entries_ask, legal_violations_add_up, legal_violations_are_read,
};
