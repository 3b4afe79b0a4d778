//! Tasks in code: cores that turn in place, loads and stores by words, and bursts outside the lock.
#![tactic(auto)]

mod access;
mod answer;
mod burst;
mod burst_reads;
mod core_reads;
mod core_state;
mod effect;
mod finish;
mod numbers;
mod turn;

pub use access::{Access, load_place, loaded_value, store_place, stored_word};
pub use burst::{Burst, Lease};
pub use core_state::Core;
pub use effect::Effect;
pub use numbers::{compare, operate};
pub use svc_base::limits::MAX_BURST_TURNS;
pub use svc_core_laws::{Ask, End, Ending};
