//! Version control logic: what the bus does about a request, decided from the word's version list (Gopal,
//! Vijaykumar, Smith, Sohi, "Speculative Versioning Cache", HPCA 1998). It only decides, and changes nothing.
#![tactic(auto)]

pub mod read;
mod search;
pub mod write;

pub use read::{ReadPlan, plan_read};
pub use search::newest_version;
pub use svc_base::Served;
pub use write::{STALE_CAPACITY, WritePlan, plan_write};
