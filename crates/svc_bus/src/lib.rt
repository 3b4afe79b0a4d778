//! The snooping bus: the units' private versioned caches, the table of spilled versions, the backing memory and the
//! queue of active tasks, as one versioned map from task and word.
//!
//! A task reads the nearest earlier version of a word. A store of an earlier task squashes the first later task that
//! read the word too early, and all after it. Commits are lazy: a committed version stays in its cache until the next
//! bus request for its word (Gopal, Vijaykumar, Smith, Sohi, "Speculative Versioning Cache", HPCA 1998, the efficient
//! commit design; the rules are this simulator's own).
#![tactic(auto)]

pub mod bus;
mod copy;
mod marks;
mod read;
mod reads;
mod replace;
mod request;
mod store;
mod tasks;
mod versions;
pub mod victim;
mod write;

pub use bus::Bus;
pub use svc_base::Served;
pub use versions::UnitList;
pub use victim::Victim;
