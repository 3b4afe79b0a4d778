//! The vocabulary of the whole simulator: units, tasks, word addresses, the configuration of a run,
//! limits, the reasons for which an event is refused, and who supplies a read.
#![tactic(auto)]

pub mod config;
pub mod ids;
pub mod limits;
pub mod refusal;
pub mod served;

pub use config::{Config, ConfigError};
pub use ids::{TaskNo, UnitId, WordAddr};
pub use refusal::{OpenError, Refusal};
pub use served::Served;
