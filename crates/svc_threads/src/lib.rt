//! Units on real threads, over one recorder under a lock, and a board that shows how far it has come.
#![tactic(auto)]

pub mod board;
pub mod bus;
pub mod fault;
mod locked;
pub mod outcome;
pub mod port;
pub mod run;
pub mod unit;

pub use board::{Board, BoardPass, BoardRow};
pub use bus::SharedBus;
pub use fault::RunError;
pub use outcome::{Outcome, reconcile};
pub use port::{Gate, Phase, Port};
pub use run::{Shared, run_over, run_units};
pub use unit::run_unit;
