//! The mathematics of the bus, before its code: the versioned map, the line table and the laws that tie them.
//!
//! The definitions stand in `specs/`: a task's view of memory, the victim of a write and the steps of the map
//! (`Versioned`, and the same by recursion on its rows in `ByRows`); every cache's lines with their bits and task
//! numbers, the spill table and the backing memory (`LineTable`, `Steps`, `Supplier`, `Walk`); what every reached table
//! satisfies (`Sound`); the state that callers see, in which lines have no numbers (`BusLine`, `BusState`, `BusView`,
//! `BusSteps`); and when a request is refused (`Refusals`).
//!
//! The only code is functions with empty bodies, whose contracts are the laws.
//!
//! Terms: Gopal, Vijaykumar, Smith, Sohi, "Speculative Versioning Cache", HPCA 1998, the efficient commit design (EC).
//! The rules themselves are this project's own, and docs/bus-rules.md states them in words.
#![tactic(auto)]

mod agreement;
mod map;
mod refusal;
mod table;

pub use agreement::{agreement_law, alike_law, order_law, seen_law, state_law};
pub use map::{rows_law, victim_law, view_law, walk_law};
pub use refusal::{full_law, pinned_law, same_refusals_law};
pub use table::{
    begin_law, commit_law, opened_law, purge_law, reached_law, read_law, replace_law, squash_law,
    supplier_law, write_law,
};
