//! Instructions in a line of assembly, as the rows of tables: RV32I's own, other names of them, and names of two.
#![tactic(auto)]

mod branch;
mod couple;
mod immediates;
mod offsets;
mod reading;
mod steps;
mod table;

pub use couple::read_instruction;
pub use reading::{ORDERS, part_number, row_of};
pub use table::{
    ALIASES, COUPLES, Couple, LOADS, Operands, Part, ROWS, Row, STORES, Through, parts_of,
};
