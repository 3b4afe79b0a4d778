//! The command line as its parser is told of it: the subcommands, their arguments, and the help of each.
#![tactic(auto)]

mod argument;
mod arguments;
pub mod command;
mod drawing;
mod helps;
