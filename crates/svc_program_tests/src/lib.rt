//! Tests of what the program is built on above the machine, by what these crates make public: units on real threads,
//! and the texts that are read and written.

#![tactic(auto)]

#[cfg(test)]
mod texts;
#[cfg(test)]
mod threads;
