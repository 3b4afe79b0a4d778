//! One unit's cache: rows of places, seen as a map from word to line.
//!
//! A cache has a number of sets, a power of two, and a number of ways. Word `a` belongs to set
//! `a mod sets`. The places of set `s` are the `ways` places from `s * ways` on. A line of a word may be in
//! any place of the word's set and in no other, so a search visits that set alone.
//!
//! A *probe* is one search of one set. [`Probes`] counts them, and the places that they visit.
#![tactic(auto)]

pub mod cache;
mod place;
pub mod probes;
mod row;

pub use cache::Cache;
pub use probes::Probes;
pub use row::SetFull;
