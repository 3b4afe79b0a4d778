//! How versions move out of the caches: the parts of a commit, a squash, a bus request and a
//! replacement that remove lines or set their bits, and that move values to the backing memory.
//!
//! A commit moves no line. The newest committed version of a word stays in its cache until the word is *purged*, at the
//! next bus request for it or replacement of it (the efficient commit design of Gopal, Vijaykumar, Smith, Sohi,
//! "Speculative Versioning Cache", HPCA 1998; the rules are this simulator's own). Versions of the head whose lines
//! were replaced wait in the [`Spill`] table for its commit.
#![tactic(auto)]

pub mod lines;
mod memory;
pub mod purging;
pub mod spill;

pub use lines::{commit_lines, squash_lines};
pub use purging::purge;
pub use spill::Spill;
