//! A cache line and its bits, in the terms of the efficient design of the Speculative Versioning Cache
//! (Gopal, Vijaykumar, Smith, Sohi, HPCA 1998). The rules by which the bits change are this
//! simulator's own.
#![tactic(auto)]

pub mod bits;
pub mod line;

pub use bits::LineBits;
pub use line::Line;
