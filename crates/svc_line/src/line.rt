//! A line of a cache.

use crate::LineBits;
use svc_base::UnitId;

/// A line of a cache: one aligned word. It is valid only while its bits have V.
#[derive(Clone, Copy, Debug, PartialEq, Eq)]
pub struct Line {
    /// The word's value.
    pub value: u32,
    /// The line's bits.
    pub bits: LineBits,
    /// The line's link: the unit whose line holds the next newer version of the word. `None` ends the links, and so
    /// does a unit that no longer has such a line. The link means nothing unless the line was stored to.
    pub next: Option<UnitId>,
}
