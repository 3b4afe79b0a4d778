//! A place of a cache.

ghost use Rattle.std.specs.Prelude.{◌≡◌, false};
ghost use Rattle.svc_line.specs.Bits.{bits_of};
ghost use Rattle.svc_cache.specs.Places.{has_committed, holds, is_held, precedes};

use bitflags::Flags;
use svc_base::WordAddr;
use svc_line::{Line, LineBits};

/// A place of a cache. It holds its word while the line's bits have V; otherwise it is empty.
#[derive(Clone, Copy)]
pub struct CachePlace {
    /// The word of the line.
    pub word: WordAddr,
    /// The line.
    pub line: Line,
}

impl CachePlace {
    /// A place without a line.
    #[tactic(auto, unfolding(svc_line::specs::Bits::bits_of))]
    pub fn empty() -> CachePlace
        ensures { is_held result ≡ false }
    {
        CachePlace {
            word: WordAddr(0),
            line: Line {
                value: 0,
                bits: LineBits::empty(),
                next: None,
            },
        }
    }

    /// The place has a line.
    pub fn is_held(&self) -> bool
        ensures { result ≡ is_held self.now }
    {
        self.line.bits.is_valid()
    }

    /// The place has a line, and it is committed.
    pub fn has_committed(&self) -> bool
        ensures { result ≡ has_committed self.now }
    {
        self.line.bits.is_committed()
    }

    /// The place has a line of the word.
    pub fn holds(&self, word: WordAddr) -> bool
        ensures { result ≡ holds self.now word.0 }
    {
        self.is_held() && self.word.0 == word.0
    }

    /// This place's line leaves before the other's when one of them has to: a committed line
    /// before an active one, otherwise the lower word.
    pub fn precedes(&self, other: &CachePlace) -> bool
        ensures { result ≡ precedes self.now other.now }
    {
        let lower = self.word.0 < other.word.0;
        if self.has_committed() {
            !other.has_committed() || lower
        } else {
            !other.has_committed() && lower
        }
    }
}
