//! The bits of a line.

ghost use Rattle.std.specs.Prelude.{⊤, ◌≡◌, Bool, if◌then◌else◌, [], ◌∷◌, codes};
ghost use Rattle.svc_line.specs.Bits.{bits_of, after_load, after_store, after_commit, after_squash, after_reuse};
ghost use Rattle.svc_line.specs.Bits.{after_overtaking, is_active, is_committed, is_dirty, is_exposed, is_reusable};

use bitflags::{Flag, Flags, bitflag_items};

/// The bits of a line (the V, S, L, C and T bits of HPCA 1998). A line without V isn't valid,
/// whatever its other bits.
#[derive(Clone, Copy, PartialEq, Eq, Debug)]
pub struct LineBits(u8);

bitflag_items! {
    impl LineBits: u8 {
        /// V: the line is valid.
        const VALID = 1;
        /// S: the line was stored to, so it holds a version.
        const STORE = 2;
        /// L: the line's task loaded the word before it stored it.
        const LOAD = 4;
        /// C: the line's task was committed.
        const COMMIT = 8;
        /// T: a later task has stored the word.
        const STALE = 16;
    }
}

// The named bits.
const NAMED: u8 = 31;

impl Flags for LineBits {
    type Bits = u8;

    ghost exact = { ⊤ };

    ghost table = { (codes "VALID", 1) ∷ (codes "STORE", 2) ∷ (codes "LOAD", 4) ∷ (codes "COMMIT", 8)
        ∷ (codes "STALE", 16) ∷ [] };

    ghost set_of = { λ line. line.0 };

    fn flags<'a>() -> &'a [Flag<LineBits>] {
        LineBits::FLAGS
    }

    fn bits(&self) -> u8 {
        self.0
    }

    fn from_bits_retain(bits: u8) -> LineBits {
        LineBits(bits)
    }
}

#[tactic(auto, unfolding(crate::specs::Bits::bits_of))]
impl LineBits {
    /// The line is valid.
    pub fn is_valid(self) -> bool
        ensures { result ≡ (bits_of self).valid }
    {
        self.contains(LineBits::VALID)
    }

    /// The line is valid and its task is not committed.
    pub fn is_active(self) -> bool
        ensures { result ≡ is_active (bits_of self) }
    {
        self.is_valid() && !self.contains(LineBits::COMMIT)
    }

    /// The line is valid and its task is committed.
    pub fn is_committed(self) -> bool
        ensures { result ≡ is_committed (bits_of self) }
    {
        self.is_valid() && self.contains(LineBits::COMMIT)
    }

    /// The line is valid and holds a version.
    pub fn is_dirty(self) -> bool
        ensures { result ≡ is_dirty (bits_of self) }
    {
        self.is_valid() && self.contains(LineBits::STORE)
    }

    /// The line is active, and its task loaded the word before it stored it.
    pub fn is_exposed(self) -> bool
        ensures { result ≡ is_exposed (bits_of self) }
    {
        self.is_active() && self.contains(LineBits::LOAD)
    }

    /// The line is a committed copy that no later store has made stale: its unit's next task may
    /// use it without a bus request.
    pub fn is_reusable(self) -> bool
        ensures { result ≡ is_reusable (bits_of self) }
    {
        self.is_committed() && !self.contains(LineBits::STORE) && !self.contains(LineBits::STALE)
    }

    /// The bits of a line that a load fills. `first_use` says that the task depends on the value, as it does unless the
    /// value is its own; `overtaken` says that a later task has a version.
    pub fn on_load(first_use: bool, overtaken: bool) -> LineBits
        ensures { bits_of result ≡ after_load first_use overtaken }
    {
        let mut bits = LineBits::VALID;
        bits.set(LineBits::LOAD, first_use);
        bits.set(LineBits::STALE, overtaken);
        bits
    }

    /// The bits after a store to the line. `overtaken` says that a later task has a version.
    pub fn on_store(self, overtaken: bool) -> LineBits
        ensures { bits_of result ≡ after_store (bits_of self) overtaken }
    {
        let mut bits = LineBits::VALID.union(LineBits::STORE);
        bits.set(LineBits::LOAD, self.is_exposed());
        bits.set(LineBits::STALE, overtaken);
        bits
    }

    /// The bits after the commit of the unit's task.
    #[tactic(auto, unfolding(crate::specs::Bits::bits_of), using(crate::proofs::Changes::with_commit))]
    pub fn on_commit(self) -> LineBits
        ensures { bits_of result ≡ after_commit (bits_of self) }
    {
        if self.is_valid() {
            self.union(LineBits::COMMIT)
        } else {
            self
        }
    }

    /// The bits after the squash of the unit's task.
    pub fn on_squash(self) -> LineBits
        ensures { bits_of result ≡ after_squash (bits_of self) }
    {
        if self.is_active() {
            LineBits::empty()
        } else {
            self
        }
    }

    /// The bits after the unit's next task has taken over a reusable line.
    #[tactic(auto, unfolding(crate::specs::Bits::bits_of), using(crate::proofs::Changes::with_reuse))]
    pub fn on_reuse(self) -> LineBits
        ensures { bits_of result ≡ after_reuse (bits_of self) }
    {
        self.difference(LineBits::COMMIT).union(LineBits::LOAD)
    }

    /// The bits after a later task has stored the word.
    #[tactic(auto, unfolding(crate::specs::Bits::bits_of), using(crate::proofs::Changes::with_stale))]
    pub fn on_overtaken(self) -> LineBits
        ensures { bits_of result ≡ after_overtaking (bits_of self) }
    {
        self.union(LineBits::STALE)
    }

    /// The named bits alone.
    pub fn named_bits(self) -> LineBits
        ensures { bits_of result ≡ record (bits_of self) { unnamed = 0 } }
    {
        LineBits(self.0 & NAMED)
    }
}
