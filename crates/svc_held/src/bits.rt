// The bits of a line, each under its own name.

ghost use Rattle.std.specs.Prelude.{◌≡◌};
ghost use Rattle.svc_line.specs.Bits.{bits_of};

use bitflags::Flags;
use svc_line::LineBits;

/// S is set: the line is a version, which its task has stored to.
#[tactic(auto, unfolding(svc_line::specs::Bits::bits_of))]
pub fn is_stored(bits: LineBits) -> bool
    ensures { result ≡ (bits_of bits).store }
{
    bits.contains(LineBits::STORE)
}

/// L is set: its task has loaded the word before it stored to it.
#[tactic(auto, unfolding(svc_line::specs::Bits::bits_of))]
pub fn is_loaded(bits: LineBits) -> bool
    ensures { result ≡ (bits_of bits).load }
{
    bits.contains(LineBits::LOAD)
}

/// C is set: its task is committed.
#[tactic(auto, unfolding(svc_line::specs::Bits::bits_of))]
pub fn is_committed(bits: LineBits) -> bool
    ensures { result ≡ (bits_of bits).commit }
{
    bits.contains(LineBits::COMMIT)
}

/// T is set: a later task has stored to the word.
#[tactic(auto, unfolding(svc_line::specs::Bits::bits_of))]
pub fn is_stale(bits: LineBits) -> bool
    ensures { result ≡ (bits_of bits).stale }
{
    bits.contains(LineBits::STALE)
}
