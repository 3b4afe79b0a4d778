// The bits of a line.

ghost use Rattle.std.specs.Prelude.{◌∷◌, [], ◌++◌, ◌≡◌, ◌&&◌, OnOk};
ghost use Rattle.svc_bus.specs.Calls.{line_shown};
ghost use Rattle.svc_line.specs.Bits.{bits_of};
ghost use Rattle.svc_show.specs.Rows.{letter, line_bits};

use std::alloc::AllocError;
use svc_held::{is_committed, is_loaded, is_stale, is_stored};
use svc_line::LineBits;
use svc_text::Piece;

/// A committed task's version: S and C are set.
pub(crate) fn is_version(bits: LineBits) -> bool
    ensures { result ≡ ((bits_of bits).commit && (bits_of bits).store) }
{
    is_committed(bits) && is_stored(bits)
}

// The letter of a bit that is set, or a dash.
fn letter(is_set: bool, name: u8) -> u8
    ensures { result ∷ [] ≡ letter is_set (name ∷ []) }
{
    if is_set { name } else { b'-' }
}

/// Writes the last column of a valid line, the letters of its bits, and ends its row.
pub(crate) fn write_bits(line: (LineBits, u32), rows: &mut Vec<u8>) -> Result<(), AllocError>
    ensures { OnOk result (rows.new.items ≡ rows.old.items ++ line_bits (line_shown line)) }
{
    let bits = line.0;
    let letters = [
        b',',
        b'V',
        letter(is_stored(bits), b'S'),
        letter(is_loaded(bits), b'L'),
        letter(is_committed(bits), b'C'),
        letter(is_stale(bits), b'T'),
        b'\n',
    ];
    letters.as_slice().put(rows)
}
