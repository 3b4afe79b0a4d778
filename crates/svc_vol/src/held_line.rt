//! A line of a word, with the unit that has it.

ghost use Rattle.std.specs.Prelude.{◌≡◌, option_map};
ghost use Rattle.svc_line.specs.Line.{seen_line};
ghost use Rattle.svc_vol.specs.Value.{active_line, seen_held_line};

use bitflags::Flags;
use svc_base::UnitId;
use svc_line::{Line, LineBits};

/// A valid line of a word, and the unit whose cache holds it.
#[derive(Clone, Copy)]
pub struct HeldLine {
    /// The unit.
    pub unit: UnitId,
    /// The line.
    pub line: Line,
}

impl Default for HeldLine {
    // A line without V, for the unused places of a list.
    fn default() -> HeldLine {
        HeldLine {
            unit: UnitId(0),
            line: Line {
                value: 0,
                bits: LineBits::empty(),
                next: None,
            },
        }
    }
}

impl HeldLine {
    /// The unit's line, if it is active.
    pub(crate) fn if_active(unit: UnitId, line: Option<Line>) -> Option<HeldLine>
        ensures { option_map seen_held_line result ≡ active_line unit.0 (option_map seen_line line) }
    {
        match line {
            Some(line) if line.bits.is_active() => Some(HeldLine { unit, line }),
            _ => None,
        }
    }
}
