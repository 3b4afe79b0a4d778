// The row of an event that may come next.

ghost use Rattle.std.specs.Prelude.{◌≡◌, ◌++◌, OnOk, option_map};
ghost use Rattle.svc_base.specs.Refusals.{number_of};
ghost use Rattle.svc_moves.specs.Rows.{move_row};

use std::alloc::AllocError;
use svc_base::{Refusal, UnitId};
use svc_text::{Part, put_parts};

/// Adds the row of an event of this kind, with its argument, if it has one, and its refusal, if it would be refused.
pub(crate) fn put_move(
    unit: UnitId,
    kind: &str,
    arg: Option<u32>,
    why: Option<Refusal>,
    rows: &mut Vec<u8>,
) -> Result<(), AllocError>
    ensures { OnOk result (rows.new.items ≡ rows.old.items ++ move_row unit.0 kind.now arg why) }
{
    let parts = [
        Part::Text("move,"),
        Part::Number(u64::from(unit.0)),
        Part::Text(","),
        Part::Text(kind),
        Part::Text(","),
        Part::Maybe(argument(arg)),
        Part::Text(","),
        Part::Maybe(number_of(why)),
        Part::Text("\n"),
    ];
    put_parts(rows, &parts)
}

// The number of a refusal, if there is one.
fn number_of(why: Option<Refusal>) -> Option<u64>
    ensures { result ≡ option_map number_of why }
{
    match why {
        Some(why) => Some(u64::from(why.number())),
        None => None,
    }
}

// An argument as a number of a text, if there is one.
fn argument(arg: Option<u32>) -> Option<u64>
    ensures { result ≡ arg }
{
    match arg {
        Some(arg) => Some(u64::from(arg)),
        None => None,
    }
}
