// Rows of numbers.

ghost use Rattle.std.specs.Prelude.{◌≡◌, ◌++◌, OnOk};
ghost use Rattle.svc_text.specs.Rows.{field, fields, row};

use crate::pieces::Piece;
use std::alloc::AllocError;

// Adds a number after a comma.
fn put_field(text: &mut Vec<u8>, number: u64) -> Result<(), AllocError>
    ensures { OnOk result (text.new.items ≡ text.old.items ++ field number) }
{
    ",".put(text)?;
    number.put(text)
}

/// Adds the beginning of a row, and numbers after it, each after a comma.
///
/// Errors: [`AllocError`], if memory runs out.
pub fn put_fields<P: Piece>(text: &mut Vec<u8>, first: P, numbers: &[u64]) -> Result<(), AllocError>
    ensures { OnOk result (text.new.items ≡ text.old.items ++ fields (P.bytes first) numbers.now) }
{
    first.put(text)?;
    for number in numbers {
        put_field(text, *number)?;
    }
    Ok(())
}

/// Adds the same, and ends the row.
///
/// Errors: [`AllocError`], if memory runs out.
pub fn put_row<P: Piece>(text: &mut Vec<u8>, first: P, numbers: &[u64]) -> Result<(), AllocError>
    ensures { OnOk result (text.new.items ≡ text.old.items ++ row (P.bytes first) numbers.now) }
{
    put_fields(text, first, numbers)?;
    "\n".put(text)
}
