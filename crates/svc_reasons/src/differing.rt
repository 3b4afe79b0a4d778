// The first column in which two rows differ.

ghost use Rattle.std.specs.Prelude.{◌≡◌, ◌↔◌, IsTrue};
ghost use Rattle.svc_names.specs.Rows.{field};
ghost use Rattle.svc_reasons.specs.Reasons.{IsFirstOther, bare};

use svc_names::field;

// The number of columns of a trace.
const COLUMNS: usize = 13;

/// A row without its end.
pub(crate) fn bare(row: &[u8]) -> &[u8]
    ensures { result.now ≡ bare row.now }
{
    &row[..row.len().saturating_sub(1)]
}

// Whether two rows have the same field at this place.
fn has_same_field(mine: &[u8], theirs: &[u8], place: usize) -> bool
    ensures { IsTrue result ↔ (field place mine.now ≡ field place theirs.now) }
{
    field(mine, place) == field(theirs, place)
}

/// The first place, counted from 0, at which two rows of traces have other fields, if there is one.
pub(crate) fn first_other(mine: &[u8], theirs: &[u8]) -> Option<usize>
    ensures { IsFirstOther mine.now theirs.now result }
{
    for place in 0..COLUMNS {
        if !has_same_field(mine, theirs, place) {
            return Some(place);
        }
    }
    None
}
