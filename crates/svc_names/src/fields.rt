// The fields of a row: what stands between its commas.

ghost use Rattle.std.specs.Prelude.{◌≡◌};
ghost use Rattle.svc_names.specs.Rows.{before_comma, field, past_comma};

// What stands before the first comma.
fn before_comma(row: &[u8]) -> &[u8]
    ensures { result.now ≡ before_comma row.now }
{
    for at in 0..row.len() {
        if row[at] == b',' {
            return &row[..at];
        }
    }
    row
}

// What follows the first comma.
#[tactic(auto, unfolding(crate::specs::Rows::past_comma))]
fn past_comma(row: &[u8]) -> &[u8]
    ensures { result.now ≡ past_comma row.now }
{
    let mut rest = row;
    while let [first, after @ ..] = rest {
        if *first == b',' {
            return after;
        }
        rest = after;
    }
    rest
}

/// The field of this place, counted from 0.
pub fn field(row: &[u8], place: usize) -> &[u8]
    ensures { result.now ≡ field place row.now }
{
    let mut rest = row;
    for _before in 0..place {
        rest = past_comma(rest);
    }
    before_comma(rest)
}
