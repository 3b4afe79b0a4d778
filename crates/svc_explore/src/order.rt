// The order in which observations are told.

ghost use Rattle.std.specs.Prelude.{◌≡◌};
ghost use Rattle.std.specs.List.Sorted.{IsPermutation};
ghost use Rattle.svc_observations.specs.Order.{AreInOrder, places_of};
ghost use Rattle.svc_explore.specs.Found.{are_seen};

use crate::found::Seen;
use svc_observations::places_of;

/// Puts what was seen into the order of its rows.
pub(crate) fn put_in_order(found: &mut Vec<Seen>)
    ensures same { IsPermutation found.old.items found.new.items }
    ensures order { AreInOrder (are_seen found.new.items) }
{
    found.sort_unstable_by_key(
        |seen: &Seen| -> [u64; 6]
            ensures { result ≡ places_of seen.now.what }
        { places_of(&seen.what) },
    );
}
