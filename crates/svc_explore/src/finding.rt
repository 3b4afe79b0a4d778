// The first observation that is looked for.

ghost use Rattle.std.specs.Prelude.{IfSome, IsNone};
ghost use Rattle.svc_explore_laws.specs.Closed.{IsIn};
ghost use Rattle.svc_explore_laws.specs.declared.observation.Observation.{Observation};
ghost use Rattle.svc_observations.specs.Sought.{Matches};
ghost use Rattle.svc_explore.specs.Found.{are_seen};
ghost use Rattle.svc_explore.specs.Witnesses.{IsFirstMatch};

use crate::found::Seen;
use svc_observations::Sought;

/// The first of what was seen that is looked for.
pub fn find(found: &[Seen], sought: Sought) -> Option<&Seen>
    ensures found { IfSome result (λ seen. IsIn seen.now found.now) }
    ensures matches { IfSome result (λ seen. Matches sought seen.now.what) }
    ensures first { IfSome result (λ seen. IsFirstMatch sought seen.now found.now) }
    ensures none { IsNone result → (o : Observation) → IsIn o (are_seen found.now) → Matches sought o → ⊥ }
{
    for seen in found {
        if sought.matches(&seen.what) {
            return Some(seen);
        }
    }
    None
}
