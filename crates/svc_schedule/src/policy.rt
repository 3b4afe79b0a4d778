//! What a policy is.

ghost use Rattle.std.specs.Prelude.{List};
ghost use Rattle.svc_base.specs.declared.ids.UnitId.{UnitId};
ghost use Rattle.svc_history.specs.Recorded.{Recorded};

use arrayvec::ArrayVec;
use svc_base::UnitId;
use svc_history::Recorder;

/// The order in which the steps of a run ask the units. Anybody may write one.
pub trait Policy {
    /// What it may answer where a history leads, and what it is after that. A policy of which nothing has to be known
    /// says `λ _ _ _ _. ⊤`.
    ghost gives: { Self → Recorded → List UnitId → Self → Type 0 };

    /// The units in the order in which the next step asks them. It may answer anything: units that can't move or don't
    /// exist, a unit twice, none. Units that it leaves out are asked after it, by number. It is asked once per step.
    fn order(&mut self, recorder: &Recorder) -> ArrayVec<UnitId, 16>
        ensures { gives self.old recorder.now result.items self.new };
}
