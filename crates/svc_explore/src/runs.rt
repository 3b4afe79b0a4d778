// Scheduled runs are plays.

ghost use Rattle.svc_base.specs.declared.config.Config.{Config};
ghost use Rattle.svc_image.specs.Image.{Image, IsImage};
ghost use Rattle.std.specs.Prelude.{ℕ};
ghost use Rattle.svc_machine_laws.specs.Standing.{opened_at};
ghost use Rattle.svc_history.specs.Recorded.{Recorded};
ghost use Rattle.svc_schedule.specs.Steps.{IsScheduled};
ghost use Rattle.svc_explore_laws.specs.Moves.{Plays};

use svc_schedule::Policy;

/// The history of each scheduled run of an image, whatever its policy, is a play by bursts of as many turns: so it
/// shows only what a whole exploration found.
pub fn scheduled_runs_play<P: Policy>()
    ensures { (img : Image) → IsImage img → (config : Config) → (most : ℕ) → (old new : P) → (r : Recorded)
        → IsScheduled P.gives img config most old new r → Plays img config most (opened_at img config 0) r.entries }
{}
