// The laws of sums of the tables of meetings.

ghost use Rattle.std.specs.Prelude.{◌≡◌};
ghost use Rattle.std.specs.List.{sum_by};
ghost use Rattle.svc_report.specs.Summary.{counts_of};
ghost use Rattle.svc_profile.specs.declared.totals.Group.TheVariants as group;
ghost use Rattle.svc_profile.specs.declared.totals.Measure.TheVariants as measure;
ghost use Rattle.svc_profile.specs.declared.meetings.Meets.TheVariants as meets;
ghost use Rattle.svc_profile.specs.Met.{met_of};
ghost use Rattle.svc_profile.specs.Profile.{total, total_of};
ghost use Rattle.svc_task_runs.specs.Runs.{tasks_of};

use svc_history_laws::Entry;

/// The rows of the table of squashes add up to the squashes for a violation, and to the turns of the tasks that these
/// squashed.
pub fn pair_rows_add_up(entries: &[Entry])
    ensures squashes { sum_by (λ row. row.1.times) (met_of meets.Squash entries.now)
        ≡ (counts_of entries.now).violation }
    ensures turns { sum_by (λ row. row.1.turns) (met_of meets.Squash entries.now)
        ≡ total (tasks_of entries.now) (total_of measure.Turns group.Violation) }
{}

/// The rows of the table of versions that served reads add up to the reads that a version served.
pub fn supplier_rows_add_up(entries: &[Entry])
    ensures { sum_by (λ row. row.1.times) (met_of meets.Supply entries.now) ≡ (counts_of entries.now).version }
{}
