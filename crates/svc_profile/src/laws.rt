// The laws of sums: the rows of a table add up to the totals of the profile.

ghost use Rattle.std.specs.Prelude.{◌≡◌, ◌<◌};
ghost use Rattle.std.specs.List.{AllByRecursion, range_with_len, sum_by};
ghost use Rattle.svc_profile.specs.declared.totals.Total.{Total};
ghost use Rattle.svc_profile.specs.Profile.{total};
ghost use Rattle.svc_task_runs.specs.Runs.{tasks_of};
ghost use Rattle.svc_profile.specs.Tasks.{tasks_in_order};
ghost use Rattle.svc_profile.specs.Units.{tasks_on};

use svc_history_laws::Entry;

/// Each total over the rows of the table of tasks is that of the profile.
pub fn task_rows_add_up(entries: &[Entry])
    ensures { (t : Total) → total (tasks_in_order entries.now) t ≡ total (tasks_of entries.now) t }
{}

/// If the entries name only this many units, each total over the rows of the table of units is that
/// of the profile.
pub fn unit_rows_add_up(units: u32, entries: &[Entry])
    requires named { AllByRecursion (λ e. e.unit.0 < units) entries.now }
    ensures { (t : Total) → sum_by (λ unit. total (tasks_on (tasks_of entries.now) unit) t) (range_with_len 0 units)
        ≡ total (tasks_of entries.now) t }
{}
