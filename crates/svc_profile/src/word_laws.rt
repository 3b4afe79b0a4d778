// The laws of sums: the rows of the table add up, column by column, to what the profile says.

ghost use Rattle.std.specs.Prelude.{◌≡◌, List, count_by};
ghost use Rattle.std.specs.List.{AllByRecursion, sum_by};
ghost use Rattle.svc_base.specs.declared.config.Config.{Config};
ghost use Rattle.svc_image.specs.Image.{Image};
ghost use Rattle.svc_history_laws.specs.declared.entry.Entry.{Entry};
ghost use Rattle.svc_history_laws.specs.Legal.{LegalHistory};
ghost use Rattle.svc_report.specs.Summary.{counts_of};
ghost use Rattle.svc_profile.specs.declared.totals.Group.TheVariants as group;
ghost use Rattle.svc_profile.specs.declared.totals.Measure.TheVariants as measure;
ghost use Rattle.svc_profile.specs.Profile.{total, total_of};
ghost use Rattle.svc_task_runs.specs.Runs.{is_load, is_store, tasks_of};
ghost use Rattle.svc_profile.specs.Column as column;
ghost use Rattle.svc_profile.specs.Named.{NamesItsWord};
ghost use Rattle.svc_profile.specs.OneTask.{EachIsOfOneTask};
ghost use Rattle.svc_profile.specs.Words.{count_of, words_named};

use svc_history_laws::Entry;

/// Each entry of a legal history names the word for which something is counted.
pub fn legal_entries_name_their_words()
    ensures { (img : Image) → (config : Config) → (es : List Entry) → LegalHistory img config es
        → AllByRecursion NamesItsWord es }
{}

/// If each entry names the word for which it counts, the rows of the table of words add up in each column to what the
/// profile says: of the entries, their loads, stores, reads that another task's version served and violations; of the
/// tasks that a violation squashed, their number and their turns.
pub fn word_rows_add_up(entries: &[Entry])
    requires named { AllByRecursion NamesItsWord entries.now }
    ensures loads { sum_by (count_of column.Loads entries.now) (words_named entries.now)
        ≡ count_by (λ e. is_load e.reply) entries.now }
    ensures stores { sum_by (count_of column.Stores entries.now) (words_named entries.now)
        ≡ count_by (λ e. is_store e.reply) entries.now }
    ensures versions { sum_by (count_of column.Versions entries.now) (words_named entries.now)
        ≡ (counts_of entries.now).version }
    ensures violations { sum_by (count_of column.Violations entries.now) (words_named entries.now)
        ≡ (counts_of entries.now).violation }
    ensures squashed { sum_by (count_of column.Squashed entries.now) (words_named entries.now)
        ≡ total (tasks_of entries.now) (total_of measure.Tasks group.Violation) }
    ensures turns { sum_by (count_of column.Turns entries.now) (words_named entries.now)
        ≡ total (tasks_of entries.now) (total_of measure.Turns group.Violation) }
{}

/// If also each entry that loads or stores is a submit of just one active task, the rows have the loads and the stores
/// of all tasks that were begun.
pub fn word_rows_are_of_tasks(entries: &[Entry])
    requires named { AllByRecursion NamesItsWord entries.now }
    requires alone { EachIsOfOneTask entries.now }
    ensures loads { sum_by (count_of column.Loads entries.now) (words_named entries.now)
        ≡ total (tasks_of entries.now) (total_of measure.Loads group.Begun) }
    ensures stores { sum_by (count_of column.Stores entries.now) (words_named entries.now)
        ≡ total (tasks_of entries.now) (total_of measure.Stores group.Begun) }
{}
