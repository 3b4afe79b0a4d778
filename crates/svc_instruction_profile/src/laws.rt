// The laws of sums: the rows of the table add up, column by column, to what the profile says.

ghost use Rattle.std.specs.Prelude.{◌≡◌, List, count_by};
ghost use Rattle.svc_base.specs.declared.config.Config.{Config};
ghost use Rattle.svc_image.specs.Image.{Image, IsImage};
ghost use Rattle.svc_history_laws.specs.declared.entry.Entry.{Entry};
ghost use Rattle.svc_history_laws.specs.Legal.{LegalHistory};
ghost use Rattle.svc_report.specs.Summary.{counts_of};
ghost use Rattle.svc_profile.specs.declared.totals.Group.TheVariants as group;
ghost use Rattle.svc_profile.specs.declared.totals.Measure.TheVariants as measure;
ghost use Rattle.svc_profile.specs.Profile.{total, total_of};
ghost use Rattle.svc_task_runs.specs.Runs.{is_load, is_store, tasks_of};
ghost use Rattle.svc_instruction_profile.specs.Addresses.{addresses};
ghost use Rattle.svc_instruction_profile.specs.Charges.{is_output};
ghost use Rattle.svc_instruction_profile.specs.Rows.{instruction_rows};
ghost use Rattle.svc_instruction_profile.specs.Sums.{EachAsksAt, EachIsRead, column_sum};

use svc_history_laws::Entry;

/// Each entry of a legal history that loads, stores, outputs or squashes for a violation asks at an instruction.
pub fn legal_entries_ask()
    ensures { (img : Image) → (config : Config) → (es : List Entry) → LegalHistory img config es
        → EachAsksAt (addresses img config es) es }
{}

/// Of each violation of a legal history it is known at which instruction its victim first read the word.
pub fn legal_violations_are_read()
    ensures { (img : Image) → IsImage img → (config : Config) → (es : List Entry) → LegalHistory img config es
        → EachIsRead (addresses img config es) es }
{}

/// If each entry that is charged asks at an instruction, the rows of the table add up in each column to what the
/// profile says: of the entries, their loads, stores, outputs and violations; of the squashed tasks, their loads. So do
/// the violations suffered, if it is known of each where its victim first read the word.
pub fn instruction_rows_add_up(asked: &[Option<u32>], entries: &[Entry])
    requires asks { EachAsksAt asked.now entries.now }
    ensures loads { column_sum (λ cost. cost.loads) (instruction_rows asked.now entries.now)
        ≡ count_by (λ e. is_load e.reply) entries.now }
    ensures stores { column_sum (λ cost. cost.stores) (instruction_rows asked.now entries.now)
        ≡ count_by (λ e. is_store e.reply) entries.now }
    ensures outputs { column_sum (λ cost. cost.outputs) (instruction_rows asked.now entries.now)
        ≡ count_by (λ e. is_output e.reply) entries.now }
    ensures lost { column_sum (λ cost. cost.lost) (instruction_rows asked.now entries.now)
        ≡ total (tasks_of entries.now) (total_of measure.Loads group.Squashed) }
    ensures found { column_sum (λ cost. cost.found) (instruction_rows asked.now entries.now)
        ≡ (counts_of entries.now).violation }
    ensures suffered { EachIsRead asked.now entries.now
        → column_sum (λ cost. cost.suffered) (instruction_rows asked.now entries.now)
        ≡ (counts_of entries.now).violation }
{}

/// The violations suffered of a legal history add up to its violations.
pub fn legal_violations_add_up()
    ensures { (img : Image) → IsImage img → (config : Config) → (es : List Entry) → LegalHistory img config es
        → column_sum (λ cost. cost.suffered) (instruction_rows (addresses img config es) es)
        ≡ (counts_of es).violation }
{}
