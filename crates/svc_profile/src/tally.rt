// Counts by word.

ghost use Rattle.std.specs.Prelude.{◌≡◌, ◌+◌, ◌<◌, ◌^◌, ◌++◌, [], OnOk, IfOk, IfSome, flat_map};
ghost use Rattle.std.specs.List.{sum_by};
ghost use Rattle.svc_profile.specs.Counts.{Adds, AddsFor, IsTally, all_shares, amount, counts_at};
ghost use Rattle.svc_profile.specs.Counts.{entry_counted, task_counted};
ghost use Rattle.svc_task_runs.specs.Runs.{tasks_of};
ghost use Rattle.svc_profile.specs.Column.{Column};

use crate::counts::Counts;
use crate::shares::{WordShare, cut_word};
use std::alloc::{AllocError, Global};
use std::collections::BTreeMap;
use svc_base::WordAddr;
use svc_history_laws::Entry;
use svc_task_runs::TaskRun;

// Adds a share to what is counted of its word.
fn add(share: WordShare, words: &mut BTreeMap<u32, Counts>) -> Result<(), AllocError>
    requires few { (c : Column) → amount c (counts_at words.old share.word) + amount c share.counts < 2 ^ 64 }
    ensures { OnOk result (Adds share words.old words.new) }
{
    // one search, whether the word has a share yet or not
    let counted = words.entry(share.word)?.or_insert(Counts::none());
    *counted = counted.plus(share.counts);
    Ok(())
}

// Adds what is counted for a word, if there is one.
fn add_for(
    word: Option<WordAddr>,
    counts: Counts,
    words: &mut BTreeMap<u32, Counts>,
) -> Result<(), AllocError>
    requires few { IfSome word (λ w. (c : Column) → amount c (counts_at words.old w.0) + amount c counts < 2 ^ 64) }
    ensures { OnOk result (AddsFor word counts words.old words.new) }
{
    match word {
        Some(word) => add(
            WordShare {
                word: word.0,
                counts,
            },
            words,
        ),
        None => Ok(()),
    }
}

// Adds what the entries count.
fn add_entries(entries: &[Entry], words: &mut BTreeMap<u32, Counts>) -> Result<(), AllocError>
    requires none { IsTally [] words.old }
    requires few { (c : Column) → sum_by (λ s. amount c s.counts) (flat_map entry_counted entries.now) < 2 ^ 64 }
    ensures { OnOk result (IsTally (flat_map entry_counted entries.now) words.new) }
{
    for entry in entries {
        add_for(entry.addr, Counts::of_entry(entry), words)?;
    }
    Ok(())
}

// Adds what the tasks count to what the entries count.
fn add_tasks(
    entries: &[Entry],
    runs: &[TaskRun],
    words: &mut BTreeMap<u32, Counts>,
) -> Result<(), AllocError>
    requires counted { IsTally (flat_map entry_counted entries.now) words.old }
    requires few { (c : Column) → sum_by (λ s. amount c s.counts)
        (flat_map entry_counted entries.now ++ flat_map (task_counted entries.now) runs.now) < 2 ^ 64 }
    ensures { OnOk result (IsTally
        (flat_map entry_counted entries.now ++ flat_map (task_counted entries.now) runs.now) words.new) }
{
    for run in runs {
        add_for(cut_word(entries, run), Counts::of_task(run), words)?;
    }
    Ok(())
}

/// What the entries and the tasks of a history count together for each word.
pub(crate) fn tally(
    alloc: Global,
    entries: &[Entry],
    runs: &[TaskRun],
) -> Result<BTreeMap<u32, Counts>, AllocError>
    requires tasks { runs.now ≡ tasks_of entries.now }
    requires few { (c : Column) → sum_by (λ s. amount c s.counts) (all_shares entries.now) < 2 ^ 64 }
    ensures { IfOk result (λ words. IsTally (all_shares entries.now) words) }
{
    let mut words = BTreeMap::new(alloc);
    add_entries(entries, &mut words)?;
    add_tasks(entries, runs, &mut words)?;
    Ok(words)
}
