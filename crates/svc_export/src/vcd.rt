// A history as a dump of value changes.

ghost use Rattle.std.specs.Prelude.{◌≡◌, ◌<◌, ◌≤◌, ◌+◌, ◌++◌, None, OnOk, cond, drop, flat_map, length};
ghost use Rattle.std.specs.List.{range_with_len};
ghost use Rattle.svc_base.specs.declared.config.TheConstants.{MAX_EVENTS};
ghost use Rattle.svc_task_runs.specs.Bounds.{AreFew};
ghost use Rattle.svc_task_runs.specs.Runs.{no_runs, step};
ghost use Rattle.svc_task_runs.specs.Seen.{seen};
ghost use Rattle.svc_export.specs.Changes.{idle, unit_variables, unknown, word_variable};
ghost use Rattle.svc_export.specs.Vcd.{beginning, changes_from, decided, decision, declarations, entry_changes};
ghost use Rattle.svc_export.specs.Vcd.{first_values, is_store_of, is_word, left_by, stored_in, value_change, vcd_of};
ghost use Rattle.svc_export.specs.Vcd.{word_change, words_after};

use crate::changes::{
    put_busy, put_dump_opening, put_dump_start, put_idle, put_time, put_unit_variables,
    put_unknown, put_value, put_word_variable,
};
use std::alloc::{AllocError, Global};
use svc_base::{UnitId, WordAddr};
use svc_history_laws::{Entry, Kind};
use svc_task_runs::{Fate, TaskRun, TaskRuns, stores_in};
use svc_text::Piece;

// There is a word, and it is this one.
fn is_word(addr: Option<WordAddr>, word: u32) -> bool
    ensures { result ≡ is_word addr word }
{
    match addr {
        Some(addr) => addr.0 == word,
        None => false,
    }
}

// The entry is a store of the word by the unit.
fn is_store_of(unit: UnitId, word: u32, entry: &Entry) -> bool
    ensures { result ≡ is_store_of unit word entry.now }
{
    stores_in(entry) && entry.unit.0 == unit.0 && is_word(entry.addr, word)
}

// The value that an entry leaves in the word for the unit, after the one before.
fn value_after(unit: UnitId, word: u32, before: Option<u32>, entry: &Entry) -> Option<u32>
    ensures { result ≡ cond (is_store_of unit word entry.now) entry.now.word before }
{
    if is_store_of(unit, word, entry) {
        entry.word
    } else {
        before
    }
}

// The value that the last store of the word by the unit left, if there is one.
fn stored_in(unit: UnitId, word: u32, entries: &[Entry]) -> Option<u32>
    ensures { result ≡ stored_in unit word None entries.now }
{
    let mut value = None;
    for entry in entries {
        value = value_after(unit, word, value, entry);
    }
    value
}

// The value that a task left in a word up to an entry.
#[tactic(auto, using(crate::proofs::Texts::no_store_between))]
fn left_by(entries: &[Entry], at: u64, task: &TaskRun, word: u32) -> Option<u32>
    requires inside { at ≤ length entries.now }
    ensures { result ≡ left_by entries.now at task.now word }
{
    if at < task.first {
        return None;
    }
    stored_in(task.unit, word, &entries[task.first as usize..at as usize])
}

// Adds the committed value of a word, if there is a new one.
fn put_value_change(word: u32, value: Option<u32>, text: &mut Vec<u8>) -> Result<(), AllocError>
    ensures { OnOk result (text.new.items ≡ text.old.items ++ value_change word value) }
{
    match value {
        Some(value) => put_value(text, "w", u64::from(word), u64::from(value)),
        None => Ok(()),
    }
}

// Adds what a committed task left in words.
fn put_left(
    entries: &[Entry],
    words: &[u32],
    at: u64,
    task: &TaskRun,
    text: &mut Vec<u8>,
) -> Result<(), AllocError>
    requires inside { at ≤ length entries.now }
    ensures { OnOk result (text.new.items
        ≡ text.old.items ++ flat_map (word_change entries.now at task.now) words.now) }
{
    for word in words {
        put_value_change(*word, left_by(entries, at, task, *word), text)?;
    }
    Ok(())
}

// Adds what a task left in words, if it is committed.
fn put_words_after(
    entries: &[Entry],
    words: &[u32],
    at: u64,
    task: &TaskRun,
    text: &mut Vec<u8>,
) -> Result<(), AllocError>
    requires inside { at ≤ length entries.now }
    ensures { OnOk result (text.new.items
        ≡ text.old.items ++ words_after entries.now words.now at task.now task.now.fate) }
{
    match task.fate {
        Fate::Committed => put_left(entries, words, at, task, text),
        _ => Ok(()),
    }
}

// Adds what the end of a task changes.
#[tactic(auto, unfolding(crate::specs::Vcd::decision))]
fn put_decision(
    entries: &[Entry],
    words: &[u32],
    at: u64,
    task: &TaskRun,
    text: &mut Vec<u8>,
) -> Result<(), AllocError>
    requires inside { at ≤ length entries.now }
    ensures { OnOk result (text.new.items ≡ text.old.items ++ decision entries.now words.now at task.now) }
{
    put_idle(text, u64::from(task.unit.0))?;
    put_words_after(entries, words, at, task, text)?;
    Ok(())
}

// Adds what the ends of tasks change.
fn put_decisions(
    entries: &[Entry],
    words: &[u32],
    at: u64,
    tasks: &[TaskRun],
    text: &mut Vec<u8>,
) -> Result<(), AllocError>
    requires inside { at ≤ length entries.now }
    ensures { OnOk result (text.new.items
        ≡ text.old.items ++ flat_map (decision entries.now words.now at) tasks.now) }
{
    for task in tasks {
        put_decision(entries, words, at, task, text)?;
    }
    Ok(())
}

// Adds the task that an assignment begins.
fn put_beginning(
    runs: &TaskRuns,
    at: u64,
    entry: &Entry,
    text: &mut Vec<u8>,
) -> Result<(), AllocError>
    requires few { AreFew at (seen runs.now) }
    requires inside { at < MAX_EVENTS }
    ensures { OnOk result (text.new.items
        ≡ text.old.items ++ beginning entry.now (seen runs.now) entry.now.kind) }
{
    match entry.kind {
        Kind::Assign => {
            let task = runs.commits + runs.active.len() as u64;
            let address = u64::from(entry.word.unwrap_or(0));
            put_busy(text, u64::from(entry.unit.0), task, address)
        }
        _ => Ok(()),
    }
}

// The tasks from an index on.
fn tasks_from(tasks: &[TaskRun], from: usize) -> &[TaskRun]
    ensures { result.now ≡ drop from tasks.now }
{
    if from < tasks.len() {
        &tasks[from..]
    } else {
        &[]
    }
}

// Takes in an entry, and adds what it decides.
fn put_decided(
    entries: &[Entry],
    words: &[u32],
    runs: &mut TaskRuns,
    at: u64,
    entry: &Entry,
    text: &mut Vec<u8>,
) -> Result<(), AllocError>
    requires few { AreFew at (seen runs.old) }
    requires inside { at < MAX_EVENTS }
    requires there { at ≤ length entries.now }
    ensures text { OnOk result (text.new.items
        ≡ text.old.items ++ flat_map (decision entries.now words.now at) (decided at entry.now (seen runs.old))) }
    ensures runs { OnOk result (seen runs.new ≡ step at entry.now (seen runs.old)) }
    ensures few { OnOk result (AreFew (at + 1) (seen runs.new)) }
{
    let before = runs.settled.len();
    runs.take_in(at, entry)?;
    let decided = tasks_from(&runs.settled, before);
    put_decisions(entries, words, at, decided, text)?;
    Ok(())
}

// Takes in an entry, and adds what it changes.
#[tactic(auto, unfolding(crate::specs::Vcd::entry_changes))]
fn put_entry(
    entries: &[Entry],
    words: &[u32],
    runs: &mut TaskRuns,
    at: u64,
    entry: &Entry,
    text: &mut Vec<u8>,
) -> Result<(), AllocError>
    requires few { AreFew at (seen runs.old) }
    requires inside { at < MAX_EVENTS }
    requires there { at ≤ length entries.now }
    ensures text { OnOk result (text.new.items
        ≡ text.old.items ++ entry_changes entries.now words.now at entry.now (seen runs.old)) }
    ensures runs { OnOk result (seen runs.new ≡ step at entry.now (seen runs.old)) }
    ensures few { OnOk result (AreFew (at + 1) (seen runs.new)) }
{
    put_beginning(runs, at, entry, text)?;
    put_decided(entries, words, runs, at, entry, text)?;
    put_time(text, at + 1)?;
    Ok(())
}

// Adds what each entry changes.
fn put_changes(
    alloc: Global,
    entries: &[Entry],
    words: &[u32],
    text: &mut Vec<u8>,
) -> Result<(), AllocError>
    requires few { length entries.now ≤ MAX_EVENTS }
    ensures { OnOk result (text.new.items
        ≡ text.old.items ++ changes_from entries.now words.now no_runs 0 entries.now) }
{
    let mut runs = TaskRuns::none(alloc);
    for index in 0..entries.len() {
        put_entry(
            entries,
            words,
            &mut runs,
            index as u64,
            &entries[index],
            text,
        )?;
    }
    Ok(())
}

// Adds the variables of units.
fn put_units(units: u32, text: &mut Vec<u8>) -> Result<(), AllocError>
    ensures { OnOk result (text.new.items
        ≡ text.old.items ++ flat_map unit_variables (range_with_len 0 units)) }
{
    for unit in 0..units {
        put_unit_variables(text, u64::from(unit))?;
    }
    Ok(())
}

// Adds the variables of words.
fn put_words(words: &[u32], text: &mut Vec<u8>) -> Result<(), AllocError>
    ensures { OnOk result (text.new.items ≡ text.old.items ++ flat_map word_variable words.now) }
{
    for word in words {
        put_word_variable(text, u64::from(*word))?;
    }
    Ok(())
}

// Adds all variables.
#[tactic(auto, unfolding(crate::specs::Vcd::declarations))]
fn put_declarations(units: u32, words: &[u32], text: &mut Vec<u8>) -> Result<(), AllocError>
    ensures { OnOk result (text.new.items ≡ text.old.items ++ declarations units words.now) }
{
    put_dump_opening(text)?;
    put_units(units, text)?;
    put_words(words, text)?;
    put_dump_start(text)?;
    Ok(())
}

// Adds that no unit has a task.
fn put_all_idle(units: u32, text: &mut Vec<u8>) -> Result<(), AllocError>
    ensures { OnOk result (text.new.items ≡ text.old.items ++ flat_map idle (range_with_len 0 units)) }
{
    for unit in 0..units {
        put_idle(text, u64::from(unit))?;
    }
    Ok(())
}

// Adds that no word's value is known.
fn put_all_unknown(words: &[u32], text: &mut Vec<u8>) -> Result<(), AllocError>
    ensures { OnOk result (text.new.items ≡ text.old.items ++ flat_map unknown words.now) }
{
    for word in words {
        put_unknown(text, u64::from(*word))?;
    }
    Ok(())
}

// Adds the values before any entry.
#[tactic(auto, unfolding(crate::specs::Vcd::first_values))]
fn put_first_values(units: u32, words: &[u32], text: &mut Vec<u8>) -> Result<(), AllocError>
    ensures { OnOk result (text.new.items ≡ text.old.items ++ first_values units words.now) }
{
    put_all_idle(units, text)?;
    put_all_unknown(words, text)?;
    "$end\n".put(text)?;
    Ok(())
}

/// Adds the dump of a history.
#[tactic(auto, unfolding(crate::specs::Vcd::vcd_of))]
pub(crate) fn put_vcd(
    alloc: Global,
    entries: &[Entry],
    units: u32,
    words: &[u32],
    text: &mut Vec<u8>,
) -> Result<(), AllocError>
    requires few { length entries.now ≤ MAX_EVENTS }
    ensures { OnOk result (text.new.items ≡ text.old.items ++ vcd_of entries.now units words.now) }
{
    put_declarations(units, words, text)?;
    put_first_values(units, words, text)?;
    put_changes(alloc, entries, words, text)?;
    Ok(())
}
