// Where the victim of a violation first read the word.

ghost use Rattle.std.specs.Prelude.{◌≡◌, ◌≤◌, length, position};
ghost use Rattle.svc_instruction_profile.specs.Charges.{address_of, between, is_read, is_same_word, reader_at};
ghost use Rattle.svc_instruction_profile.specs.Charges.{reader_in, reader_of, victim_of};
ghost use Rattle.svc_task_runs.specs.Runs.{is_number, is_submit_of};

use svc_base::WordAddr;
use svc_history_laws::{Entry, Kind};
use svc_task_runs::TaskRun;

/// The address at a place.
pub(crate) fn address_of(asked: &[Option<u32>], place: Option<usize>) -> Option<u32>
    ensures { result ≡ address_of asked.now place }
{
    let place = place?;
    match asked.get(place) {
        Some(address) => *address,
        None => None,
    }
}

/// What stands from an index on, before another one.
pub(crate) fn between<T>(first: u64, last: usize, list: &[T]) -> &[T]
    requires { last ≤ length list.now }
    ensures { result.now ≡ between first last list.now }
{
    let start = first.min(last as u64) as usize;
    &list[start..last]
}

/// The entry is a submit of the task.
pub(crate) fn is_submit_of(entry: &Entry, run: &TaskRun) -> bool
    ensures { result ≡ is_submit_of entry.now run.now }
{
    match entry.kind {
        Kind::Submit => entry.unit.0 == run.unit.0,
        _ => false,
    }
}

// Both name the same word.
fn is_same_word(one: Option<WordAddr>, other: Option<WordAddr>) -> bool
    ensures { result ≡ is_same_word one other }
{
    match (one, other) {
        (Some(one), Some(other)) => one.0 == other.0,
        _ => false,
    }
}

// The entry is a submit of the task, and read the word.
fn is_read(run: &TaskRun, word: Option<WordAddr>, entry: &Entry) -> bool
    ensures { result ≡ is_read run.now word entry.now }
{
    is_submit_of(entry, run) && entry.served.is_some() && is_same_word(entry.addr, word)
}

// The first of the entries that is a submit of the task and read the word.
fn first_read(run: &TaskRun, word: Option<WordAddr>, entries: &[Entry]) -> Option<usize>
    ensures { result ≡ position (is_read run.now word) entries.now }
{
    entries.iter().position(|entry| is_read(run, word, entry))
}

// The address at which a task first read a word, before the entry at an index.
fn reader_in(
    asked: &[Option<u32>],
    entries: &[Entry],
    at: usize,
    word: Option<WordAddr>,
    run: &TaskRun,
) -> Option<u32>
    requires asked { at ≤ length asked.now }
    requires inside { at ≤ length entries.now }
    ensures { result ≡ reader_in asked.now entries.now at word run.now }
{
    let place = first_read(run, word, between(run.first, at, entries));
    address_of(between(run.first, at, asked), place)
}

// There is a number, and it is that of the task.
fn is_number(told: Option<u32>, run: &TaskRun) -> bool
    ensures { result ≡ is_number told run.now.number }
{
    match told {
        Some(told) => u64::from(told) == run.number,
        None => false,
    }
}

// The place of the active task that an entry squashes first.
fn victim_place(entry: &Entry, active: &[TaskRun]) -> Option<usize>
    ensures { result ≡ position (λ run. is_number entry.now.first run.number) active.now }
{
    active.iter().position(|run| is_number(entry.first, run))
}

/// Where the victim of the entry at an index first read its word.
pub(crate) fn reader_of(
    asked: &[Option<u32>],
    entries: &[Entry],
    at: usize,
    entry: &Entry,
    active: &[TaskRun],
) -> Option<u32>
    requires asked { at ≤ length asked.now }
    requires inside { at ≤ length entries.now }
    ensures { result ≡ reader_of asked.now entries.now at entry.now active.now }
{
    let place = victim_place(entry, active)?;
    match active.get(place) {
        Some(run) => reader_in(asked, entries, at, entry.addr, run),
        None => None,
    }
}
