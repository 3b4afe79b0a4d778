// What the bars and marks of a picture mean, in a sentence each.

ghost use Rattle.std.specs.Prelude.{◌≡◌, ◌++◌, OnOk};
ghost use Rattle.svc_text.specs.Parts.{digits_of};
ghost use Rattle.svc_sheet.specs.Sentences.{actor, cause_of, commit_sentence, early_read, entry_after, fate_sentence};
ghost use Rattle.svc_sheet.specs.Sentences.{handed_sentence, load_sentence, number_after, of_unit, output_sentence};
ghost use Rattle.svc_sheet.specs.Sentences.{read_at, replace_sentence, sentence_of_kind, squash_sentence};
ghost use Rattle.svc_sheet.specs.Sentences.{store_sentence, stored_at, supply, supply_after, word_between};

use std::alloc::AllocError;
use svc_base::{UnitId, WordAddr};
use svc_history_laws::ServedKind;
use svc_marks::{Mark, MarkKind, Spot};
use svc_task_runs::{Fate, TaskRun};
use svc_text::{Piece, put};

// Why an entry squashed a task.
fn cause_of(fate: Fate) -> &'static str
    ensures { result.now ≡ cause_of fate }
{
    match fate {
        Fate::Violation => {
            " squashed it: an earlier task stored to a word that had been read too early"
        }
        Fate::Guess => {
            " squashed it: a task before it went on elsewhere than guessed, or ended the program"
        }
        Fate::Cancel => " squashed it: it, or a task before it, was cancelled",
        Fate::Active | Fate::Committed => " committed it",
    }
}

/// Adds what became of a task, and by which entry.
pub(crate) fn put_fate(text: &mut Vec<u8>, task: &TaskRun) -> Result<(), AllocError>
    ensures { OnOk result (text.new.items ≡ text.old.items ++ fate_sentence task.now task.now.last) }
{
    match task.last {
        None => "nothing has decided yet what becomes of it".put(text),
        Some(last) => {
            put!(text; "entry ", last, cause_of(task.fate));
            Ok(())
        }
    }
}

// Adds who acts: the unit, with its task if one runs there.
fn put_actor(text: &mut Vec<u8>, unit: UnitId, task: Option<TaskRun>) -> Result<(), AllocError>
    ensures { OnOk result (text.new.items ≡ text.old.items ++ actor unit.0 task) }
{
    if let Some(task) = task {
        put!(text; "task ", task.number, " on ");
    }
    put!(text; "unit ", unit.0);
    Ok(())
}

// Adds a number, if there is one.
fn put_number(text: &mut Vec<u8>, number: Option<u32>) -> Result<(), AllocError>
    ensures { OnOk result (text.new.items ≡ text.old.items ++ digits_of number) }
{
    match number {
        Some(number) => number.put(text),
        None => Ok(()),
    }
}

// Adds a version, and of which unit it is, if that is told.
fn put_version(text: &mut Vec<u8>, version: &str, unit: Option<UnitId>) -> Result<(), AllocError>
    ensures { OnOk result (text.new.items ≡ text.old.items ++ (version.now ++ of_unit unit)) }
{
    put!(text; version);
    if let Some(unit) = unit {
        put!(text; " of unit ", unit.0);
    }
    Ok(())
}

// Adds what a read was given.
fn put_supply(
    text: &mut Vec<u8>,
    served: ServedKind,
    from: Option<UnitId>,
) -> Result<(), AllocError>
    ensures { OnOk result (text.new.items ≡ text.old.items ++ supply served from) }
{
    match served {
        ServedKind::Hit => "its own line".put(text),
        ServedKind::Reuse => "its own committed line".put(text),
        ServedKind::Version => put_version(text, "the version", from),
        ServedKind::Spill => put_version(text, "the spilled version", from),
        ServedKind::Committed => put_version(text, "the committed version", from),
        ServedKind::Memory => "memory".put(text),
    }
}

// Adds the same behind some words, if anything is told.
fn put_supply_after(text: &mut Vec<u8>, before: &str, mark: &Mark) -> Result<(), AllocError>
    ensures { OnOk result (text.new.items
        ≡ text.old.items ++ supply_after before.now mark.now.entry.served mark.now.entry.from) }
{
    match mark.entry.served {
        Some(served) => {
            put!(text; before);
            put_supply(text, served, mark.entry.from)
        }
        None => Ok(()),
    }
}

// Adds a word between some words, if there is one.
fn put_word_between<'a>(
    text: &mut Vec<u8>,
    before: &'a str,
    after: &'a str,
    word: Option<WordAddr>,
) -> Result<(), AllocError>
    ensures { OnOk result (text.new.items ≡ text.old.items ++ word_between before.now after.now word) }
{
    if let Some(word) = word {
        put!(text; before, word.0, after);
    }
    Ok(())
}

// Adds an entry behind some words, if there is one.
fn put_entry_after(text: &mut Vec<u8>, before: &str, place: Option<u64>) -> Result<(), AllocError>
    ensures { OnOk result (text.new.items ≡ text.old.items ++ entry_after before.now place) }
{
    if let Some(place) = place {
        put!(text; before, place);
    }
    Ok(())
}

// Adds where the version was stored that a read was given.
fn put_stored_at(text: &mut Vec<u8>, other: Option<Spot>) -> Result<(), AllocError>
    ensures { OnOk result (text.new.items ≡ text.old.items ++ stored_at other) }
{
    let Some(spot) = other else {
        return Ok(());
    };
    put!(text; " of unit ", spot.lane.0);
    put_entry_after(text, ", stored by entry ", spot.place)
}

// Adds where a word was read too early.
#[tactic(auto, unfolding(crate::specs::Sentences::read_at))]
fn put_read_at(text: &mut Vec<u8>, other: Option<Spot>) -> Result<(), AllocError>
    ensures { OnOk result (text.new.items ≡ text.old.items ++ read_at other) }
{
    match other {
        Some(spot) => put_entry_after(text, " in entry ", spot.place),
        None => Ok(()),
    }
}

// Adds the sentence of a load.
#[tactic(auto, unfolding(crate::specs::Sentences::load_sentence))]
fn put_load(text: &mut Vec<u8>, mark: &Mark) -> Result<(), AllocError>
    ensures { OnOk result (text.new.items ≡ text.old.items ++ load_sentence mark.now) }
{
    put_actor(text, mark.entry.unit, mark.task)?;
    put!(text; " loads ");
    put_word_between(text, "word ", " as ", mark.entry.addr)?;
    put_number(text, mark.entry.word)?;
    put_supply_after(text, ", from ", mark)
}

// Adds that of a store.
#[tactic(auto, unfolding(crate::specs::Sentences::store_sentence))]
fn put_store(text: &mut Vec<u8>, mark: &Mark) -> Result<(), AllocError>
    ensures { OnOk result (text.new.items ≡ text.old.items ++ store_sentence mark.now) }
{
    put_actor(text, mark.entry.unit, mark.task)?;
    put!(text; " stores ");
    put_word_between(text, "word ", " as ", mark.entry.addr)?;
    put_number(text, mark.entry.word)?;
    put_supply_after(text, ", its other bytes from ", mark)
}

// Adds that of an output word.
#[tactic(auto, unfolding(crate::specs::Sentences::output_sentence))]
fn put_output(text: &mut Vec<u8>, mark: &Mark) -> Result<(), AllocError>
    ensures { OnOk result (text.new.items ≡ text.old.items ++ output_sentence mark.now) }
{
    put_actor(text, mark.entry.unit, mark.task)?;
    put!(text; " puts out ");
    put_number(text, mark.entry.word)
}

// Adds that of a replacement.
#[tactic(auto, unfolding(crate::specs::Sentences::replace_sentence))]
fn put_replace(text: &mut Vec<u8>, mark: &Mark) -> Result<(), AllocError>
    ensures { OnOk result (text.new.items ≡ text.old.items ++ replace_sentence mark.now) }
{
    put!(text; "unit ", mark.entry.unit.0, " lets a line go");
    put_word_between(text, ", of word ", "", mark.entry.addr)
}

// Adds that of a commit.
#[tactic(auto, unfolding(crate::specs::Sentences::commit_sentence))]
fn put_commit(text: &mut Vec<u8>, mark: &Mark) -> Result<(), AllocError>
    ensures { OnOk result (text.new.items ≡ text.old.items ++ commit_sentence mark.now) }
{
    put!(text; "task ");
    put_number(text, mark.entry.word)?;
    put!(text; " is committed, as unit ", mark.entry.unit.0, " asked");
    Ok(())
}

// Adds that of a version that goes to a reader.
#[tactic(auto, unfolding(crate::specs::Sentences::handed_sentence))]
fn put_handed(text: &mut Vec<u8>, mark: &Mark) -> Result<(), AllocError>
    ensures { OnOk result (text.new.items ≡ text.old.items ++ handed_sentence mark.now) }
{
    put_actor(text, mark.entry.unit, mark.task)?;
    put!(text; " reads ");
    put_word_between(text, "word ", " in ", mark.entry.addr)?;
    put!(text; "the version");
    put_stored_at(text, mark.other)
}

// Adds which read a store finds too early.
#[tactic(auto, unfolding(crate::specs::Sentences::early_read))]
fn put_early_read(text: &mut Vec<u8>, mark: &Mark) -> Result<(), AllocError>
    ensures { OnOk result (text.new.items ≡ text.old.items ++ early_read mark.now) }
{
    put!(text; "which task ");
    put_number(text, mark.entry.first)?;
    put!(text; " read too early");
    put_read_at(text, mark.other)
}

// Adds a number behind some words.
#[tactic(auto, unfolding(crate::specs::Sentences::number_after))]
fn put_number_after(text: &mut Vec<u8>, before: &str, number: Option<u32>) -> Result<(), AllocError>
    ensures { OnOk result (text.new.items ≡ text.old.items ++ number_after before.now number) }
{
    put!(text; before);
    put_number(text, number)
}

// Adds the sentence of such a store.
#[tactic(auto, unfolding(crate::specs::Sentences::squash_sentence))]
fn put_squash(text: &mut Vec<u8>, mark: &Mark) -> Result<(), AllocError>
    ensures { OnOk result (text.new.items ≡ text.old.items ++ squash_sentence mark.now) }
{
    put_actor(text, mark.entry.unit, mark.task)?;
    put!(text; " stores ");
    put_word_between(text, "word ", ", ", mark.entry.addr)?;
    put_early_read(text, mark)?;
    put_number_after(text, "; tasks squashed: ", mark.entry.squashed)
}

/// Adds what a mark means.
pub(crate) fn put_sentence(text: &mut Vec<u8>, mark: &Mark) -> Result<(), AllocError>
    ensures { OnOk result (text.new.items ≡ text.old.items ++ sentence_of_kind mark.now mark.now.kind) }
{
    match mark.kind {
        MarkKind::Load => put_load(text, mark),
        MarkKind::Store => put_store(text, mark),
        MarkKind::PutOut => put_output(text, mark),
        MarkKind::Replace => put_replace(text, mark),
        MarkKind::Commit => put_commit(text, mark),
        MarkKind::Handed => put_handed(text, mark),
        MarkKind::Squash => put_squash(text, mark),
    }
}
