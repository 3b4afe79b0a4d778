// What is counted for a word, and the word for which a task was squashed.

ghost use Rattle.std.specs.Prelude.{◌≡◌};
ghost use Rattle.svc_profile.specs.Words.{cut_word, word_at};

use crate::counts::Counts;
use svc_base::WordAddr;
use svc_history_laws::Entry;
use svc_task_runs::{Fate, TaskRun};

/// What is counted for a word.
#[derive(Clone, Copy)]
pub(crate) struct WordShare {
    /// The word.
    pub(crate) word: u32,
    /// How much of each count it is.
    pub(crate) counts: Counts,
}

// The word that the entry at this index names.
fn word_at(entries: &[Entry], at: Option<u64>) -> Option<WordAddr>
    ensures { result ≡ word_at entries.now at }
{
    let Some(at) = at else {
        return None;
    };
    match entries.get(at as usize) {
        Some(entry) => entry.addr,
        None => None,
    }
}

/// The word for which a task was squashed.
pub(crate) fn cut_word(entries: &[Entry], run: &TaskRun) -> Option<WordAddr>
    ensures { result ≡ cut_word entries.now run.now.fate run.now.last }
{
    match run.fate {
        Fate::Violation => word_at(entries, run.last),
        Fate::Active | Fate::Committed | Fate::Guess | Fate::Cancel => None,
    }
}
