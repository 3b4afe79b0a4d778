// What is looked for among the observations.

ghost use Rattle.std.specs.Prelude.{◌≡◌, ◌↔◌, ◌++◌, IfOk, IfSome, IsTrue, OnOk, Some, codes, decimal};
ghost use Rattle.svc_observations.specs.Sought.{Matches, sought_text, task_sought, word_sought};

use crate::rows::name_of;
use std::alloc::{AllocError, Global};
use svc_explore_laws::{Happening, Observation};
use svc_text::Piece;

/// What is looked for: all that happened so, to this task and of this word where they are given.
#[derive(Clone, Copy)]
pub struct Sought {
    /// What happened.
    pub what: Happening,
    /// The number of the task; without one, any.
    pub task: Option<u64>,
    /// The word; without one, any or none.
    pub word: Option<u32>,
}

const HAPPENINGS: [Happening; 8] = [
    Happening::Begin,
    Happening::Load,
    Happening::Store,
    Happening::Output,
    Happening::Trap,
    Happening::Replace,
    Happening::Commit,
    Happening::Squash,
];

fn happening_named(name: &str) -> Option<Happening> {
    for what in HAPPENINGS {
        if name_of(what) == name {
            return Some(what);
        }
    }
    None
}

// What a text looks for, if it is a text of that.
fn parts_of(text: &str) -> Option<Sought> {
    let (name, numbers) = text.split_once(',').unwrap_or((text, ""));
    let (task, word) = numbers.split_once(',').unwrap_or((numbers, ""));
    Some(Sought {
        what: happening_named(name)?,
        task: task.parse::<u64>().ok(),
        word: word.parse::<u32>().ok(),
    })
}

fn put_task_sought(
    text: &mut Vec<u8>,
    task: Option<u64>,
    word: Option<u32>,
) -> Result<(), AllocError>
    ensures { OnOk result (text.new.items ≡ text.old.items ++ task_sought task word) }
{
    match (task, word) {
        (None, None) => Ok(()),
        (None, Some(_)) => ",".put(text),
        (Some(task), _) => put_number(text, task),
    }
}

fn put_word_sought(text: &mut Vec<u8>, word: Option<u32>) -> Result<(), AllocError>
    ensures { OnOk result (text.new.items ≡ text.old.items ++ word_sought word) }
{
    match word {
        None => Ok(()),
        Some(word) => put_number(text, u64::from(word)),
    }
}

fn put_number(text: &mut Vec<u8>, number: u64) -> Result<(), AllocError>
    ensures { OnOk result (text.new.items ≡ text.old.items ++ (codes "," ++ decimal number)) }
{
    ",".put(text)?;
    number.put(text)
}

fn put_sought(text: &mut Vec<u8>, sought: Sought) -> Result<(), AllocError>
    ensures { OnOk result (text.new.items ≡ text.old.items ++ sought_text sought) }
{
    name_of(sought.what).put(text)?;
    put_task_sought(text, sought.task, sought.word)?;
    put_word_sought(text, sought.word)
}

impl Sought {
    /// What a text looks for: `WHAT`, `WHAT,TASK` or `WHAT,TASK,WORD`, where an empty `TASK` is any. None if it is none
    /// of these, or if a number has a sign or leading zeros.
    ///
    /// Errors: [`AllocError`], if memory runs out.
    pub fn read(alloc: Global, text: &str) -> Result<Option<Sought>, AllocError>
        ensures { IfOk result (λ given. IfSome given (λ sought. sought_text sought ≡ text.now)) }
    {
        let Some(sought) = parts_of(text) else {
            return Ok(None);
        };
        let mut told = Vec::new(alloc);
        put_sought(&mut told, sought)?;
        if told.as_slice() == text.as_bytes() {
            Ok(Some(sought))
        } else {
            Ok(None)
        }
    }

    /// Whether the observation is one of those that are looked for.
    pub fn matches(self, what: &Observation) -> bool
        ensures { IsTrue result ↔ Matches self what.now }
    {
        self.what == what.what && is_task(self.task, what.task) && is_word(self.word, what.word)
    }
}

fn is_task(sought: Option<u64>, task: u64) -> bool
    ensures { IsTrue result ↔ IfSome sought (λ it. task ≡ it) }
{
    match sought {
        Some(sought) => task == sought,
        None => true,
    }
}

fn is_word(sought: Option<u32>, word: Option<u32>) -> bool
    ensures { IsTrue result ↔ IfSome sought (λ it. word ≡ Some it) }
{
    match (sought, word) {
        (Some(sought), Some(word)) => word == sought,
        (Some(_), None) => false,
        (None, _) => true,
    }
}
