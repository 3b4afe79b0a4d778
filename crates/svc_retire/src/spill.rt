//! The spill table: the head's versions whose lines were replaced.

ghost use Rattle.std.specs.Prelude.{◌≡◌, ◌<◌, ℕ, Option, Some, None, All, IfOk, length, get_or, set, replicate};
ghost use Rattle.std.specs.Prelude.{unwrap_or};
ghost use Rattle.svc_retire.specs.Spills.{is_listed, spilled_version};
ghost use Rattle.svc_retire.specs.declared.spill.SpillPlace.TheVariants.{Unlisted};

use crate::memory::store;
use std::alloc::{AllocError, Global};
use std::marker::Model;
use svc_base::{OpenError, WordAddr};

/// What the table holds for a word.
#[derive(Clone, Copy)]
enum SpillPlace {
    /// No version of the word was spilled since the last commit.
    Unlisted,
    /// One was, and then the head stored the word again.
    Emptied,
    /// The version of the head, whose line was replaced.
    Spilled(u32),
}

impl SpillPlace {
    // The word is in the list of words.
    fn is_listed(&self) -> bool
        ensures { result ≡ is_listed self.now }
    {
        match self {
            SpillPlace::Unlisted => false,
            SpillPlace::Emptied => true,
            SpillPlace::Spilled(_) => true,
        }
    }

    // The spilled version.
    fn version(&self) -> Option<u32>
        ensures { result ≡ spilled_version self.now }
    {
        match self {
            SpillPlace::Unlisted => None,
            SpillPlace::Emptied => None,
            SpillPlace::Spilled(value) => Some(*value),
        }
    }

    // The place after its word was stored again.
    fn without_version(&self) -> SpillPlace
        ensures listed { is_listed result ≡ is_listed self.now }
        ensures empty { spilled_version result ≡ None }
    {
        match self {
            SpillPlace::Unlisted => SpillPlace::Unlisted,
            SpillPlace::Emptied => SpillPlace::Emptied,
            SpillPlace::Spilled(_) => SpillPlace::Emptied,
        }
    }
}

/// The spill table: for each word of the memory, the head's version of it whose line was replaced, if
/// any. A new head finds it empty.
///
/// The words with a version are also kept in a list, so that the cost of a commit depends on what
/// was spilled since the last one, not on the memory's size. Both are allocated at opening.
///
/// Contracts see the list of the versions by word.
#[derive(Drop)]
pub struct Spill {
    places: Vec<SpillPlace>,
    words: Vec<u32>,
    count: usize,
}

impl Model for Spill {
    ghost use Rattle.std.specs.Prelude.{List, Option, ℕ, map};
    ghost use Rattle.svc_retire.specs.Spills.{spilled_version, IsListed};

    ghost Value = { List (Option ℕ) };

    ghost view = { λ table. map spilled_version table.places.items };

    ghost invariant = { λ table. IsListed table.places.items table.words.items table.count };
}

// A number of places without a version.
fn empty_places(alloc: Global, words: usize) -> Result<Vec<SpillPlace>, AllocError>
    ensures { IfOk result (λ places. places.items ≡ replicate words Unlisted) }
{
    vec![in alloc; SpillPlace::Unlisted; words]
}

// A number of places for words.
fn empty_words(alloc: Global, words: usize) -> Result<Vec<u32>, AllocError>
    ensures { IfOk result (λ list. length list.items ≡ words) }
{
    vec![in alloc; 0; words]
}

impl Spill {
    /// A table without versions, for a memory of that many words. It allocates all its memory here.
    ///
    /// Errors: [`OpenError::Memory`].
    pub fn open(alloc: Global, words: usize) -> Result<Spill, OpenError>
        ensures { IfOk result (λ table. table ≡ replicate words None) }
    {
        let Ok(places) = empty_places(alloc, words) else {
            return Err(OpenError::Memory);
        };
        let Ok(words) = empty_words(alloc, words) else {
            return Err(OpenError::Memory);
        };
        Ok(Spill {
            places,
            words,
            count: 0,
        })
    }

    /// It becomes equal to another table, for a memory of as many words. It takes no memory.
    pub fn copy_from(&mut self, other: &Spill)
        requires { length self.old ≡ length other.now }
        ensures { self.new ≡ other.now }
    {
        self.places.copy_from_slice(&other.places);
        self.words.copy_from_slice(&other.words);
        self.count = other.count;
    }

    /// How many words the memory has.
    pub fn len(&self) -> usize
        ensures { result ≡ length self.now }
    {
        self.places.len()
    }

    /// The spilled version of the word.
    pub fn get(&self, word: WordAddr) -> Option<u32>
        requires { word.0 < length self.now }
        ensures { result ≡ get_or self.now word.0 None }
    {
        self.places[word.0 as usize].version()
    }

    /// The head's version of the word is spilled.
    pub fn put(&mut self, word: WordAddr, value: u32)
        requires { word.0 < length self.old }
        ensures { self.new ≡ set self.old word.0 (Some value) }
    {
        let place = word.0 as usize;
        if !self.places[place].is_listed() {
            self.words[self.count] = word.0;
            self.count += 1;
        }
        self.places[place] = SpillPlace::Spilled(value);
    }

    /// The head stored the word again: the spilled version is no longer its version.
    pub fn clear(&mut self, word: WordAddr)
        requires { word.0 < length self.old }
        ensures { self.new ≡ set self.old word.0 None }
    {
        let place = word.0 as usize;
        self.places[place] = self.places[place].without_version();
    }

    /// The head is committed: the spilled versions go to the backing memory, and the table is empty.
    pub fn write_back(&mut self, backing: &mut [u32])
        requires { length backing.old ≡ length self.old }
        ensures memory { (a : ℕ) → get_or backing.new a 0 ≡ unwrap_or (get_or self.old a None)
            (get_or backing.old a 0) }
        ensures empty { self.new ≡ replicate (length self.old) None }
    {
        for k in 0..self.count {
            let place = self.words[k] as usize;
            let version = self.places[place].version();
            store(backing, place, version);
            self.places[place] = SpillPlace::Unlisted;
        }
        self.count = 0;
    }
}
