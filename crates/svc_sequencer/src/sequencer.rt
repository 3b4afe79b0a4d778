// The sequencer.

ghost use Rattle.std.specs.Prelude.{◌≡◌, ◌<◌, suc, Some, Decides, IfOk, IfErr, length, slice_index, drop, slice_get};
ghost use Rattle.std.specs.Prelude.{unwrap_or};
ghost use Rattle.std.specs.List.Sorted.{IsStrictlyIncreasing};
ghost use Rattle.svc_core_laws.specs.Program.{due_after};
ghost use Rattle.svc_machine_laws.specs.PlainMachine.{cuts_next, entry_for};
ghost use Rattle.svc_machine_laws.specs.Guess.{entry_after};
ghost use Rattle.svc_machine_laws.specs.Guide.{guess_of, guide_opened, guide_assigned, guide_cut, guide_committed};
ghost use Rattle.svc_machine_laws.specs.Guide.{successor_in, with_successor};
ghost use Rattle.svc_sequencer.specs.Tables.{IsIndex};

use arrayvec::ArrayVec;
use std::alloc::{AllocError, Global};
use std::marker::Model;
use svc_base::OpenError;
use svc_base::config::MAX_UNITS;
use svc_core_laws::End;
use svc_image::Image;

/// How many tasks can be active at once: as many as there can be units.
pub const CAPACITY: usize = MAX_UNITS as usize;

/// Keeps the due entry, the successor of the last committed task that began at each entry, and the entries of the
/// active tasks, oldest first, each with its index in the table of entries, so that a guess needs no search.
///
/// Contracts see it as a guide, stated in terms of the plain machine.
#[derive(Drop)]
pub struct Sequencer {
    entries: Vec<u32>,
    successors: Vec<Option<u32>>,
    due: Option<u32>,
    active: ArrayVec<u32, CAPACITY>,
    indices: ArrayVec<usize, CAPACITY>,
}

impl Model for Sequencer {
    ghost use Rattle.svc_machine_laws.specs.Guide.{Guide};
    ghost use Rattle.svc_sequencer.specs.Tables.{AreTables};

    ghost Value = { Guide };

    ghost view = { λ s. record {
      entries = s.entries.items;
      due = s.due;
      successors = s.successors.items;
      active = s.active.items;
    } };

    ghost invariant = { λ s. AreTables (record {
      entries = s.entries.items;
      due = s.due;
      successors = s.successors.items;
      active = s.active.items;
    }) s.indices.items };
}

// The entry at an index; the first follows the last.
fn entry_from(entries: &[u32], i: usize) -> u32
    ensures { result ≡ unwrap_or (slice_get entries.now i) (unwrap_or (slice_get entries.now 0) 0) }
{
    match entries.get(i) {
        Some(&entry) => entry,
        None => entries.first().copied().unwrap_or(0),
    }
}

// The index of an entry in the table, or where it would be.
fn index_of(entries: &[u32], entry: u32) -> usize
    requires { IsStrictlyIncreasing entries.now }
    ensures { IsIndex entries.now entry result }
{
    match entries.binary_search(&entry) {
        Ok(i) => i,
        Err(i) => i,
    }
}

// Whether the entry is at the index.
fn stands_at(entries: &[u32], entry: u32, index: usize) -> bool
    ensures { Decides result ((index < length entries.now) × (slice_index entries.now index ≡ entry)) }
{
    match entries.get(index) {
        Some(&found) => found == entry,
        None => false,
    }
}

// The successor of the entry with this index, otherwise the entry after it in the table.
fn following(entries: &[u32], successors: &[Option<u32>], entry: u32, index: usize) -> u32
    requires rising { IsStrictlyIncreasing entries.now }
    requires as_many { length successors.now ≡ length entries.now }
    requires index { IsIndex entries.now entry index }
    ensures { result ≡ unwrap_or (successor_in entries.now successors.now entry) (entry_after entries.now entry) }
{
    if !stands_at(entries, entry, index) {
        return entry_from(entries, index);
    }
    match successors[index] {
        Some(successor) => successor,
        None => entry_from(entries, index + 1),
    }
}

// Remembers the successor, if there is one, of a task that began at an entry.
fn remember(entries: &[u32], successors: &mut Vec<Option<u32>>, entry: u32, successor: Option<u32>)
    requires rising { IsStrictlyIncreasing entries.now }
    requires as_many { length successors.old.items ≡ length entries.now }
    ensures { successors.new.items ≡ with_successor entries.now (Some entry) successor successors.old.items }
{
    if successor.is_none() {
        return;
    }
    if let Ok(i) = entries.binary_search(&entry) {
        successors[i] = successor;
    }
}

// The entry to which a task with this end hands on, if it does.
fn handed_on(ended: Option<End>) -> Option<u32>
    ensures { result ≡ due_after ended }
{
    match ended {
        Some(end) => end.next(),
        None => None,
    }
}

impl Sequencer {
    /// The sequencer of an image before any event. It allocates all that it will ever need.
    ///
    /// Errors: [`OpenError::Memory`].
    pub fn open(alloc: Global, image: &Image) -> Result<Sequencer, OpenError>
        ensures ok { IfOk result (λ s. s ≡ guide_opened image.now.entries image.now.start) }
        ensures err { IfErr result (λ e. e ≡ OpenError.Memory) }
    {
        match Sequencer::tables(alloc, image) {
            Ok(sequencer) => Ok(sequencer),
            Err(_) => Err(OpenError::Memory),
        }
    }

    // The sequencer with its tables.
    fn tables(alloc: Global, image: &Image) -> Result<Sequencer, AllocError>
        ensures { IfOk result (λ s. s ≡ guide_opened image.now.entries image.now.start) }
    {
        let entries = Vec::from_slice(alloc, image.entries())?;
        let successors = Vec::from_elem(alloc, None, entries.len())?;
        Ok(Sequencer {
            entries,
            successors,
            due: Some(image.start()),
            active: ArrayVec::new(),
            indices: ArrayVec::new(),
        })
    }

    /// It becomes equal to another sequencer of the same entries. It takes no memory.
    pub fn copy_from(&mut self, other: &Sequencer)
        requires { self.old.entries ≡ other.now.entries }
        ensures { self.new ≡ other.now }
    {
        self.successors.copy_from_slice(&other.successors);
        self.due = other.due;
        self.active.clear();
        let _active_fit = self.active.try_extend_from_slice(&other.active);
        self.indices.clear();
        let _indices_fit = self.indices.try_extend_from_slice(&other.indices);
    }

    /// The byte address of the entry of the next task to commit, while the run goes on.
    pub fn due(&self) -> Option<u32>
        ensures { result ≡ self.now.due }
    {
        let _open = &self.entries;
        self.due
    }

    /// The guess for the next task, a byte address, given how the youngest active task has ended, if it has. With no
    /// task active it is the due entry. Otherwise it is the entry to which the youngest handed on. If it hasn't, it is
    /// the successor of the last committed task that began where the youngest did or, without one, the entry after
    /// that, in which the first follows the last.
    pub fn predict(&self, ended: Option<End>) -> Option<u32>
        ensures { result ≡ guess_of ended self.now }
    {
        match self.active.last() {
            Some(&youngest) => match handed_on(ended) {
                Some(entry) => Some(entry),
                None => {
                    let index = self.indices[self.active.len() - 1];
                    Some(following(&self.entries, &self.successors, youngest, index))
                }
            },
            None => self.due,
        }
    }

    /// Whether the end of the task at a place, counted from the oldest, cuts the ones after it: always at an exit or
    /// trap, and otherwise exactly when the next task began at an entry other than the one to which it handed on.
    /// Without a next task there is nothing to cut.
    pub fn settle(&self, place: usize, end: End) -> bool
        ensures { result ≡ cuts_next end (drop (suc place) self.now.active) }
    {
        match self.active.get(place.saturating_add(1)) {
            Some(&next) => match end {
                End::Next(entry) => next != entry,
                End::Exit(_) => true,
                End::Trap(_) => true,
            },
            None => false,
        }
    }

    /// Adds a new task as the youngest, and returns its entry, a byte address: the due one if no
    /// task is active, otherwise the guess.
    pub fn assign(&mut self, guess: u32) -> u32
        requires room { length self.old.active < CAPACITY }
        ensures entry { result ≡ entry_for self.old.due self.old.active guess }
        ensures state { self.new ≡ guide_assigned guess self.old }
    {
        let entry = if self.active.is_empty() {
            self.due.unwrap_or(guess)
        } else {
            guess
        };
        self.indices.push(index_of(&self.entries, entry));
        self.active.push(entry);
        entry
    }

    /// Removes the oldest task, which has this end. Its successor becomes due, and is remembered. After an exit or trap
    /// no task is due any more.
    pub fn commit(&mut self, end: End)
        requires { 0 < length self.old.active }
        ensures { self.new ≡ guide_committed end self.old }
    {
        let head = self.active.remove(0);
        let _index = self.indices.remove(0);
        self.due = end.next();
        remember(&self.entries, &mut self.successors, head, self.due);
    }

    /// Removes the task at a place, counted from the oldest, and all younger ones.
    pub fn cut_from(&mut self, place: usize)
        ensures { self.new ≡ guide_cut place self.old }
    {
        self.active.truncate(place);
        self.indices.truncate(place);
    }
}
