// All schedules of an image.

ghost use Rattle.std.specs.Prelude.{◌≡◌, ◌⊎◌, ◌<◌, ◌≤◌, ◌+◌, ◌*◌, ◌^◌, ◌++◌, ◌∷◌, [], ℕ, IfOk, IsFalse, IsTrue, OnOk};
ghost use Rattle.std.specs.Prelude.{length};
ghost use Rattle.svc_explore_laws.specs.Closed.{IsIn, ShowNothingElse};
ghost use Rattle.svc_explore.specs.Counts.{AddsPlace, HasFull, IsDepth, IsLongest, IsSound, IsTold, KeepsLimits};
ghost use Rattle.svc_explore.specs.Found.{AreWitnessed, are_seen};
ghost use Rattle.svc_observations.specs.Order.{AreInOrder};
ghost use Rattle.svc_renaming_laws.specs.ClosedUpToNames.{IsOpeningListed};
ghost use Rattle.svc_explore.specs.KeyWords.{HasKey};
ghost use Rattle.svc_explore.specs.Search.{GrowsTo, IsExploredAt, IsLedThere, IsPartlyClosed, are_keys};

use crate::found::{Seen, note_seen};
use crate::key::key_of;
use crate::order::put_in_order;
use crate::search::{Tried, open_recorder, replay, try_unit};
use indexmap::IndexMap;
use std::alloc::{AllocError, Global};
use svc_base::{Config, UnitId};
use svc_history::Recorder;
use svc_image::Image;

/// What an exploration found.
#[derive(Drop)]
pub struct Exploration {
    /// What was seen, each observation once, in the order of its rows.
    pub found: Vec<Seen>,
    /// How many standings were told apart.
    pub states: usize,
    /// How many moves were made at them.
    pub moves: u64,
    /// How many moves the longest of the schedules has that lead to a standing first.
    pub deepest: usize,
    /// No limit was met: no schedule shows anything else.
    pub whole: bool,
}

// The keys that were met, each with the schedule that led there first, and what was seen.
#[derive(Drop)]
struct Search {
    keys: IndexMap<Vec<u64>, Vec<UnitId>>,
    found: Vec<Seen>,
    moves: u64,
    // where each unit makes its move: it becomes equal to the machine where a schedule leads, again for each
    mover: Recorder,
}

// Notes a key, and the schedule that leads there, unless it was met before.
fn note_key(
    keys: &mut IndexMap<Vec<u64>, Vec<UnitId>>,
    key: Vec<u64>,
    path: Vec<UnitId>,
) -> Result<(), AllocError>
    ensures listed { OnOk result (IsIn key.items (are_keys keys.new.entries)) }
    ensures grows { OnOk result (GrowsTo keys.old.entries keys.new.entries) }
    ensures adds { OnOk result (AddsPlace keys.old.entries keys.new.entries key path) }
{
    if keys.contains_key(key.as_slice()) {
        return Ok(());
    }
    keys.insert(key, path)?;
    Ok(())
}

// A schedule with one unit more.
fn longer(alloc: Global, path: &[UnitId], unit: UnitId) -> Result<Vec<UnitId>, AllocError>
    ensures { IfOk result (λ next. next.items ≡ path.now ++ unit ∷ []) }
{
    let mut next = Vec::from_slice(alloc, path)?;
    next.push(unit)?;
    Ok(next)
}

impl Search {
    // The unit makes its move where the schedule of a key leads. Whether that was possible.
    fn explore_unit(
        &mut self,
        alloc: Global,
        most: u32,
        index: usize,
        there: &Recorder,
        unit: UnitId,
    ) -> Result<bool, AllocError>
        requires inside { index < length self.old.keys.entries }
        requires led { IsLedThere most self.old.keys.entries index there.now }
        requires sound { IsSound there.now.machine.image there.now.machine.config most self.old }
        requires few { self.old.moves < 2 ^ 63 }
        ensures explored { IfOk result (λ ok. IsTrue ok
            → IsExploredAt there.now.machine.image there.now.machine.config most self.new.keys.entries
            (are_seen self.new.found.items) index unit.0) }
        ensures stopped { IfOk result (λ ok. IsFalse ok → HasFull there.now.machine.config self.new.keys.entries) }
        ensures moves { OnOk result (self.new.moves ≤ self.old.moves + 1) }
        ensures keys { OnOk result (GrowsTo self.old.keys.entries self.new.keys.entries) }
        ensures longer { OnOk result (length self.old.keys.entries ≤ length self.new.keys.entries) }
        ensures found { OnOk result (GrowsTo (are_seen self.old.found.items) (are_seen self.new.found.items)) }
        ensures sound { OnOk result (IsSound there.now.machine.image there.now.machine.config most self.new) }
    {
        let (_, path) = self.keys.get_index(index).unwrap();
        let path = path.as_slice();
        match try_unit(alloc, there, &mut self.mover, most, unit)? {
            Tried::Off => Ok(false),
            Tried::Rests => Ok(true),
            Tried::Moves {
                happened,
                squashed,
                key,
            } => {
                let next = longer(alloc, path, unit)?;
                note_seen(alloc, &mut self.found, happened, path, unit)?;
                note_seen(alloc, &mut self.found, squashed, path, unit)?;
                note_key(&mut self.keys, key, next)?;
                self.moves += 1;
                Ok(true)
            }
        }
    }

    // The machine where the schedule of a key leads.
    fn replay_key(
        &self,
        alloc: Global,
        image: &Image,
        config: Config,
        most: u32,
        index: usize,
    ) -> Result<Recorder, AllocError>
        requires inside { index < length self.now.keys.entries }
        requires sound { IsSound image.now config most self.now }
        ensures image { IfOk result (λ r. r.machine.image ≡ image.now) }
        ensures config { IfOk result (λ r. r.machine.config ≡ config) }
        ensures led { IfOk result (IsLedThere most self.now.keys.entries index) }
    {
        let (_, path) = self.keys.get_index(index).unwrap();
        let there = replay(alloc, image, config, path.as_slice(), most)?.unwrap();
        Ok(there)
    }

    // Each unit makes its move where the schedule of a key leads. Whether that was possible.
    fn explore_key(
        &mut self,
        alloc: Global,
        image: &Image,
        config: Config,
        most: u32,
        index: usize,
    ) -> Result<bool, AllocError>
        requires inside { index < length self.old.keys.entries }
        requires sound { IsSound image.now config most self.old }
        requires few { self.old.moves + 16 < 2 ^ 63 }
        ensures explored { IfOk result (λ ok. IsTrue ok → (unit : ℕ) → unit < config.units
            → IsExploredAt image.now config most self.new.keys.entries (are_seen self.new.found.items) index unit) }
        ensures stopped { IfOk result (λ ok. IsFalse ok → HasFull config self.new.keys.entries) }
        ensures moves { OnOk result (self.new.moves ≤ self.old.moves + config.units) }
        ensures keys { OnOk result (GrowsTo self.old.keys.entries self.new.keys.entries) }
        ensures longer { OnOk result (length self.old.keys.entries ≤ length self.new.keys.entries) }
        ensures found { OnOk result (GrowsTo (are_seen self.old.found.items) (are_seen self.new.found.items)) }
        ensures sound { OnOk result (IsSound image.now config most self.new) }
    {
        let there = self.replay_key(alloc, image, config, most, index)?;
        for unit in 0..config.units {
            let unit = UnitId(unit as u8);
            if !self.explore_unit(alloc, most, index, &there, unit)? {
                return Ok(false);
            }
        }
        Ok(true)
    }

    // Explores one key after another, as many as the limit says. Whether none is left.
    fn run(
        &mut self,
        alloc: Global,
        image: &Image,
        config: Config,
        most: u32,
        limit: u32,
    ) -> Result<bool, AllocError>
        requires opening { IsOpeningListed image.now config (HasKey image.now config) (are_keys self.old.keys.entries) }
        requires unmoved { self.old.moves ≡ 0 }
        requires sound { IsSound image.now config most self.old }
        ensures closed { IfOk result (λ ok. IsTrue ok → IsPartlyClosed image.now config most self.new.keys.entries
            (are_seen self.new.found.items) (length self.new.keys.entries)) }
        ensures within { IfOk result (λ ok. IsTrue ok → length self.new.keys.entries ≤ limit) }
        ensures stopped { IfOk result (λ ok. IsFalse ok
            → (limit < length self.new.keys.entries) ⊎ HasFull config self.new.keys.entries) }
        ensures moves { OnOk result (self.new.moves ≤ length self.new.keys.entries * config.units) }
        ensures opening { OnOk result (0 < length self.new.keys.entries) }
        ensures sound { OnOk result (IsSound image.now config most self.new) }
    {
        for index in 0..limit as usize {
            if index == self.keys.len() {
                return Ok(true);
            }
            if !self.explore_key(alloc, image, config, most, index)? {
                return Ok(false);
            }
        }
        Ok(self.keys.len() == limit as usize)
    }

    // How many moves the schedule of a key has.
    fn depth(&self, index: usize) -> usize
        requires inside { index < length self.now.keys.entries }
        ensures { IsDepth self.now.keys.entries index result }
    {
        let (_, path) = self.keys.get_index(index).unwrap();
        path.len()
    }

    // How many moves the longest schedule has.
    fn deepest(&self) -> usize
        requires some { 0 < length self.now.keys.entries }
        ensures { IsLongest result self.now.keys.entries }
    {
        let mut deepest = 0;
        for index in 0..self.keys.len() {
            let depth = self.depth(index);
            if deepest < depth {
                deepest = depth;
            }
        }
        deepest
    }
}

// The search before any move.
fn opened(alloc: Global, image: &Image, config: Config) -> Result<Search, AllocError>
    ensures opening { IfOk result (λ s.
        IsOpeningListed image.now config (HasKey image.now config) (are_keys s.keys.entries)) }
    ensures unmoved { IfOk result (λ s. s.moves ≡ 0) }
    ensures sound { IfOk result (λ s. (most : ℕ) → IsSound image.now config most s) }
{
    let mover = open_recorder(alloc, image, config)?;
    let key = key_of(alloc, &mover)?;
    let mut keys = IndexMap::new(alloc);
    note_key(&mut keys, key, Vec::new(alloc))?;
    Ok(Search {
        keys,
        found: Vec::new(alloc),
        moves: 0,
        mover,
    })
}

/// Explores all schedules of the image: at each standing that moves of the units lead to, each unit makes its move. A
/// unit runs its task on by at most `burst` turns at a time. At most `limit` standings are explored.
///
/// Errors: [`AllocError`].
pub fn explore(
    alloc: Global,
    image: &Image,
    config: Config,
    burst: u32,
    limit: u32,
) -> Result<Exploration, AllocError>
    // Where no limit was met, whichever units make their moves, in whatever order and however long, nothing is seen but
    // what was found.
    ensures whole { IfOk result (λ r. IsTrue r.whole
        → ShowNothingElse image.now config burst (are_seen r.found.items)) }
    // It is not whole only if a limit was met: that of standings, or that of events.
    ensures limits { IfOk result (KeepsLimits config limit) }
    // Each observation was found once, and its schedule shows it, whether a limit was met or not.
    ensures witnessed { IfOk result (λ r. AreWitnessed image.now config burst r.found.items) }
    // They stand in the order of their rows.
    ensures order { IfOk result (λ r. AreInOrder (are_seen r.found.items)) }
    // The standings that were told apart are counted, and the moves of the longest schedule that led to one first.
    ensures told { IfOk result (IsTold image.now config burst) }
{
    let _start = image.start();
    let mut search = opened(alloc, image, config)?;
    let whole = search.run(alloc, image, config, burst, limit)?;
    let deepest = search.deepest();
    let mut found = search.found;
    put_in_order(&mut found);
    Ok(Exploration {
        states: search.keys.len(),
        moves: search.moves,
        deepest,
        found,
        whole,
    })
}
