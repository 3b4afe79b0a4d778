//! A cache: sets of places for lines.

ghost use Rattle.std.specs.Prelude.{◌≡◌, ◌<◌, ◌≤◌, ◌+◌, ◌*◌, ◌^◌, ◌%◌, ℕ, true, false, Some, None, Option, length};
ghost use Rattle.std.specs.Prelude.{option_map, IsTrue, IfOk, IfSome, OnOk, OnErr, MatchResult, All};
ghost use Rattle.std.specs.Int.{is_power_of_two};
ghost use Rattle.svc_base.specs.declared.config.TheConstants.{MAX_SETS, MAX_WAYS};
ghost use Rattle.svc_line.specs.Bits.{bits_of};
ghost use Rattle.svc_line.specs.Line.{seen_line};
ghost use Rattle.svc_cache.specs.Probes.{CountsOneSearch, HasRoom};
ghost use Rattle.svc_cache.specs.Lines.{EndsBelow, commit_line, full_address, no_lines, squash_line, with_line};
ghost use Rattle.svc_cache.specs.Places.{is_held, line_of, row_at};

use crate::place::CachePlace;
use crate::probes::Probes;
use crate::row::{SetFull, find, place_for};
use std::alloc::{AllocError, Global};
use std::marker::Model;
use svc_base::{OpenError, WordAddr};
use svc_line::Line;

/// A cache of one unit.
///
/// Contracts see the map `line_of` from word address to line, which has no line without V.
#[derive(Drop)]
pub struct Cache {
    sets: u32,
    ways: u32,
    places: Vec<CachePlace>,
}

impl Model for Cache {
    ghost use Rattle.svc_cache.specs.Places.{CacheValue};

    ghost Value = { CacheValue };

    ghost use Rattle.svc_cache.specs.Sound.{value_of, IsSound};

    ghost view = { value_of };

    ghost invariant = { λ cache. IsSound (value_of cache) };
}

// A number of empty places.
fn empty_places(alloc: Global, count: usize) -> Result<Vec<CachePlace>, AllocError>
    ensures size { IfOk result (λ places. length places.items ≡ count) }
    ensures empty { IfOk result (λ places. All (λ place. is_held place ≡ false) places.items) }
{
    vec![in alloc; CachePlace::empty(); count]
}

impl Cache {
    ghost use Rattle.svc_cache.specs.Sound.{IsSound};

    /// A cache without lines. It allocates all its memory here.
    ///
    /// Errors: [`OpenError::Memory`].
    pub fn open(alloc: Global, sets: u32, ways: u32) -> Result<Cache, OpenError>
        requires power { IsTrue (is_power_of_two sets) }
        requires few_sets { sets ≤ MAX_SETS }
        requires some_ways { 1 ≤ ways }
        requires few_ways { ways ≤ MAX_WAYS }
        ensures sets { IfOk result (λ cache. cache.sets ≡ sets) }
        ensures ways { IfOk result (λ cache. cache.ways ≡ ways) }
        ensures lines { IfOk result (λ cache. line_of cache ≡ no_lines) }
    {
        let count = sets as usize * ways as usize;
        match empty_places(alloc, count) {
            Ok(places) => Ok(Cache { sets, ways, places }),
            Err(_) => Err(OpenError::Memory),
        }
    }

    /// It becomes equal to another cache of its size. It takes no memory.
    pub fn copy_from(&mut self, other: &Cache)
        requires sets { self.old.sets ≡ other.now.sets }
        requires ways { self.old.ways ≡ other.now.ways }
        ensures { self.new ≡ other.now }
    {
        self.places.copy_from_slice(&other.places);
    }

    // Where the places of the word's set begin. The sets are a power of two, so a mask gives the remainder.
    #[tactic(auto, using(crate::proofs::Powers::mask_of_power, crate::proofs::Powers::power_positive))]
    fn row_start(&self, word: WordAddr) -> usize
        ensures start { result ≡ (word.0 % self.now.sets) * self.now.ways }
        ensures within { result + self.now.ways ≤ length self.now.places }
        ensures small { result + self.now.ways < 2 ^ 32 }
    {
        (word.0 & (self.sets - 1)) as usize * self.ways as usize
    }

    // The places of the word's set.
    fn row(&self, word: WordAddr) -> &[CachePlace]
        ensures places { result.now ≡ row_at self.now (word.0 % self.now.sets) }
        ensures ways { length result.now ≡ self.now.ways }
        ensures sound { IsSound self.now }
    {
        let start = self.row_start(word);
        &self.places[start..start + self.ways as usize]
    }

    /// The line of the word.
    pub fn lookup(&self, word: WordAddr, probes: &mut Probes) -> Option<Line>
        requires room { HasRoom probes.old self.now.ways }
        ensures line { option_map seen_line result ≡ line_of self.now word.0 }
        ensures valid { IfSome result (λ line. (bits_of line.bits).valid ≡ true) }
        ensures counted { CountsOneSearch probes.old probes.new self.now.ways }
    {
        let row = self.row(word);
        let place = find(row, word, probes)?;
        Some(row[place].line)
    }

    /// The word whose line has to be replaced before a line of `word` can be filled. There is one exactly when `word`
    /// has no line and its set is full.
    pub fn full(&self, word: WordAddr, probes: &mut Probes) -> Option<WordAddr>
        requires room { HasRoom probes.old self.now.ways }
        ensures address { (bound : ℕ) → EndsBelow (line_of self.now) bound
            → option_map (λ named. named.0) result ≡ full_address self.now.sets self.now.ways bound
            (line_of self.now) word.0 }
        ensures counted { CountsOneSearch probes.old probes.new self.now.ways }
    {
        match place_for(self.row(word), word, probes) {
            Ok(_) => None,
            Err(SetFull(named)) => Some(named),
        }
    }

    /// Puts the line of the word in its place, over the word's old line, if any. If the set is full, nothing changes.
    ///
    /// Errors: [`SetFull`], with the word whose line should leave first.
    pub fn fill(&mut self, word: WordAddr, line: Line, probes: &mut Probes) -> Result<(), SetFull>
        requires valid { (bits_of line.bits).valid ≡ true }
        requires room { HasRoom probes.old self.old.ways }
        ensures refused { (bound : ℕ) → EndsBelow (line_of self.old) bound
            → MatchResult result (λ _. full_address self.old.sets self.old.ways bound (line_of self.old) word.0 ≡ None)
            (λ e. full_address self.old.sets self.old.ways bound (line_of self.old) word.0 ≡ Some e.0.0) }
        ensures unchanged { OnErr result (self.new ≡ self.old) }
        ensures line { OnOk result (line_of self.new ≡ with_line (line_of self.old) word.0 (Some (seen_line line))) }
        ensures sets { self.new.sets ≡ self.old.sets }
        ensures ways { self.new.ways ≡ self.old.ways }
        ensures counted { CountsOneSearch probes.old probes.new self.old.ways }
    {
        let place = place_for(self.row(word), word, probes)?;
        let start = self.row_start(word);
        self.places[start + place] = CachePlace { word, line };
        Ok(())
    }

    /// The word's line, if any, becomes invalid.
    pub fn drop_line(&mut self, word: WordAddr, probes: &mut Probes)
        requires room { HasRoom probes.old self.old.ways }
        ensures line { line_of self.new ≡ with_line (line_of self.old) word.0 None }
        ensures sets { self.new.sets ≡ self.old.sets }
        ensures ways { self.new.ways ≡ self.old.ways }
        ensures counted { CountsOneSearch probes.old probes.new self.old.ways }
    {
        if let Some(place) = find(self.row(word), word, probes) {
            let start = self.row_start(word);
            self.places[start + place] = CachePlace::empty();
        }
    }

    /// The unit's task is committed: C is set on every active line.
    pub fn for_commit(&mut self)
        ensures lines { line_of self.new ≡ (λ word. commit_line (line_of self.old word)) }
        ensures sets { self.new.sets ≡ self.old.sets }
        ensures ways { self.new.ways ≡ self.old.ways }
    {
        for place in self.places.iter_mut() {
            place.line.bits = place.line.bits.on_commit();
        }
    }

    /// The unit's task is squashed: every active line becomes invalid.
    pub fn for_squash(&mut self)
        ensures lines { line_of self.new ≡ (λ word. squash_line (line_of self.old word)) }
        ensures sets { self.new.sets ≡ self.old.sets }
        ensures ways { self.new.ways ≡ self.old.ways }
    {
        for place in self.places.iter_mut() {
            place.line.bits = place.line.bits.on_squash();
        }
    }
}
