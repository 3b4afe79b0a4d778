//! The places of one set.

ghost use Rattle.std.specs.Prelude.{◌≡◌, ◌<◌, ◌+◌, length, MatchResult};
ghost use Rattle.svc_base.specs.declared.refusal.Refusal.TheVariants as refusal;
ghost use Rattle.svc_cache.specs.Probes.{CountsOneSearch, HasRoom};
ghost use Rattle.svc_cache.specs.Rows.{IsFoundAt, IsFullRow, IsPlaceFor, IsSurvey};

use crate::place::CachePlace;
use crate::probes::Probes;
use svc_base::{Refusal, WordAddr};

/// Why a line was not filled: its set is full, and the line of this word should leave first. Of the words with lines in
/// the set it is the lowest whose line is committed or, if no line is, the lowest.
#[derive(Clone, Copy, Debug, PartialEq, Eq)]
pub struct SetFull(pub WordAddr);

impl From<SetFull> for Refusal {
    ghost from_gives = { λ full e. e ≡ refusal.SetFull full.0 };

    fn from(full: SetFull) -> Refusal {
        Refusal::SetFull(full.0)
    }
}

/// The place of a row that holds the word.
pub(crate) fn find(row: &[CachePlace], word: WordAddr, probes: &mut Probes) -> Option<usize>
    requires room { HasRoom probes.old (length row.now) }
    ensures found { IsFoundAt row.now word.0 result }
    ensures counted { CountsOneSearch probes.old probes.new (length row.now) }
{
    probes.searches += 1;
    for place in 0..row.len() {
        probes.places += 1;
        if row[place].holds(word) {
            return Some(place);
        }
    }
    None
}

/// What a survey of a row's first places has found.
#[derive(Clone, Copy)]
struct Survey {
    /// An empty place among them.
    empty: Option<usize>,
    /// The place among them that no other precedes.
    leaver: usize,
}

impl Survey {
    // The survey with one more place.
    fn with(self, row: &[CachePlace], place: usize) -> Survey
        requires within { place < length row.now }
        requires before { IsSurvey row.now place self }
        ensures { IsSurvey row.now (place + 1) result }
    {
        let empty = if row[place].is_held() {
            self.empty
        } else {
            Some(place)
        };
        let leaver = if row[place].precedes(&row[self.leaver]) {
            place
        } else {
            self.leaver
        };
        Survey { empty, leaver }
    }
}

/// The place of a row that a line of the word takes: the one that holds the word, otherwise an empty one. A full row
/// has none, and the error names the word whose line should leave first.
pub(crate) fn place_for(
    row: &[CachePlace],
    word: WordAddr,
    probes: &mut Probes,
) -> Result<usize, SetFull>
    requires some { 0 < length row.now }
    requires room { HasRoom probes.old (length row.now) }
    ensures place { MatchResult result (IsPlaceFor row.now word.0) (λ full. IsFullRow row.now word.0 full.0.0) }
    ensures counted { CountsOneSearch probes.old probes.new (length row.now) }
{
    probes.searches += 1;
    let mut survey = Survey {
        empty: None,
        leaver: 0,
    };
    for place in 0..row.len() {
        probes.places += 1;
        if row[place].holds(word) {
            return Ok(place);
        }
        survey = survey.with(row, place);
    }
    survey.empty.ok_or(SetFull(row[survey.leaver].word))
}
