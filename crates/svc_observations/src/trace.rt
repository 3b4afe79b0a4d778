// What a trace shows: each observation once, with the first entry that shows it.

ghost use Rattle.std.specs.Prelude.{◌≡◌, ◌++◌, IfErr, IfOk, OnOk, option_to_list};
ghost use Rattle.std.specs.List.Sorted.{IsPermutation, IsSortedByKey};
ghost use Rattle.std.specs.Cmp.Lexicographic.{slice_cmp};
ghost use Rattle.std.specs.Ordering.{nat_cmp};
ghost use Rattle.svc_observations.specs.Order.{places_of};
ghost use Rattle.std.specs.List.{dedup};
ghost use Rattle.svc_machine_laws.specs.Standing.{opened_at};
ghost use Rattle.svc_history_laws.specs.Legal.{LegalHistory};
ghost use Rattle.svc_history.specs.Faults.{IsFault};
ghost use Rattle.svc_explore_laws.specs.Observations.{observed};
ghost use Rattle.svc_observations.specs.Rosters.{numbers_in};
ghost use Rattle.svc_observations.specs.Sightings.{AreSightings, all_sighted, is_same_place, sighted, sorting_key};

use crate::order::places_of;
use crate::roster::Roster;
use crate::sight::{happened, roster_of, squashed};
use std::alloc::{AllocError, Global};
use svc_base::Config;
use svc_explore_laws::Observation;
use svc_history::{TraceFault, TraceFaultKind, check_on, open_trace};
use svc_history_laws::Entry;
use svc_image::Image;

/// An observation, and the entry that shows it.
#[derive(Clone, Copy)]
pub struct Sighting {
    /// What is seen.
    pub what: Observation,
    /// The number of the entry; that of the first is 0.
    pub entry: u64,
}

// Adds an observation of this entry, if there is one.
fn note(found: &mut Vec<Sighting>, what: Option<Observation>, entry: u64) -> Result<(), AllocError>
    ensures { OnOk result (found.new.items ≡ found.old.items ++ sighted entry (option_to_list what)) }
{
    if let Some(what) = what {
        found.push(Sighting { what, entry })?;
    }
    Ok(())
}

// Adds what an entry shows.
fn note_entry(
    found: &mut Vec<Sighting>,
    roster: &Roster,
    entry: &Entry,
    number: u64,
) -> Result<(), AllocError>
    ensures { OnOk result (found.new.items ≡ found.old.items
        ++ sighted number (observed (numbers_in roster.now) entry.now)) }
{
    note(found, happened(roster, entry), number)?;
    note(found, squashed(entry), number)
}

// What each entry of a trace shows, which is checked on the way.
fn all_sighted(
    alloc: Global,
    image: Image,
    config: Config,
    entries: &[Entry],
) -> Result<Vec<Sighting>, TraceFault>
    ensures legal { OnOk result (LegalHistory image config entries.now) }
    ensures all { IfOk result (λ found. found.items ≡ all_sighted image (opened_at image config 0) 0 entries.now) }
    ensures fault { IfErr result (IsFault image config entries.now) }
{
    let mut found = Vec::new(alloc);
    let mut recorder = open_trace(alloc, image, config)?;
    for index in 0..entries.len() {
        let Ok(roster) = roster_of(alloc, &recorder) else {
            return Err(no_memory());
        };
        check_on(&mut recorder, entries, index + 1)?;
        let Ok(()) = note_entry(&mut found, &roster, &entries[index], index as u64) else {
            return Err(no_memory());
        };
    }
    let _legal = recorder.entries();
    Ok(found)
}

fn no_memory() -> TraceFault
    ensures { (result.index ≡ 0) × (result.kind ≡ TraceFaultKind.Memory) }
{
    TraceFault {
        index: 0,
        kind: TraceFaultKind::Memory,
    }
}

// What two sightings are sorted by: the places of what is seen, then the entry.
fn sorting_key(sighting: &Sighting) -> [u64; 7]
    ensures { result ≡ sorting_key sighting.now }
{
    let [what, task, word, value, by, version] = places_of(&sighting.what);
    [what, task, word, value, by, version, sighting.entry]
}

// Puts sightings in the order of their rows, and those of one observation in the order of their entries.
fn put_in_order(found: &mut Vec<Sighting>)
    ensures same { IsPermutation found.old.items found.new.items }
    ensures order { IsSortedByKey sorting_key (slice_cmp nat_cmp) found.new.items }
{
    found.sort_unstable_by_key(
        |sighting: &Sighting| -> [u64; 7]
            ensures { result ≡ sorting_key sighting.now }
        { sorting_key(sighting) },
    );
}

// Of neighbours that show the same, only the first stays.
fn keep_first(found: &mut Vec<Sighting>)
    ensures { found.new.items ≡ dedup is_same_place found.old.items }
{
    found.dedup_by_key(
        |sighting: &mut Sighting| -> [u64; 6]
            ensures result { result ≡ places_of sighting.old.what }
            ensures kept { sighting.new ≡ sighting.old }
        { places_of(&sighting.what) },
    );
}

/// All that a trace shows, in the order of the rows: each observation once, with the first entry that shows it.
///
/// Errors: the first faulty entry, with what is wrong with it; [`TraceFaultKind::Memory`] if memory runs out.
pub fn sightings(
    alloc: Global,
    image: Image,
    config: Config,
    entries: &[Entry],
) -> Result<Vec<Sighting>, TraceFault>
    ensures legal { OnOk result (LegalHistory image config entries.now) }
    ensures sightings { IfOk result (λ found. AreSightings image config entries.now found.items) }
    ensures fault { IfErr result (IsFault image config entries.now) }
{
    let mut found = all_sighted(alloc, image, config, entries)?;
    put_in_order(&mut found);
    keep_first(&mut found);
    Ok(found)
}
