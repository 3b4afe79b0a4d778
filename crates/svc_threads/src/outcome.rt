// What a run of unit threads leaves, and how it is compared with the history.

ghost use Rattle.std.specs.Prelude.{◌≡◌, ◌≢◌, ◌<◌, ◌^◌, length, map, None, IfOk, IfErr, IfSome, Decides};
ghost use Rattle.svc_history.specs.Recorded.{IsLegal};
ghost use Rattle.svc_threads.specs.Outcomes.{slip_at, lists_from, AllAgreeTo, AreTheUnits};
ghost use Rattle.svc_threads.specs.Outcomes.{IsGiven, IsNoOutcome, IsOutcome};

use crate::fault::RunError;
use svc_base::Config;
use svc_history::same::is_same;
use svc_history::{Entry, Recorder, Slip};
use svc_image::Image;

/// A recorder, and the slips that each unit's thread brought back, unit 0 first.
#[derive(Drop)]
pub struct Outcome {
    /// The machine with its history.
    pub recorder: Recorder,
    /// The slips of each unit.
    pub slips: Vec<Vec<Slip>>,
}

/// An outcome of exactly these slips. It takes no memory.
///
/// Errors: [`RunError::ForeignImage`] exactly when the recorder's image or configuration is not the
/// given one; otherwise [`RunError::Torn`] exactly when there is not one list per unit, or a unit's
/// list is not that unit's entries with their indexes, in order.
pub fn reconcile(
    image: &Image,
    config: Config,
    recorder: Recorder,
    slips: Vec<Vec<Slip>>,
) -> Result<Outcome, RunError>
    ensures kept { IfOk result (λ o. (o.recorder ≡ recorder) × (o.slips ≡ slips)) }
    ensures ok { IfOk result (λ o. IsOutcome image.now config o.recorder (map (λ v. v.items) o.slips.items)) }
    ensures err { IfErr result (IsNoOutcome image.now config recorder (map (λ v. v.items) slips.items)) }
{
    judge(image, config, &recorder, slips.as_slice())?;
    Ok(Outcome { recorder, slips })
}

// Why they make no outcome, if they don't.
fn judge(
    image: &Image,
    config: Config,
    recorder: &Recorder,
    slips: &[Vec<Slip>],
) -> Result<(), RunError>
    ensures ok { IfOk result (λ _. IsOutcome image.now config recorder.now (map (λ v. v.items) slips.now)) }
    ensures err { IfErr result (IsNoOutcome image.now config recorder.now (map (λ v. v.items) slips.now)) }
{
    if !is_given(image, config, recorder) {
        return Err(RunError::ForeignImage);
    }
    if !are_the_units(recorder, slips) {
        return Err(RunError::Torn);
    }
    Ok(())
}

// The recorder is of this image and configuration.
fn is_given(image: &Image, config: Config, recorder: &Recorder) -> bool
    ensures given { Decides result (IsGiven image.now config recorder.now) }
    ensures legal { IsLegal recorder.now }
{
    let machine = recorder.machine();
    if machine.config() != config {
        return false;
    }
    machine.image().is_same(image)
}

// The lists are those of the recorder's units.
fn are_the_units(recorder: &Recorder, slips: &[Vec<Slip>]) -> bool
    ensures { Decides result (AreTheUnits recorder.now (map (λ v. v.items) slips.now)) }
{
    let units = recorder.machine().config().units;
    all_agree(units, recorder.entries(), slips)
}

// There is a list for each unit, and each is that unit's entries with their indexes, in order.
fn all_agree(units: u32, entries: &[Entry], lists: &[Vec<Slip>]) -> bool
    requires few { units < 2 ^ 8 }
    ensures { Decides result (map (λ v. v.items) lists.now ≡ lists_from 0 units entries.now) }
{
    if lists.len() != units as usize {
        return false;
    }
    let Some(ends) = agreeing(entries, lists) else {
        return false;
    };
    for unit in 0..units {
        let slips = lists[unit as usize].as_slice();
        if ends[unit as usize] != slips.len() {
            return false;
        }
    }
    true
}

// The slip is this entry's, at this index.
fn is_slip(slip: &Slip, index: usize, entry: &Entry) -> bool
    ensures { Decides result (slip.now ≡ slip_at index entry.now) }
{
    slip.index == index && is_same(&slip.entry, entry)
}

// How many slips of each list are its unit's entries with their indexes, in order; nothing if a list has too few, or a
// different one.
fn agreeing(entries: &[Entry], lists: &[Vec<Slip>]) -> Option<[usize; 256]>
    ensures some { IfSome result (λ ends.
        AllAgreeTo (length entries.now) entries.now ends (map (λ v. v.items) lists.now)) }
    ensures none { result ≡ None → map (λ v. v.items) lists.now ≢ lists_from 0 (length lists.now) entries.now }
{
    let mut ends = [0usize; 256];
    for index in 0..entries.len() {
        let entry = &entries[index];
        let unit = usize::from(entry.unit.0);
        if unit < lists.len() {
            let slips = lists[unit].as_slice();
            let next = ends[unit];
            if next >= slips.len() || !is_slip(&slips[next], index, entry) {
                return None;
            }
            ends[unit] = next + 1;
        }
    }
    Some(ends)
}
