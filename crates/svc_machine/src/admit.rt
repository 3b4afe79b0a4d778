//! Admission: for each kind of event its refusals, in the order of their numbers, and what is found
//! if none applies.

ghost use Rattle.std.specs.Prelude.{◌≡◌, ◌<◌, ◌-◌, ◌^◌, ◌==◌, [], ◌∷◌, false, not, Some, IfOk};
ghost use Rattle.std.specs.Prelude.{is_some, option_map, slice_get, unwrap_or};
ghost use Rattle.svc_image.specs.Image.{is_entry};
ghost use Rattle.svc_core_laws.specs.declared.ask.Ask.{Ask};
ghost use Rattle.svc_bus_laws.specs.BusState.{Agrees};
ghost use Rattle.svc_bus_laws.specs.LineTable.{LineTable};
ghost use Rattle.svc_bus_laws.specs.Refusals.{is_not_resident, is_pinned, table_cache};
ghost use Rattle.svc_bus.specs.State.{bus_state};
ghost use Rattle.svc_machine_laws.specs.Events.{Assign, Cancel, Commit, Replace, Submit, seat_place};
ghost use Rattle.svc_machine_laws.specs.Refusals.{history_full, is_current, no_unit, seat_at};
ghost use Rattle.svc_machine_laws.specs.Refusals.{asked_word, first_case, full_set};
ghost use Rattle.svc_machine_laws.specs.Standing.{Standing, refusal_of};
ghost use Rattle.svc_machine.specs.Admitted.{IsAdmission, IsFound, event_in, refusal_by};
ghost use Rattle.svc_machine.specs.Events.{event_of};
ghost use Rattle.svc_machine.specs.Kept.{whole_seat};
ghost use Rattle.svc_machine.specs.Refusing.{is_empty, machine_at};
ghost use Rattle.svc_machine.specs.Seats.{head_end};
ghost use Rattle.svc_machine.specs.Value.{StandsAt};

use crate::event::Event;
use crate::machine::Machine;
use crate::seat::{Seat, place_of};
use svc_base::{Refusal, UnitId, WordAddr};
use svc_core::{Burst, load_place, store_place};
use svc_core_laws::{Ask, End};
use svc_image::Image;

/// An event that the machine doesn't refuse, with what the tests for refusals found, so that nothing is searched for
/// again. Only the bus may still refuse it, if the unit's cache has no room for the word that a burst asks for.
#[derive(Clone, Copy)]
pub(crate) enum Admitted<'a> {
    /// The unit is idle.
    Assign { unit: UnitId, guess: u32 },
    /// The unit's seat has this place.
    Submit { place: usize, burst: &'a Burst },
    /// The unit has a line of the word, which may leave its cache.
    Replace { unit: UnitId, addr: WordAddr },
    /// The unit's seat has this place, which isn't the head's.
    Cancel { unit: UnitId, place: usize },
    /// The head has this end.
    Commit { by: UnitId, end: End },
}

impl Machine {
    /// The event with what was found about it.
    ///
    /// Errors: the refusal that the table of refusals has for it. A full set is one of them only if a later case of the
    /// table holds too; otherwise the bus tests for it.
    pub(crate) fn admit<'a>(&self, event: Event<'a>) -> Result<Admitted<'a>, Refusal>
        ensures refused { (s : Standing) → StandsAt self.now s → refusal_by self.now.image s.lines result
            ≡ refusal_of self.now.image self.now.config s (event_of event.entry) }
        ensures event { IfOk result (λ admitted. event_in admitted ≡ event_of event.entry) }
        ensures found { IfOk result (λ admitted. IsFound self.now admitted) }
    {
        match event {
            Event::Assign { unit, guess } => self.admit_assign(unit, guess),
            Event::Submit { burst } => self.admit_submit(burst),
            Event::Replace { unit, addr } => self.admit_replace(unit, addr),
            Event::Cancel { unit } => self.admit_cancel(unit),
            Event::Commit { by } => self.admit_commit(by),
        }
    }

    #[tactic(auto, unfolding(svc_machine_laws::specs::Refusals::refuse))]
    fn admit_assign(&self, unit: UnitId, guess: u32) -> Result<Admitted<'static>, Refusal>
        ensures { IsAdmission self.now (Assign unit.0 guess) result }
    {
        if self.lacks(unit) {
            return Err(Refusal::NoSuchUnit);
        }
        if self.seat_of(unit).is_some() {
            return Err(Refusal::Busy);
        }
        if self.head().is_some() && !is_entry(&self.image, guess) {
            return Err(Refusal::NotEntry);
        }
        if self.has_stopped() {
            return Err(Refusal::Stopped);
        }
        if self.is_full() {
            return Err(Refusal::HistoryFull);
        }
        if self.has_no_epoch() {
            return Err(Refusal::EpochsSpent);
        }
        Ok(Admitted::Assign { unit, guess })
    }

    #[tactic(auto, unfolding(svc_machine_laws::specs::Refusals::refuse))]
    fn admit_submit<'a>(&self, burst: &'a Burst) -> Result<Admitted<'a>, Refusal>
        ensures { IsAdmission self.now (Submit burst.now) result }
    {
        let unit = burst.unit();
        if self.lacks(unit) {
            return Err(Refusal::NoSuchUnit);
        }
        let Some((place, seat)) = self.seat_of(unit) else {
            return Err(Refusal::Idle);
        };
        if !is_current(burst, seat) {
            return Err(Refusal::Stale);
        }
        if !burst.is_of(&self.image) {
            return Err(Refusal::ForeignText);
        }
        if seat.lease.core.done().is_some() {
            return Err(Refusal::Done);
        }
        let Some(refusal) = self.refused_late(burst) else {
            return Ok(Admitted::Submit { place, burst });
        };
        Err(match self.full_set(unit, burst.ask()) {
            Some(addr) => Refusal::SetFull(addr),
            None => refusal,
        })
    }

    // Why a case after that of a full set refuses the burst, if one does.
    fn refused_late(&self, burst: &Burst) -> Option<Refusal>
        ensures { result ≡ first_case ((history_full self.now.config (machine_at self.now), Refusal.HistoryFull)
            ∷ (is_empty burst.now, Refusal.EmptyBurst) ∷ []) }
    {
        if self.is_full() {
            return Some(Refusal::HistoryFull);
        }
        is_empty(burst).then_some(Refusal::EmptyBurst)
    }

    #[tactic(auto, unfolding(svc_machine_laws::specs::Refusals::refuse))]
    fn admit_replace(&self, unit: UnitId, addr: WordAddr) -> Result<Admitted<'static>, Refusal>
        ensures { IsAdmission self.now (Replace unit.0 addr.0) result }
    {
        if self.lacks(unit) {
            return Err(Refusal::NoSuchUnit);
        }
        if self.has_stopped() {
            return Err(Refusal::Stopped);
        }
        match self.pinning(unit, addr) {
            None => return Err(Refusal::NotResident),
            Some(true) => return Err(Refusal::Pinned),
            Some(false) => {}
        }
        if self.is_full() {
            return Err(Refusal::HistoryFull);
        }
        Ok(Admitted::Replace { unit, addr })
    }

    #[tactic(auto, unfolding(svc_machine_laws::specs::Refusals::refuse))]
    fn admit_cancel(&self, unit: UnitId) -> Result<Admitted<'static>, Refusal>
        ensures { IsAdmission self.now (Cancel unit.0) result }
    {
        if self.lacks(unit) {
            return Err(Refusal::NoSuchUnit);
        }
        let Some((place, _)) = self.seat_of(unit) else {
            return Err(Refusal::Idle);
        };
        if place == 0 {
            return Err(Refusal::IsHead);
        }
        if self.is_full() {
            return Err(Refusal::HistoryFull);
        }
        Ok(Admitted::Cancel { unit, place })
    }

    #[tactic(auto, unfolding(svc_machine_laws::specs::Refusals::refuse))]
    fn admit_commit(&self, by: UnitId) -> Result<Admitted<'static>, Refusal>
        ensures { IsAdmission self.now (Commit by.0) result }
    {
        if self.lacks(by) {
            return Err(Refusal::NoSuchUnit);
        }
        if self.has_stopped() {
            return Err(Refusal::Stopped);
        }
        let Some(head) = self.head() else {
            return Err(Refusal::NoTask);
        };
        let Some(end) = head.lease.core.done() else {
            return Err(Refusal::HeadNotDone);
        };
        if self.is_full() {
            return Err(Refusal::HistoryFull);
        }
        Ok(Admitted::Commit { by, end })
    }
}

// The tests of the cases.
impl Machine {
    fn lacks(&self, unit: UnitId) -> bool
        ensures { result ≡ no_unit self.now.config unit.0 }
    {
        self.config.units <= u32::from(unit.0)
    }

    fn has_stopped(&self) -> bool
        ensures { result ≡ is_some (machine_at self.now).stopped }
    {
        self.stopped.is_some()
    }

    #[tactic(auto, unfolding(crate::specs::Refusing::machine_at))]
    fn has_no_epoch(&self) -> bool
        ensures { result ≡ ((machine_at self.now).epoch == 2 ^ 64 - 1) }
    {
        self.epoch == u64::MAX
    }

    // The seat of the unit's task, with its place.
    pub(crate) fn seat_of(&self, unit: UnitId) -> Option<(usize, &Seat)>
        ensures place { option_map (λ found. found.0) result ≡ seat_place (machine_at self.now) unit.0 }
        ensures seat { option_map (λ found. whole_seat found.1.now) result ≡ seat_at (machine_at self.now) unit.0 }
    {
        match place_of(&self.seats, unit) {
            Some(place) => Some((place, &self.seats[place])),
            None => None,
        }
    }

    // The seat of the head.
    pub(crate) fn head(&self) -> Option<&Seat>
        ensures { option_map (λ r. whole_seat r.now) result ≡ slice_get (machine_at self.now).seats 0 }
    {
        self.seats.first()
    }

    // The word to replace before the unit has room for what is asked, if it has none.
    pub(crate) fn full_set(&self, unit: UnitId, ask: Ask) -> Option<WordAddr>
        requires { unit.0 < self.now.config.units }
        ensures { (t : LineTable) → Agrees (bus_state self.now.bus) t
            → option_map (λ addr. addr.0) result ≡ full_set t unit.0 (asked_word self.now.image ask) }
    {
        let addr = asked_word(&self.image, ask)?;
        self.bus.set_full(unit, addr)
    }

    // Whether the unit's valid line of the word, if any, is pinned: active, with a unit that doesn't run the head.
    fn pinning(&self, unit: UnitId, addr: WordAddr) -> Option<bool>
        requires { unit.0 < self.now.config.units }
        ensures resident { (t : LineTable) → Agrees (bus_state self.now.bus) t
            → is_some result ≡ not (is_not_resident (table_cache t unit.0) addr.0) }
        ensures pinned { (t : LineTable) → Agrees (bus_state self.now.bus) t
            → unwrap_or result false ≡ is_pinned (table_cache t unit.0) t.units unit.0 addr.0 }
    {
        let (bits, _) = self.bus.line_at(unit, addr)?;
        Some(!bits.is_committed() && !self.is_head(unit))
    }
}

// A task may begin there.
#[tactic(auto, unfolding(svc_image::specs::Image::limit_at))]
fn is_entry(image: &Image, entry: u32) -> bool
    ensures { result ≡ is_entry image.now entry }
{
    image.limit_at(entry).is_some()
}

// The burst is of the task in the seat, and begins where it stands.
fn is_current(burst: &Burst, seat: &Seat) -> bool
    ensures { result ≡ is_current burst.now (Some (whole_seat seat.now)) }
{
    burst.epoch() == seat.lease.epoch && burst.start().is_same(&seat.lease.core)
}

// The burst asks for nothing, and ends where it starts: it has no turn.
fn is_empty(burst: &Burst) -> bool
    ensures { result ≡ is_empty burst.now }
{
    burst.ask().is_nothing() && burst.end().is_same(burst.start())
}

// The word of a load or store that doesn't trap.
fn asked_word(image: &Image, ask: Ask) -> Option<WordAddr>
    ensures { option_map (λ addr. addr.0) result ≡ asked_word image.now ask }
{
    let words = image.data_words().len() as u32;
    let access = match ask {
        Ask::Load { kind, addr, .. } => load_place(kind, addr, words),
        Ask::Store { kind, addr, .. } => store_place(kind, addr, words, image.read_only()),
        Ask::Nothing | Ask::Emit(_) => return None,
    };
    access.ok().map(|access| WordAddr(access.word))
}
