// The recorder: a machine with its history.

ghost use Rattle.std.specs.Prelude.{◌≡◌, [], IfOk};
ghost use Rattle.svc_machine.specs.Events.{event_of};
ghost use Rattle.svc_machine.specs.Value.{IsSequentialMachine};
ghost use Rattle.svc_history_laws.specs.Board.{board};
ghost use Rattle.svc_history.specs.Recorded.{IsCounted, IsLegal};
ghost use Rattle.svc_history.specs.Applying.{IsApplied};
ghost use Rattle.svc_history.specs.Glances.{IsGlance, IsUnitKnown, has_ended};
ghost use Rattle.svc_history.specs.Moves.{move_of, code_move};

use crate::glance::{Glance, Move, move_by};
use crate::writing::{fields_of, telling};
use std::alloc::Global;
use std::marker::Model;
use svc_base::{Config, OpenError, Refusal, UnitId};
use svc_history_laws::{Entry, Slip};
use svc_image::Image;
use svc_machine::{Event, Machine};

/// A machine with its history. By the type the history is legal, and the machine is where it leads.
#[derive(Drop)]
pub struct Recorder {
    machine: Machine,
    entries: Vec<Entry>,
}

impl Model for Recorder {
    ghost use Rattle.std.specs.Prelude.{◌≤◌, vec_capacity};
    ghost use Rattle.svc_history.specs.Recorded.{Recorded};
    ghost use Rattle.svc_history.specs.Kept.{IsKept};

    ghost Value = { Recorded };

    ghost view = { λ r. record { machine = r.machine; entries = r.entries.items } };

    ghost invariant = { λ r.
        IsKept (record { machine = r.machine; entries = r.entries.items })
        × (r.machine.config.events ≤ vec_capacity r.entries) };
}

impl Recorder {
    /// A machine before any event. It allocates all the room that the machine and its history ever fill.
    ///
    /// Errors: [`OpenError::Memory`].
    pub fn open(alloc: Global, image: Image, config: Config) -> Result<Recorder, OpenError>
        ensures image { IfOk result (λ r. r.machine.image ≡ image) }
        ensures config { IfOk result (λ r. r.machine.config ≡ config) }
        ensures entries { IfOk result (λ r. r.entries ≡ []) }
    {
        let _start = image.start();
        let machine = Machine::open(alloc, image, config)?;
        let Ok(entries) = Vec::with_capacity(alloc, config.events as usize) else {
            return Err(OpenError::Memory);
        };
        Ok(Recorder { machine, entries })
    }

    /// It becomes equal to another recorder of the same image and configuration. It takes no memory.
    pub fn copy_from(&mut self, other: &Recorder)
        requires image { self.old.machine.image ≡ other.now.machine.image }
        requires config { self.old.machine.config ≡ other.now.machine.config }
        ensures { self.new ≡ other.now }
    {
        self.machine.copy_from(&other.machine);
        self.entries.clear();
        let _room = self.entries.extend_from_slice(&other.entries);
    }

    /// One event. An accepted one appends exactly one entry, that event's with its reply, and a refused one changes
    /// nothing. It takes no memory.
    ///
    /// Errors: the first refusal that applies, by the table of refusals.
    ///
    /// After it, refused or not, the committed tasks are the first ones of the program's sequential order, as many as
    /// the history has commits, and committed memory and output are exactly what the plain evaluator gives by running
    /// those tasks one after another on one flat memory.
    pub fn apply(&mut self, event: Event<'_>) -> Result<Slip, Refusal>
        ensures { IsApplied self.old self.new (event_of event.entry) result }
    {
        let index = self.entries.len();
        let reply = self.machine.step(event)?;
        let fields = fields_of(event);
        let entry = telling(fields, &reply);
        let _pushed = self.entries.push(entry);
        Ok(Slip {
            index,
            entry: self.entries[index],
        })
    }

    /// The machine where the history leads. Its reads give what running the committed tasks one after another leaves.
    pub fn machine(&self) -> &Machine
        ensures machine { result.now ≡ self.now.machine }
        ensures legal { IsLegal self.now }
        ensures headline { IsSequentialMachine (board self.now.entries).committed self.now.machine }
    {
        let _entries = &self.entries;
        &self.machine
    }

    /// The history, the oldest entry first.
    pub fn entries(&self) -> &[Entry]
        ensures entries { result.now ≡ self.now.entries }
        ensures legal { IsLegal self.now }
        ensures counted { IsCounted self.now }
        ensures headline { IsSequentialMachine (board self.now.entries).committed self.now.machine }
    {
        self.entries.as_slice()
    }

    /// Whether the run is over: it has stopped, or the history is full.
    pub fn has_ended(&self) -> bool
        ensures ended { result ≡ has_ended self.now.machine }
        ensures legal { IsLegal self.now }
    {
        let _entries = &self.entries;
        self.machine.stopped().is_some() || self.machine.is_full()
    }

    /// What the unit's thread needs to know for its next event.
    ///
    /// Errors: [`Refusal::NoSuchUnit`].
    pub fn glance(&self, unit: UnitId) -> Result<Glance, Refusal>
        ensures refused { IsUnitKnown self.now.machine.config unit result }
        ensures glance { IfOk result (IsGlance self.now.machine unit.0) }
        ensures legal { IsLegal self.now }
    {
        let _entries = &self.entries;
        let machine = self.machine_with(unit)?;
        let ended = self.has_ended();
        let is_head = machine.is_head(unit);
        let guess = machine.guess();
        // The lease is copied last, so that it comes to its place at once.
        Ok(Glance {
            ended,
            lease: machine.lease(unit).copied(),
            is_head,
            guess,
        })
    }

    /// What the unit does next, given what [`Recorder::glance`] shows it. The lease is lent, so that nothing is copied.
    ///
    /// Errors: [`Refusal::NoSuchUnit`].
    pub fn next_move(&self, unit: UnitId) -> Result<Move<'_>, Refusal>
        ensures refused { IsUnitKnown self.now.machine.config unit result }
        ensures moves { IfOk result (λ next. code_move next ≡ move_of self.now.machine unit.0) }
        ensures legal { IsLegal self.now }
    {
        let _entries = &self.entries;
        let machine = self.machine_with(unit)?;
        let lease = machine.lease(unit);
        // only a unit without a task asks for it
        let guess = if lease.is_none() {
            machine.guess()
        } else {
            None
        };
        Ok(move_by(self.has_ended(), lease, machine.is_head(unit), guess))
    }

    // The machine, if it has this unit.
    //
    // Errors: [`Refusal::NoSuchUnit`].
    fn machine_with(&self, unit: UnitId) -> Result<&Machine, Refusal>
        ensures refused { IsUnitKnown self.now.machine.config unit result }
        ensures machine { IfOk result (λ machine. machine.now ≡ self.now.machine) }
    {
        let config = self.machine.config();
        if u32::from(unit.0) >= config.units {
            return Err(Refusal::NoSuchUnit);
        }
        Ok(&self.machine)
    }
}
