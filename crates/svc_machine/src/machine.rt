//! The machine: the fields behind it, its opening, and its step.

ghost use Rattle.std.specs.Prelude.{◌≡◌, ◌≤◌, [], IfOk, vec_capacity};
ghost use Rattle.svc_image.specs.Image.{IsImage};
ghost use Rattle.svc_bus_laws.specs.BusState.{Agrees};
ghost use Rattle.svc_bus_laws.specs.LineTable.{opening_table};
ghost use Rattle.svc_bus.specs.State.{bus_state};
ghost use Rattle.svc_machine_laws.specs.Standing.{opened_at};
ghost use Rattle.svc_machine.specs.Events.{event_of};
ghost use Rattle.svc_machine.specs.Steps.{IsStep};
ghost use Rattle.svc_machine.specs.Value.{StandsAt};

use crate::admit::Admitted;
use crate::event::Event;
use crate::seat::Seat;
use std::alloc::Global;
use std::marker::Model;
use svc_base::{Config, OpenError, Refusal};
use svc_bus::Bus;
use svc_core_laws::End;
use svc_image::Image;
use svc_machine_laws::Reply;
use svc_sequencer::Sequencer;

/// A machine of one to sixteen units that runs one program.
#[derive(Drop)]
pub struct Machine {
    pub(crate) image: Image,
    pub(crate) config: Config,
    pub(crate) bus: Bus,
    pub(crate) sequencer: Sequencer,
    // the active tasks, the head first
    pub(crate) seats: Vec<Seat>,
    // the output of the committed tasks
    pub(crate) output: Vec<u32>,
    // how the run was stopped
    pub(crate) stopped: Option<End>,
    pub(crate) commits: u64,
    pub(crate) accepted: u32,
    // the next assignment's
    pub(crate) epoch: u64,
}

impl Model for Machine {
    ghost use Rattle.std.specs.Prelude.{map, vec_capacity};
    ghost use Rattle.svc_machine.specs.Seats.{plain_of};
    ghost use Rattle.svc_machine.specs.Value.{MachineValue};
    ghost use Rattle.svc_machine.specs.Kept.{Kept, whole_seat};

    ghost Value = { MachineValue };

    ghost view = { λ m. record {
      image = m.image;
      config = m.config;
      plain = plain_of m.commits m.accepted m.epoch m.seats.items;
      bus = m.bus;
    } };

    ghost invariant = { λ m. Kept (record {
      image = m.image;
      config = m.config;
      plain = plain_of m.commits m.accepted m.epoch m.seats.items;
      bus = m.bus;
      guide = m.sequencer;
      seats = map whole_seat m.seats.items;
      places = vec_capacity m.seats;
      output = m.output.items;
      room = vec_capacity m.output;
      stopped = m.stopped;
    }) };
}

// A bus without lines or tasks, over the image's data.
fn open_bus(alloc: Global, image: &Image, config: Config) -> Result<Bus, OpenError>
    ensures table { IfOk result (λ bus.
        Agrees (bus_state bus) (opening_table config.units config.sets config.ways image.now.words)) }
    ensures sound { IsImage image.now }
{
    let words = image.data_words();
    let Ok(memory) = Vec::from_slice(alloc, words) else {
        return Err(OpenError::Memory);
    };
    Bus::open(alloc, config.units, config.sets, config.ways, memory)
}

// An empty list with room for this many items.
fn with_room<T>(alloc: Global, count: u32) -> Result<Vec<T>, OpenError>
    ensures empty { IfOk result (λ list. list.items ≡ []) }
    ensures room { IfOk result (λ list. count ≤ vec_capacity list) }
{
    match Vec::with_capacity(alloc, count as usize) {
        Ok(list) => Ok(list),
        Err(_) => Err(OpenError::Memory),
    }
}

impl Machine {
    /// A machine before any event. It allocates all that it will ever need; no other call takes memory.
    ///
    /// Errors: [`OpenError::Memory`].
    pub fn open(alloc: Global, image: Image, config: Config) -> Result<Machine, OpenError>
        ensures image { IfOk result (λ m. m.image ≡ image) }
        ensures config { IfOk result (λ m. m.config ≡ config) }
        ensures standing { IfOk result (λ m. StandsAt m (opened_at image config 0)) }
    {
        Machine::open_from(alloc, image, config, 0)
    }

    /// The same, but the first assignment gets this epoch. (`u64::MAX` is never given out: such an assignment is
    /// refused.)
    ///
    /// Errors: [`OpenError::Memory`].
    pub fn open_from(
        alloc: Global,
        image: Image,
        config: Config,
        first: u64,
    ) -> Result<Machine, OpenError>
        ensures image { IfOk result (λ m. m.image ≡ image) }
        ensures config { IfOk result (λ m. m.config ≡ config) }
        ensures standing { IfOk result (λ m. StandsAt m (opened_at image config first)) }
    {
        let bus = open_bus(alloc, &image, config)?;
        let sequencer = Sequencer::open(alloc, &image)?;
        let seats = with_room(alloc, config.units)?;
        let output = with_room(alloc, config.events)?;
        Ok(Machine {
            image,
            config,
            bus,
            sequencer,
            seats,
            output,
            stopped: None,
            commits: 0,
            accepted: 0,
            epoch: first,
        })
    }

    /// One event. It takes no memory. Its clauses are stated for every standing that the machine is at: the plain
    /// machine with any line table that the bus agrees with.
    ///
    /// Errors: exactly the refusal that the table of refusals has for it, the first that applies. Then nothing changes.
    pub fn step(&mut self, event: Event<'_>) -> Result<Reply, Refusal>
        ensures { IsStep self.old self.new (event_of event.entry) result }
    {
        let admitted = self.admit(event)?;
        match admitted {
            Admitted::Assign { unit, guess } => Ok(self.assign(unit, guess)),
            Admitted::Submit { place, burst } => self.submit(place, burst),
            Admitted::Replace { unit, addr } => Ok(self.replace(unit, addr)),
            Admitted::Cancel { unit, place } => Ok(self.cancel(unit, place)),
            Admitted::Commit { by, end } => Ok(self.commit(by, end)),
        }
    }
}
