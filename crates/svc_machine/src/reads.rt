//! What can be read from a machine. What each read says of the committed tasks is what running them one after another
//! on one flat memory leaves.

ghost use Rattle.std.specs.Prelude.{◌≡◌, ◌<◌, true, IfSome, option_map};
ghost use Rattle.svc_line.specs.Bits.{bits_of};
ghost use Rattle.svc_core_laws.specs.Bytes.{word_at};
ghost use Rattle.svc_core_laws.specs.Sequence.{plain_seq, ending_of};
ghost use Rattle.svc_core_laws.specs.Turns.{data_words};
ghost use Rattle.svc_core_laws.specs.Words.{program};
ghost use Rattle.svc_bus_laws.specs.BusState.{without_number};
ghost use Rattle.svc_bus_laws.specs.BusView.{bus_newest};
ghost use Rattle.svc_bus.specs.State.{bus_state};
ghost use Rattle.svc_bus.specs.Calls.{line_shown};
ghost use Rattle.svc_bus.specs.Versions.{AreItsVersions};
ghost use Rattle.svc_machine_laws.specs.Guess.{guess};
ghost use Rattle.svc_machine_laws.specs.Reached.{IsReached};
ghost use Rattle.svc_machine_laws.specs.Refusals.{history_full};
ghost use Rattle.svc_machine_laws.specs.Standing.{Standing};
ghost use Rattle.svc_machine.specs.Value.{StandsAt};
ghost use Rattle.svc_machine.specs.Reads.{is_full, lease_of, runs_head};
ghost use Rattle.svc_machine.specs.Refusing.{machine_at};

use crate::machine::Machine;
use crate::seat::last_end;
use svc_base::{Config, UnitId, WordAddr};
use svc_bus::UnitList;
use svc_core::Lease;
use svc_core_laws::{End, Ending};
use svc_image::Image;
use svc_line::LineBits;

impl Machine {
    /// The image.
    pub fn image(&self) -> &Image
        ensures { result.now ≡ self.now.image }
    {
        &self.image
    }

    /// The configuration.
    pub fn config(&self) -> Config
        ensures config { result ≡ self.now.config }
        ensures standing { (s : Standing) × StandsAt self.now s }
        ensures reached { (s : Standing) → StandsAt self.now s → IsReached self.now.image self.now.config s }
    {
        self.config
    }

    /// Whether the unit runs the head, the oldest active task.
    pub fn is_head(&self, unit: UnitId) -> bool
        ensures { result ≡ runs_head self.now unit.0 }
    {
        match self.seats.first() {
            Some(seat) => seat.lease.unit.0 == unit.0,
            None => false,
        }
    }

    /// The lease from which the unit may run its task on, without the machine; none if the unit has no task. Its core
    /// is where the task's turns lead, taken again on what the tasks before it leave.
    #[tactic(auto, unfolding(crate::specs::Refusing::machine_at))]
    pub fn lease(&self, unit: UnitId) -> Option<&Lease>
        ensures { option_map (λ lease. lease.now) result ≡ lease_of self.now unit.0 }
    {
        match self.seat_of(unit) {
            Some((_, seat)) => Some(&seat.lease),
            None => None,
        }
    }

    /// The entry at which the next assignment should begin its task; none once the run has stopped.
    pub fn guess(&self) -> Option<u32>
        ensures { result ≡ guess (program self.now.image) self.now.image.entries self.now.plain }
    {
        self.sequencer.predict(last_end(&self.seats))
    }

    /// The entry of the next task to commit; none once the run has stopped.
    pub fn due(&self) -> Option<u32>
        ensures { result ≡ (plain_seq self.now.image self.now.plain.commits).due }
    {
        self.sequencer.due()
    }

    /// How many tasks were committed.
    pub fn committed_tasks(&self) -> u64
        ensures { result ≡ self.now.plain.commits }
    {
        self.commits
    }

    /// The word that the committed tasks have left: what running them one after another on one flat memory leaves.
    pub fn committed_memory(&self, addr: WordAddr) -> u32
        requires in_data { addr.0 < data_words self.now.image }
        ensures { result ≡ word_at (plain_seq self.now.image self.now.plain.commits).memory addr.0 }
    {
        self.bus.committed_memory(addr)
    }

    /// The unit whose line is the newest committed dirty one of the word, if there is one.
    pub fn newest_committed(&self, addr: WordAddr) -> Option<UnitId>
        requires in_data { addr.0 < data_words self.now.image }
        ensures { option_map (λ unit. unit.0) result ≡ bus_newest (bus_state self.now.bus) addr.0 }
    {
        self.bus.newest_committed(addr)
    }

    /// The units that have a committed version of the word. The unit of the oldest version is the first.
    pub fn committed_versions(&self, addr: WordAddr) -> UnitList
        requires in_data { addr.0 < data_words self.now.image }
        ensures { AreItsVersions (bus_state self.now.bus) addr.0 result.items }
    {
        self.bus.committed_versions(addr)
    }

    /// The word in the backing memory itself.
    pub fn backing(&self, addr: WordAddr) -> u32
        requires in_data { addr.0 < data_words self.now.image }
        ensures { (s : Standing) → StandsAt self.now s → result ≡ s.lines.backing addr.0 }
    {
        self.bus.backing(addr)
    }

    /// The bits and the value of the unit's valid line of the word.
    pub fn line_at(&self, unit: UnitId, addr: WordAddr) -> Option<(LineBits, u32)>
        ensures line { (s : Standing) → StandsAt self.now s
            → option_map line_shown result ≡ without_number (s.lines.lines unit.0 addr.0) }
        ensures valid { IfSome result (λ line. (bits_of line.0).valid ≡ true) }
    {
        if u32::from(unit.0) >= self.config.units {
            return None;
        }
        self.bus.line_at(unit, addr)
    }

    /// The words that the committed tasks have output, the oldest first: what running them one
    /// after another outputs.
    pub fn output(&self) -> &[u32]
        ensures { result.now ≡ (plain_seq self.now.image self.now.plain.commits).output }
    {
        &self.output
    }

    /// The exit or trap of the committed task that stopped the run.
    pub fn stopped(&self) -> Option<End>
        ensures { result ≡ (plain_seq self.now.image self.now.plain.commits).stopped }
    {
        self.stopped
    }

    /// Whether the history is full, so that no further event is accepted.
    #[tactic(auto, unfolding(crate::specs::Refusing::machine_at))]
    pub fn is_full(&self) -> bool
        ensures full { result ≡ is_full self.now }
        ensures refused { result ≡ history_full self.now.config (machine_at self.now) }
    {
        self.config.events <= self.accepted
    }

    /// How the run has ended: by the exit or trap that stopped it; otherwise it is full if no
    /// further event is accepted, otherwise open, with the entry that is due.
    pub fn ending(&self) -> Ending
        ensures { let seq = plain_seq self.now.image self.now.plain.commits in
            result ≡ ending_of (is_full self.now) seq.stopped seq.due }
    {
        Ending::of(self.is_full(), self.stopped, self.due())
    }
}
