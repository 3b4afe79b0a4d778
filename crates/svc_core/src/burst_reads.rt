// What a burst says of its turns.

ghost use Rattle.std.specs.Prelude.{◌≡◌, ◌≤◌, ◌+◌};
ghost use Rattle.svc_base.specs.declared.limits.TheConstants.{MAX_BURST_TURNS};
ghost use Rattle.svc_core_laws.specs.Bursts.{Follows, ask_turns, IsReady};

use crate::burst::Burst;
use crate::core_state::Core;
use svc_base::UnitId;
use svc_core_laws::Ask;
use svc_image::Fetched;

impl Burst {
    /// The unit that runs the task.
    pub fn unit(&self) -> UnitId
        ensures { result ≡ self.now.unit }
    {
        self.unit
    }

    /// The number of the task's assignment to the unit.
    pub fn epoch(&self) -> u64
        ensures { result ≡ self.now.epoch }
    {
        self.epoch
    }

    /// Where the burst starts.
    pub fn start(&self) -> &Core
        ensures { result.now ≡ self.now.start }
    {
        &self.start
    }

    /// What was looked at, the oldest first: at most one look more than turns.
    pub fn looks(&self) -> &[Fetched]
        ensures { result.now ≡ self.now.looks }
    {
        self.looks.as_slice()
    }

    /// How many turns are done.
    pub fn local(&self) -> u32
        ensures { result ≡ self.now.local }
    {
        self.local
    }

    /// What the next turn asks.
    pub fn ask(&self) -> Ask
        ensures ask { result ≡ self.now.ask }
        ensures ready { IsReady self.now.end result }
    {
        self.ask
    }

    /// Where the turns that are done lead: the end of the turns at the looks from the start. The ask is the asked turn
    /// there.
    pub fn end(&self) -> &Core
        ensures end { result.now ≡ self.now.end }
        ensures follows { Follows self.now }
        ensures counts { (self.now.end.count ≡ self.now.start.count + self.now.local)
            × (self.now.end.limit ≡ self.now.start.limit) }
        ensures few { self.now.local + ask_turns self.now.ask ≤ MAX_BURST_TURNS }
    {
        &self.end
    }
}
