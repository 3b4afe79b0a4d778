//! A write of a word by a task.

ghost use Rattle.std.specs.Prelude.{◌≡◌, ℕ, ◌+◌, ◌-◌, ◌^◌, ◌<◌, ◌≤◌, Option, Some, None, length, option_map, IfOk};
ghost use Rattle.std.specs.Prelude.{IfSome, OnOk, OnErr, MatchResult};
ghost use Rattle.svc_vol.specs.declared.list.TheConstants.{CAPACITY};
ghost use Rattle.svc_bus_laws.specs.Versioned.{victim_answer};
ghost use Rattle.svc_bus_laws.specs.LineTable.{LineTable, versioned_map};
ghost use Rattle.svc_bus_laws.specs.Steps.{write};
ghost use Rattle.svc_bus_laws.specs.BusState.{Agrees};
ghost use Rattle.svc_bus.specs.State.{bus_state};
ghost use Rattle.svc_bus.specs.Calls.{IsAtWork, RunsAt, victim_shown};
ghost use Rattle.svc_bus.specs.Looking.{LookUpsFrom};
ghost use Rattle.svc_bus.specs.Reads.{IsRefusedIfFull};

use crate::Bus;
use crate::request::place_of;
use crate::store::{Store, empty_spill, store_line};
use crate::victim::Victim;
use svc_base::{Refusal, TaskNo, UnitId, WordAddr};
use svc_cache::Probes;
use svc_vcl::plan_write;

// The victim as a write answers it: its number, and how many tasks are squashed.
fn victim_of(commits: u64, victim: Option<usize>, tasks: usize) -> Option<Victim>
    requires few_commits { commits ≤ 2 ^ 63 }
    requires few_tasks { tasks ≤ CAPACITY }
    requires within { IfSome victim (λ place. place < tasks) }
    ensures { option_map victim_shown result
        ≡ option_map (λ place. record { first = commits + place; tasks = tasks - place }) victim }
{
    match victim {
        Some(place) => Some(Victim {
            first: TaskNo(commits + place as u64),
            tasks: (tasks - place) as u32,
        }),
        None => None,
    }
}

impl Bus {
    /// The unit's task stores the word. The first later task that read the word too early is squashed with all after
    /// it, and named. It makes at most two look-ups for each unit.
    ///
    /// Errors: [`Refusal::SetFull`] if the unit's cache has no line of the word and no room for
    /// one. Then nothing changes.
    pub fn write(
        &mut self,
        unit: UnitId,
        word: WordAddr,
        value: u32,
    ) -> Result<Option<Victim>, Refusal>
        requires at_work { IsAtWork (bus_state self.old) unit.0 }
        requires in_memory { word.0 < (bus_state self.old).words }
        ensures refused { IsRefusedIfFull (bus_state self.old) unit.0 word.0 result }
        ensures unchanged { OnErr result (self.new ≡ self.old) }
        ensures victim { (t : LineTable) → (place : ℕ) → RunsAt (bus_state self.old) unit.0 t place
            → IfOk result (λ v. option_map victim_shown v ≡ victim_answer (versioned_map t) place word.0) }
        ensures table { (t : LineTable) → (place : ℕ) → RunsAt (bus_state self.old) unit.0 t place
            → OnOk result (Agrees (bus_state self.new) (write t place word.0 value)) }
        ensures probes { OnOk result (LookUpsFrom (bus_state self.old).caches (bus_state self.new).probes
            (bus_state self.old).caches) }
    {
        let place = place_of(&self.queue, unit);
        let mut probes = Probes::new();
        self.list.fill(&self.caches, &self.queue, word, &mut probes);
        let plan = plan_write(&self.list, unit, place, value, &mut self.changed);
        let tasks = self.queue.len();
        let left = plan.victim.unwrap_or(tasks);
        let store = Store {
            unit,
            word,
            line: plan.line,
            previous: plan.previous,
            changed: &self.changed,
            tasks_left: left,
        };
        store_line(
            &mut self.caches,
            &mut self.backing,
            &self.queue,
            &self.list,
            &store,
            &mut probes,
        )?;
        empty_spill(&mut self.spill, place, word);
        self.queue.cut_from(left);
        self.probes = probes.searches;
        Ok(victim_of(self.commits, plan.victim, tasks))
    }
}
