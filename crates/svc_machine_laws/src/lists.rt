// Every list of events.

ghost use Rattle.std.specs.Prelude.{◌≡◌, ℕ, ◌≤◌, List, Some, length, slice_get};
ghost use Rattle.std.specs.List.{AllByRecursion};
ghost use Rattle.svc_base.specs.declared.config.Config.{Config};
ghost use Rattle.svc_image.specs.Image.{Image, IsImage};
ghost use Rattle.svc_core_laws.specs.Program.{over, wrote, seq};
ghost use Rattle.svc_core_laws.specs.Words.{program};
ghost use Rattle.svc_bus_laws.specs.Supplier.{supplier, supplied_value};
ghost use Rattle.svc_machine_laws.specs.PlainMachine.{Task, memory_at};
ghost use Rattle.svc_machine_laws.specs.MachineLaws.{run_at};
ghost use Rattle.svc_machine_laws.specs.Events.{Event, IsEvent};
ghost use Rattle.svc_machine_laws.specs.Standing.{Standing, whole_of, opened_at, whole_opened, after_events};
ghost use Rattle.svc_machine_laws.specs.Standing.{whole_after_events, accepted_commits};
ghost use Rattle.svc_machine_laws.specs.Reached.{IsReached};
ghost use Rattle.svc_machine_laws.specs.Headline.{IsSequential};

/// What holds of every standing that events lead to holds before any event.
pub fn opening_is_reached()
    ensures { (img : Image) → IsImage img → (config : Config) → (first : ℕ)
        → IsReached img config (opened_at img config first) }
{}

/// Every list of events keeps it.
pub fn list_keeps()
    ensures { (img : Image) → IsImage img → (config : Config) → (s : Standing) → (events : List Event)
        → AllByRecursion IsEvent events → IsReached img config s
        → IsReached img config (after_events img config s events) }
{}

/// After every list of events the whole machine, which runs nothing again, is what the plain machine says of it.
pub fn whole_machine_anew()
    ensures { (img : Image) → IsImage img → (config : Config) → (s : Standing) → (events : List Event)
        → AllByRecursion IsEvent events → IsReached img config s
        → whole_of img (after_events img config s events) ≡ whole_after_events img config (whole_of img s) events }
{}

/// A standing that events lead to has committed the first tasks of the sequential run, and nothing else.
pub fn reached_is_sequential()
    ensures { (img : Image) → IsImage img → (config : Config) → (s : Standing) → IsReached img config s
        → IsSequential img s.plain.commits (whole_of img s) }
{}

/// There are at most as many active tasks as units.
pub fn tasks_are_few()
    ensures { (img : Image) → (config : Config) → (s : Standing) → IsReached img config s
        → length s.plain.tasks ≤ config.units }
{}

/// The supplier of an active task's read holds the word that the task's run sees, when it is run again.
pub fn supplier_holds()
    ensures { (img : Image) → (config : Config) → (s : Standing) → IsReached img config s → (place a : ℕ) → (t : Task)
        → slice_get s.plain.tasks place ≡ Some t → supplied_value s.lines place a (supplier s.lines place a)
        ≡ Some (over (wrote (run_at (program img) s.plain place t).log)
        (memory_at (program img) (seq (program img) s.plain.commits).memory s.plain.tasks place) a) }
{}

/// The headline: for every image, every configuration and every list of events, after these events the
/// committed tasks are the first k tasks of the program's sequential order, where k is the number of
/// accepted commits, and committed memory and output are exactly what running those k tasks one after
/// another on one flat memory of bytes leaves.
pub fn headline()
    ensures { (img : Image) → IsImage img → (config : Config) → (first : ℕ) → (events : List Event)
        → AllByRecursion IsEvent events
        → let opened = whole_opened img config first in
        IsSequential img (accepted_commits img config opened events) (whole_after_events img config opened events) }
{}
