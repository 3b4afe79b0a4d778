//! A whole run, and one that goes on from where a recorder stands.

ghost use Rattle.std.specs.Prelude.{◌≡◌, ◌<◌, ◌≤◌, IfOk, IfErr, OnOk, OnErr};
ghost use Rattle.svc_base.specs.declared.limits.TheConstants.{MAX_BURST_TURNS};
ghost use Rattle.svc_schedule.specs.Steps.{GoesOn, IsScheduled};

use crate::bursts::first_bursts;
use crate::policy::Policy;
use crate::step::{keeps, take_step};
use std::alloc::Global;
use svc_base::{Config, OpenError};
use svc_history::Recorder;
use svc_image::Image;

/// Runs the image's tasks on all units of the configuration in one host thread, from before any event on, as
/// [`continue_schedule`] goes on.
///
/// After the opening it takes no memory.
///
/// Errors: [`OpenError::Memory`].
pub fn run_schedule<P: Policy>(
    alloc: Global,
    image: &Image,
    config: Config,
    burst: u32,
    policy: &mut P,
) -> Result<Recorder, OpenError>
    requires some { 0 < burst }
    requires few { burst ≤ MAX_BURST_TURNS }
    ensures run { IfOk result (IsScheduled P.gives image.now config burst policy.old policy.new) }
    ensures err { IfErr result (λ e. e ≡ OpenError.Memory) }
{
    let Ok(own) = image.copy(alloc) else {
        return Err(OpenError::Memory);
    };
    let mut recorder = Recorder::open(alloc, own, config)?;
    continue_schedule(alloc, &mut recorder, burst, policy)?;
    Ok(recorder)
}

/// Goes on from where the recorder stands, on all its units in one host thread: as many steps as the configuration has
/// turns, unless the run ends before. A step asks the units in the policy's order for their moves, and then those that
/// it leaves out by number, until one makes a move that is accepted. So each step makes exactly one event. A unit runs
/// its task on by at most `burst` turns at a time, 1 to [`svc_core::MAX_BURST_TURNS`].
///
/// It takes memory for the units' bursts before the first step, and none after that.
///
/// Errors: [`OpenError::Memory`]; the recorder and the policy are unchanged.
pub fn continue_schedule<P: Policy>(
    alloc: Global,
    recorder: &mut Recorder,
    burst: u32,
    policy: &mut P,
) -> Result<(), OpenError>
    requires some { 0 < burst }
    requires few { burst ≤ MAX_BURST_TURNS }
    ensures goes { OnOk result (GoesOn P.gives burst policy.old policy.new recorder.old recorder.new) }
    ensures err { IfErr result (λ e. e ≡ OpenError.Memory) }
    ensures unchanged { OnErr result (recorder.new ≡ recorder.old) }
    ensures same { OnErr result (policy.new ≡ policy.old) }
{
    let machine = recorder.machine();
    let turns = machine.config().turns;
    let mut bursts = first_bursts(alloc, machine.image(), burst)?;
    for _ in 0..turns {
        if recorder.has_ended() {
            break;
        }
        let order = policy.order(recorder);
        take_step(recorder, &mut bursts, order.as_slice(), burst);
    }
    keeps(recorder);
    Ok(())
}
