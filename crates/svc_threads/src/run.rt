// One thread per unit.

ghost use Rattle.std.specs.Prelude.{◌≡◌, ◌<◌, ◌^◌, map, IfOk};
ghost use Rattle.svc_threads.specs.Outcomes.{IsOutcome};

use crate::board::BoardPass;
use crate::bus::SharedBus;
use crate::fault::RunError;
use crate::outcome::{Outcome, reconcile};
use crate::port::{Gate, Port};
use crate::unit::run_unit;
use std::alloc::Global;
use std::sync::Wait;
use std::thread;
use std::thread::{JoinHandle, Threads};
use svc_base::{Config, UnitId};
use svc_history::{Recorder, Slip};
use svc_image::Image;

/// A port that gives its recorder back once no thread shares it any more.
pub trait Shared: Port + Sync + Drop {
    /// The recorder, with the history that the port leaves.
    fn into_recorder(self) -> Recorder;
}

impl Shared for SharedBus {
    fn into_recorder(self) -> Recorder {
        SharedBus::into_recorder(self)
    }
}

/// Runs the image's tasks on all units, each in a thread of its own, and compares what the threads bring back with the
/// history. Each thread takes the configuration's turns.
///
/// Errors: [`RunError::Memory`] and [`RunError::NotStarted`], after which the threads that were started have ended.
pub fn run_units<G: Gate + Sync, R: Threads + Wait + Sync>(
    rt: &R,
    alloc: Global,
    image: &Image,
    config: Config,
    gate: &G,
) -> Result<Outcome, RunError>
    ensures { IfOk result (λ o. IsOutcome image.now config o.recorder (map (λ v. v.items) o.slips.items)) }
{
    let Ok(own) = image.copy(alloc) else {
        return Err(RunError::Memory);
    };
    let recorder = Recorder::open(alloc, own, config)?;
    let (bus, reader) = SharedBus::open(rt, alloc, recorder)?;
    run_over(rt, alloc, bus, reader, image, config, gate)
}

/// Runs all units over a port, each in a thread of its own, and compares what the threads bring back with the history
/// that the port leaves, as [`run_units`] does over a bus. The reader is a pass of the port's board. A port may tell
/// its threads something other than what it records, and give back any recorder.
///
/// Errors: [`RunError::Memory`] and [`RunError::NotStarted`], after which the threads that were started have ended; and
/// those of [`reconcile`].
pub fn run_over<P: Shared, G: Gate + Sync, R: Threads + Wait + Sync>(
    rt: &R,
    alloc: Global,
    port: P,
    reader: BoardPass,
    image: &Image,
    config: Config,
    gate: &G,
) -> Result<Outcome, RunError>
    requires { reader.board ≡ P.board_of port }
    ensures { IfOk result (λ o. IsOutcome image.now config o.recorder (map (λ v. v.items) o.slips.items)) }
{
    let slips = run_all(rt, alloc, &port, reader, image, config, gate)?;
    reconcile(image, config, port.into_recorder(), slips)
}

// What each of the threads brings back, in their order.
fn join_all<R: Threads>(
    rt: &R,
    alloc: Global,
    threads: Vec<JoinHandle<Result<Vec<Slip>, RunError>>>,
) -> Result<Vec<Vec<Slip>>, RunError> {
    let mut slips = Vec::with_capacity(alloc, threads.len())?;
    for child in threads {
        slips.push(child.join(rt)?)?;
    }
    Ok(slips)
}

// Runs each unit in a thread of its own, and returns what each brought back.
fn run_all<P: Port + Sync, G: Gate + Sync, R: Threads + Wait + Sync>(
    rt: &R,
    alloc: Global,
    port: &P,
    mut reader: BoardPass,
    image: &Image,
    config: Config,
    gate: &G,
) -> Result<Vec<Vec<Slip>>, RunError>
    requires { reader.board ≡ P.board_of port.now }
{
    thread::scope(
        thread::scope_env(),
        rt,
        |scope| -> Result<Vec<Vec<Slip>>, RunError>
            requires board { reader.board ≡ P.board_of port.now }
            requires few { config.units < 2 ^ 8 }
        {
            let mut threads = Vec::with_capacity(alloc, config.units as usize)?;
            for unit in 0..config.units {
                let unit = UnitId(unit as u8);
                let pass = port.board().split(&mut reader);
                let body = move || -> Result<Vec<Slip>, RunError>
                    requires { pass.board ≡ P.board_of port.now }
                { run_unit(rt, alloc, port, unit, pass, image, config.turns, gate) };
                match scope.spawn(body) {
                    Ok(child) => threads.push(child)?,
                    Err(_) => return Err(RunError::NotStarted),
                }
            }
            join_all(rt, alloc, threads)
        },
    )
}
