// What a unit's thread does.

ghost use Rattle.std.specs.Prelude.{◌≡◌, ◌<◌, All, IfOk, IfErr, vec_len, vec_capacity};
ghost use Rattle.svc_threads.specs.Ports.{IsOf, unit_of};

use crate::board::{BoardPass, BoardRow};
use crate::fault::RunError;
use crate::port::{Gate, Phase, Port};
use crossbeam_utils::Backoff;
use std::alloc::Allocator;
use std::sync::Wait;
use svc_base::{Refusal, UnitId, WordAddr};
use svc_core::{Burst, MAX_BURST_TURNS};
use svc_history::{Event, Move, Slip};
use svc_image::Image;

// How a turn of a unit's thread ended.
#[derive(Clone, Copy)]
enum Turn {
    // Another turn may follow.
    Went,
    // It can't go on before another unit's event.
    Stalled,
    // The thread ends.
    Left,
}

// What came of asking for an event.
#[derive(Clone, Copy)]
enum Tried {
    Accepted,
    Refused(Refusal),
    // The gate said no.
    Closed,
    // There is nothing that the unit can do.
    Waits,
    // The run has ended.
    Ended,
}

/// The body of a unit's thread: at most `turns` turns. Each turn reads the board. If the last turn stalled and the
/// board shows the same numbers, it stalls again, without the lock. Otherwise the unit takes a glance and makes its
/// next move: it begins a task at the guess, makes a burst of its task without the lock and submits it, or commits its
/// head. If its cache is full it replaces a line in the same turn. It stalls when it must wait or the line is pinned,
/// and ends with the run.
///
/// The slips of the accepted events come back in order. Room for one is made before each event.
///
/// Errors: [`RunError::Memory`]; the events until then stand, and their slips are dropped.
pub fn run_unit<P: Port, G: Gate, A: Allocator, R: Wait>(
    rt: &R,
    alloc: A,
    port: &P,
    unit: UnitId,
    mut pass: BoardPass,
    image: &Image,
    turns: u32,
    gate: &G,
) -> Result<Vec<Slip, A>, RunError>
    requires { pass.board ≡ P.board_of port.now }
    ensures own { IfOk result (λ v. All (IsOf unit) v.items) }
    ensures err { IfErr result (λ e. e ≡ RunError.Memory) }
{
    let mut slips = Vec::new(alloc);
    let mut burst = Burst::empty(unit);
    let backoff = Backoff::new();
    let mut stalled_at: Option<BoardRow> = None;
    for _ in 0..turns {
        let row = port.board().read(rt, &mut pass);
        if stalled_at == Some(row) {
            backoff.snooze();
            continue;
        }
        match take_turn(rt, port, unit, image, &mut burst, gate, &mut slips)? {
            Turn::Went => {
                stalled_at = None;
                backoff.reset();
            }
            Turn::Stalled => {
                stalled_at = Some(row);
                backoff.snooze();
            }
            Turn::Left => break,
        }
    }
    Ok(slips)
}

// Makes the unit's next move, and replaces a line in the same turn if there is no room for it.
fn take_turn<P: Port, G: Gate, A: Allocator, R: Wait>(
    rt: &R,
    port: &P,
    unit: UnitId,
    image: &Image,
    burst: &mut Burst,
    gate: &G,
    slips: &mut Vec<Slip, A>,
) -> Result<Turn, RunError>
    ensures own { All (IsOf unit) slips.old.items → All (IsOf unit) slips.new.items }
    ensures err { IfErr result (λ e. e ≡ RunError.Memory) }
{
    let tried = match make_move(rt, port, unit, image, burst, gate, slips)? {
        Tried::Refused(Refusal::SetFull(addr)) => {
            attempt(rt, port, unit, Event::Replace { unit, addr }, gate, slips)?
        }
        tried => tried,
    };
    Ok(ended(tried))
}

// Asks for the event that the unit does next, given a glance. A burst is made without the lock, in the place of the
// last one.
fn make_move<P: Port, G: Gate, A: Allocator, R: Wait>(
    rt: &R,
    port: &P,
    unit: UnitId,
    image: &Image,
    burst: &mut Burst,
    gate: &G,
    slips: &mut Vec<Slip, A>,
) -> Result<Tried, RunError>
    ensures own { All (IsOf unit) slips.old.items → All (IsOf unit) slips.new.items }
    ensures err { IfErr result (λ e. e ≡ RunError.Memory) }
{
    let Ok(glance) = port.lease(rt, unit) else {
        return Ok(Tried::Ended);
    };
    match glance.next_move() {
        Move::Ended => Ok(Tried::Ended),
        Move::Wait => Ok(Tried::Waits),
        Move::Begin { guess } => {
            attempt(rt, port, unit, Event::Assign { unit, guess }, gate, slips)
        }
        Move::Commit => attempt(rt, port, unit, Event::Commit { by: unit }, gate, slips),
        Move::RunOn(lease) => {
            burst.refill(lease, image, MAX_BURST_TURNS);
            attempt(rt, port, unit, Event::Submit { burst }, gate, slips)
        }
    }
}

// Asks for one event, after making room for its slip. The gate is asked before and after.
fn attempt<P: Port, G: Gate, A: Allocator, R: Wait>(
    rt: &R,
    port: &P,
    unit: UnitId,
    event: Event<'_>,
    gate: &G,
    slips: &mut Vec<Slip, A>,
) -> Result<Tried, RunError>
    requires { unit_of event ≡ unit }
    ensures own { All (IsOf unit) slips.old.items → All (IsOf unit) slips.new.items }
    ensures err { IfErr result (λ e. e ≡ RunError.Memory) }
{
    slips.reserve(1)?;
    if !gate.pass(unit, Phase::Before(event)) {
        return Ok(Tried::Closed);
    }
    let tried = ask(rt, port, unit, event, slips);
    if gate.pass(unit, Phase::After) {
        Ok(tried)
    } else {
        Ok(Tried::Closed)
    }
}

// Asks for one event, and keeps its slip in the room made for it.
fn ask<P: Port, A: Allocator, R: Wait>(
    rt: &R,
    port: &P,
    unit: UnitId,
    event: Event<'_>,
    slips: &mut Vec<Slip, A>,
) -> Tried
    requires unit { unit_of event ≡ unit }
    requires room { vec_len slips.old < vec_capacity slips.old }
    ensures own { All (IsOf unit) slips.old.items → All (IsOf unit) slips.new.items }
{
    match port.apply(rt, event) {
        Ok(slip) => {
            let Ok(()) = slips.push(slip) else {
                unreachable!()
            };
            Tried::Accepted
        }
        Err(refusal) => Tried::Refused(refusal),
    }
}

// How the turn ends: if the line is pinned, the unit waits for another unit's event.
fn ended(tried: Tried) -> Turn {
    match tried {
        Tried::Accepted => Turn::Went,
        Tried::Refused(Refusal::Pinned) | Tried::Waits => Turn::Stalled,
        Tried::Refused(_) => Turn::Went,
        Tried::Closed | Tried::Ended => Turn::Left,
    }
}
