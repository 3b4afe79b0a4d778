//! The asked turn of a unit's task, on the bus.

ghost use Rattle.std.specs.Prelude.{◌≡◌, ◌<◌, ◌≤◌, ◌+◌, ◌%◌, ◌^◌, ℕ, Some, None, length, option_map};
ghost use Rattle.std.specs.Prelude.{IfErr, IfOk, OnErr, OnOk};
ghost use Rattle.std.specs.Result.{result_err};
ghost use Rattle.svc_base.specs.declared.limits.TheConstants.{MAX_TASK_OUTPUT};
ghost use Rattle.svc_core_laws.specs.declared.end.End.TheVariants as end;
ghost use Rattle.svc_core_laws.specs.Bursts.{IsReady};
ghost use Rattle.svc_core_laws.specs.Local.{ends};
ghost use Rattle.svc_core_laws.specs.Numbers.{load_bytes, store_bytes};
ghost use Rattle.svc_core_laws.specs.Program.{Want, Emit};
ghost use Rattle.svc_core_laws.specs.Turns.{access_trap, store_trap, arrives, data_words, outputs};
ghost use Rattle.svc_core_laws.specs.Words.{wants_load, wants_store};
ghost use Rattle.svc_bus_laws.specs.LineTable.{LineTable};
ghost use Rattle.svc_bus_laws.specs.Steps.{write};
ghost use Rattle.svc_bus_laws.specs.BusState.{Agrees};
ghost use Rattle.svc_bus.specs.Calls.{RunsAt, full_refusal, victim_shown};
ghost use Rattle.svc_bus.specs.State.{bus_state};
ghost use Rattle.svc_machine_laws.specs.WholeMachine.{at_core, seat_turn};
ghost use Rattle.svc_machine_laws.specs.Events.{want_of};
ghost use Rattle.svc_machine_laws.specs.Refusals.{asked_word};
ghost use Rattle.svc_machine.specs.Asked.{HasRoomYet, HasTurn, IsAnswered, IsPrepared, IsRunning};
ghost use Rattle.svc_machine.specs.Asked.{stored_cut, violation_cut};
ghost use Rattle.svc_machine.specs.Kept.{whole_seat};

use crate::seat::Seat;
use svc_base::{Refusal, Served, UnitId, WordAddr};
use svc_bus::{Bus, Victim};
use svc_core::{Access, Core, load_place, loaded_value, store_place, stored_word};
use svc_core_laws::Ask;
use svc_image::Image;
use svc_machine_laws::{Cause, Cut, Reply, What};
use svc_rv32i::{LoadKind, Register, StoreKind};

/// Moves the task in the seat to this core, and does its asked turn, if there is one. A load or store that is
/// misaligned or outside the data traps, and so does a store to a read-only word. A store of less than a word reads its
/// word and writes it. An output word waits in the seat. The tasks that a store squashes stay in their seats: the
/// answer names them.
///
/// Errors: the bus's [`Refusal::SetFull`], if the unit's cache has no room for the asked word. Then nothing changes.
pub(crate) fn do_asked(
    image: &Image,
    bus: &mut Bus,
    seat: &mut Seat,
    core: &Core,
    ask: Ask,
) -> Result<Reply, Refusal>
    requires ready { IsReady core.now ask }
    requires running { IsRunning (bus_state bus.old) seat.old.lease.unit.0 }
    requires size { (bus_state bus.old).words ≡ data_words image.now }
    requires waiting { asked_word image.now ask ≡ None → length seat.old.waiting.items ≡ core.now.emitted }
    ensures { IsAnswered image.now core.now ask (want_of image.now core.now ask)
        seat.old seat.new bus.old bus.new result }
{
    match ask {
        Ask::Nothing => {
            seat.lease.core = *core;
            Ok(without_cut(What::Ran))
        }
        Ask::Load { kind, rd, addr } => do_load(image, bus, seat, core, kind, rd, addr),
        Ask::Store { kind, addr, value } => do_store(image, bus, seat, core, kind, addr, value),
        Ask::Emit(word) => {
            seat.lease.core = *core;
            Ok(do_emit(image, seat, word))
        }
    }
}

fn do_load(
    image: &Image,
    bus: &mut Bus,
    seat: &mut Seat,
    core: &Core,
    kind: LoadKind,
    rd: Register,
    addr: u32,
) -> Result<Reply, Refusal>
    requires { HasTurn image.now core.now (bus_state bus.old) seat.old.lease.unit.0 }
    ensures { let trap = access_trap (data_words image.now) (load_bytes kind) addr in
        IsAnswered image.now core.now (Ask.Load kind rd addr)
        (Some (wants_load image.now core.now kind rd addr trap)) seat.old seat.new bus.old bus.new result }
{
    match load_place(kind, addr, image.data_words().len() as u32) {
        Err(trap) => Ok(trap_at(seat, core, trap)),
        Ok(access) => {
            let addr = WordAddr(access.word);
            let (word, served) = bus.read(seat.lease.unit, addr)?;
            let value = loaded_value(kind, access.lane, word);
            seat.lease.core = *core;
            seat.lease.core.finish_load(image, rd, value);
            Ok(without_cut(What::Loaded {
                addr,
                value,
                served,
            }))
        }
    }
}

fn do_store(
    image: &Image,
    bus: &mut Bus,
    seat: &mut Seat,
    core: &Core,
    kind: StoreKind,
    addr: u32,
    value: u32,
) -> Result<Reply, Refusal>
    requires { HasTurn image.now core.now (bus_state bus.old) seat.old.lease.unit.0 }
    ensures { let trap = store_trap (data_words image.now) image.now.read_only (store_bytes kind) addr in
        IsAnswered image.now core.now (Ask.Store kind addr value)
        (Some (wants_store image.now core.now kind addr value trap)) seat.old seat.new bus.old bus.new result }
{
    match store_place(
        kind,
        addr,
        image.data_words().len() as u32,
        image.read_only(),
    ) {
        Err(trap) => Ok(trap_at(seat, core, trap)),
        Ok(access) => {
            let addr = WordAddr(access.word);
            let (word, served) = word_to_store(bus, seat.lease.unit, kind, access, value)?;
            let cut = write(bus, seat.lease.unit, addr, word)?;
            seat.lease.core = *core;
            seat.lease.core.finish_store(image);
            Ok(Reply {
                what: What::Stored { addr, word, served },
                cut,
            })
        }
    }
}

// Outputs a word, which waits for the task's commit.
fn do_emit(image: &Image, seat: &mut Seat, word: u32) -> Reply
    requires going { seat.old.lease.core.done ≡ None }
    requires in_time { seat.old.lease.core.count < seat.old.lease.core.limit }
    requires few { seat.old.lease.core.emitted < MAX_TASK_OUTPUT }
    requires waiting { length seat.old.waiting.items ≡ seat.old.lease.core.emitted }
    ensures seat { whole_seat seat.new
        ≡ seat_turn (Emit word (arrives image.now (outputs seat.old.lease.core))) (λ a. 0) (whole_seat seat.old) }
    ensures reply { result ≡ record { what = What.Emitted word; cut = None } }
{
    seat.waiting.push(word);
    seat.lease.core.finish_emit(image);
    without_cut(What::Emitted(word))
}

// Moves the task to this core, where it traps.
fn trap_at(seat: &mut Seat, core: &Core, trap: u8) -> Reply
    requires { core.now.done ≡ None }
    ensures seat { whole_seat seat.new ≡ at_core (ends (end.Trap trap) core.now) (whole_seat seat.old) }
    ensures reply { result ≡ record { what = What.Trapped trap; cut = None } }
{
    seat.lease.core = *core;
    seat.lease.core.trap(trap);
    without_cut(What::Trapped(trap))
}

fn without_cut(what: What) -> Reply
    ensures { result ≡ record { what = what; cut = None } }
{
    Reply { what, cut: None }
}

// The whole word that a store leaves. A store of less than a word reads the whole word and replaces these bytes of it;
// the answer then says who served that read.
//
// Errors: the bus's, if there is no room for the word that is read. Then nothing changes.
fn word_to_store(
    bus: &mut Bus,
    unit: UnitId,
    kind: StoreKind,
    access: Access,
    value: u32,
) -> Result<(u32, Option<Served>), Refusal>
    requires running { IsRunning (bus_state bus.old) unit.0 }
    requires in_memory { access.word < (bus_state bus.old).words }
    requires fits { access.lane + store_bytes kind ≤ 4 }
    requires aligned { access.lane % store_bytes kind ≡ 0 }
    ensures refused { IfErr result (λ e. full_refusal (bus_state bus.old) unit.0 access.word ≡ Some e) }
    ensures unchanged { OnErr result (bus.new ≡ bus.old) }
    ensures room { OnOk result (HasRoomYet bus.old bus.new unit.0 access.word) }
    ensures prepared { (t : LineTable) → (place : ℕ) → RunsAt (bus_state bus.old) unit.0 t place
        → IfOk result (λ r. IsPrepared t unit.0 place access.word kind access.lane value (bus_state bus.new) r.0 r.1) }
{
    match kind {
        StoreKind::Word => Ok((value, None)),
        _ => {
            let (old, served) = bus.read(unit, WordAddr(access.word))?;
            Ok((stored_word(kind, access.lane, value, old), Some(served)))
        }
    }
}

// Stores the word for the unit's task, and answers which tasks that squashed.
//
// Errors: the bus's, if the unit has no room for the word. Then nothing changes.
fn write(bus: &mut Bus, unit: UnitId, addr: WordAddr, word: u32) -> Result<Option<Cut>, Refusal>
    requires running { IsRunning (bus_state bus.old) unit.0 }
    requires in_memory { addr.0 < (bus_state bus.old).words }
    ensures refused { result_err result ≡ full_refusal (bus_state bus.old) unit.0 addr.0 }
    ensures unchanged { OnErr result (bus.new ≡ bus.old) }
    ensures cut { (t : LineTable) → (place : ℕ) → RunsAt (bus_state bus.old) unit.0 t place
        → IfOk result (λ cut. cut ≡ stored_cut t place addr.0) }
    ensures table { (t : LineTable) → (place : ℕ) → RunsAt (bus_state bus.old) unit.0 t place
        → OnOk result (Agrees (bus_state bus.new) (write t place addr.0 word)) }
{
    let victim = bus.write(unit, addr, word)?;
    Ok(violation_cut(addr, victim))
}

// The tasks that a store of the word squashed, as a reply names them.
fn violation_cut(addr: WordAddr, victim: Option<Victim>) -> Option<Cut>
    ensures { result ≡ option_map (λ v. violation_cut addr.0 (victim_shown v)) victim }
{
    match victim {
        Some(victim) => Some(Cut {
            cause: Cause::Violation(addr),
            first: victim.first,
            tasks: victim.tasks,
        }),
        None => None,
    }
}
