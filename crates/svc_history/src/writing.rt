// How the entry of an event is written, from the event and its reply.

ghost use Rattle.std.specs.Prelude.{◌≡◌, ◌<◌, ◌^◌, IfSome, None, Option, option_map, option_and_then};
ghost use Rattle.svc_machine_laws.specs.Events.{IsEvent};
ghost use Rattle.svc_machine.specs.Events.{event_of};
ghost use Rattle.svc_history_laws.specs.Entries.{address_told, cause_of, count_of, first_of, kind_served, entry_asking};
ghost use Rattle.svc_history_laws.specs.Entries.{reply_told, served_told, telling, unit_served, why_cut, word_told};
ghost use Rattle.svc_history.specs.Writing.{IsSmall, entry_with, task_told};

use svc_base::{UnitId, WordAddr};
use svc_history_laws::{CutKind, Entry, Kind, ReplyKind, ServedKind};
use svc_machine::{Cause, Cut, Event, Reply, Served, What};

/// The fields of an entry that come from its event.
#[derive(Clone, Copy)]
pub(crate) struct EventFields {
    pub(crate) kind: Kind,
    pub(crate) unit: UnitId,
    pub(crate) arg: Option<u32>,
    pub(crate) local: Option<u8>,
    pub(crate) ask: Option<bool>,
}

// The fields of an event without a burst.
fn plain(kind: Kind, unit: UnitId, arg: Option<u32>) -> EventFields
    ensures { result ≡ record { kind = kind; unit = unit; arg = arg; local = None; ask = None } }
{
    EventFields {
        kind,
        unit,
        arg,
        local: None,
        ask: None,
    }
}

/// The fields that an event gives its entry.
pub(crate) fn fields_of(event: Event<'_>) -> EventFields
    ensures entry { entry_with result ≡ entry_asking (event_of event.entry) }
    ensures sound { IsEvent (event_of event.entry) }
{
    match event {
        Event::Assign { unit, guess } => plain(Kind::Assign, unit, Some(guess)),
        Event::Submit { burst } => {
            let _end = burst.end();
            EventFields {
                kind: Kind::Submit,
                unit: burst.unit(),
                arg: None,
                local: Some(burst.local() as u8),
                ask: Some(!burst.ask().is_nothing()),
            }
        }
        Event::Replace { unit, addr } => plain(Kind::Replace, unit, Some(addr.0)),
        Event::Cancel { unit } => plain(Kind::Cancel, unit, None),
        Event::Commit { by } => plain(Kind::Commit, by, None),
    }
}

// The name of what was done.
fn reply_kind(what: What) -> ReplyKind
    ensures { result ≡ reply_told what }
{
    match what {
        What::Assigned { .. } => ReplyKind::Assigned,
        What::Ran => ReplyKind::Ran,
        What::Loaded { .. } => ReplyKind::Loaded,
        What::Stored { .. } => ReplyKind::Stored,
        What::Emitted(_) => ReplyKind::Emitted,
        What::Trapped(_) => ReplyKind::Trapped,
        What::Replaced { .. } => ReplyKind::Replaced,
        What::Cancelled => ReplyKind::Cancelled,
        What::Committed { .. } => ReplyKind::Committed,
    }
}

// The word that it concerned.
fn address(what: What) -> Option<WordAddr>
    ensures { result ≡ address_told what }
{
    match what {
        What::Loaded { addr, .. } => Some(addr),
        What::Stored { addr, .. } => Some(addr),
        What::Replaced { addr } => Some(addr),
        _ => None,
    }
}

// The number that it reports.
fn word(what: What) -> Option<u32>
    requires { task_told what < 2 ^ 32 }
    ensures { result ≡ word_told what }
{
    match what {
        What::Assigned { entry, .. } => Some(entry),
        What::Loaded { value, .. } => Some(value),
        What::Stored { word, .. } => Some(word),
        What::Emitted(word) => Some(word),
        What::Trapped(number) => Some(u32::from(number)),
        What::Committed { task, .. } => Some(task.0 as u32),
        _ => None,
    }
}

// Who supplied the word that was read.
fn supplier(what: What) -> Option<Served>
    ensures { result ≡ served_told what }
{
    match what {
        What::Loaded { served, .. } => Some(served),
        What::Stored { served, .. } => served,
        _ => None,
    }
}

fn served_kind(served: Served) -> ServedKind
    ensures { result ≡ kind_served served }
{
    match served {
        Served::Hit => ServedKind::Hit,
        Served::Reuse => ServedKind::Reuse,
        Served::Version(_) => ServedKind::Version,
        Served::Spill => ServedKind::Spill,
        Served::Committed(_) => ServedKind::Committed,
        Served::Memory => ServedKind::Memory,
    }
}

fn served_unit(served: Served) -> Option<UnitId>
    ensures { result ≡ unit_served served }
{
    match served {
        Served::Version(unit) => Some(unit),
        Served::Committed(unit) => Some(unit),
        _ => None,
    }
}

fn cut_kind(cause: Cause) -> CutKind
    ensures { result ≡ why_cut cause }
{
    match cause {
        Cause::Violation(_) => CutKind::Violation,
        Cause::WrongGuess => CutKind::Guess,
        Cause::Cancelled => CutKind::Cancel,
    }
}

// Who supplied the word that was read, and from which unit.
fn supply(what: What) -> (Option<ServedKind>, Option<UnitId>)
    ensures kind { result.0 ≡ option_map kind_served (served_told what) }
    ensures unit { result.1 ≡ option_and_then unit_served (served_told what) }
{
    match supplier(what) {
        Some(served) => (Some(served_kind(served)), served_unit(served)),
        None => (None, None),
    }
}

// Why tasks were squashed, the first of them, and how many.
fn cut_fields(cut: Option<Cut>) -> (Option<CutKind>, Option<u32>, Option<u32>)
    requires { IfSome cut (λ c. first_of c < 2 ^ 32) }
    ensures cause { result.0 ≡ option_map cause_of cut }
    ensures first { result.1 ≡ option_map first_of cut }
    ensures count { result.2 ≡ option_map count_of cut }
{
    match cut {
        Some(cut) => (
            Some(cut_kind(cut.cause)),
            Some(cut.first.0 as u32),
            Some(cut.tasks),
        ),
        None => (None, None, None),
    }
}

/// The entry with these fields and what the event did.
pub(crate) fn telling(fields: EventFields, reply: &Reply) -> Entry
    requires { IsSmall reply.now }
    ensures { result ≡ telling reply.now (entry_with fields) }
{
    let what = reply.what;
    let (served, from) = supply(what);
    let (cause, first, squashed) = cut_fields(reply.cut);
    Entry {
        kind: fields.kind,
        unit: fields.unit,
        arg: fields.arg,
        local: fields.local,
        ask: fields.ask,
        reply: reply_kind(what),
        addr: address(what),
        word: word(what),
        served,
        from,
        cause,
        first,
        squashed,
    }
}
