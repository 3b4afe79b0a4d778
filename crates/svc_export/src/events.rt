// The events of a trace for viewers, as JSON objects.

ghost use Rattle.std.specs.Prelude.{◌≡◌, ◌++◌, OnOk};
ghost use Rattle.svc_export.specs.Events.{closing, event_end, flow_end, flow_ends, flow_text, instant, number_field};
ghost use Rattle.svc_export.specs.Events.{opening, slice, supplier_field, task_field, track, word_field};

use crate::flows::Flow;
use std::alloc::AllocError;
use svc_base::WordAddr;
use svc_history_laws::ServedKind;
use svc_report::Word;
use svc_task_runs::TaskRun;
use svc_text::{Part, put_parts};

/// The list of events, with the process of all tracks.
#[tactic(auto, unfolding(crate::specs::Events::opening))]
pub(crate) fn put_opening(text: &mut Vec<u8>) -> Result<(), AllocError>
    ensures { OnOk result (text.new.items ≡ text.old.items ++ opening) }
{
    put_parts(
        text,
        &[Part::Text(
            "{\"traceEvents\":[\n{\"name\":\"process_name\",\"ph\":\"M\",\"pid\":0,\"args\":{\"name\":\"svcsim\"}}",
        )],
    )
}

/// Its end.
#[tactic(auto, unfolding(crate::specs::Events::closing))]
pub(crate) fn put_closing(text: &mut Vec<u8>) -> Result<(), AllocError>
    ensures { OnOk result (text.new.items ≡ text.old.items ++ closing) }
{
    put_parts(text, &[Part::Text("\n]}\n")])
}

/// The name of a unit's track.
#[tactic(auto, unfolding(crate::specs::Events::track))]
pub(crate) fn put_track(text: &mut Vec<u8>, unit: u64) -> Result<(), AllocError>
    ensures { OnOk result (text.new.items ≡ text.old.items ++ track unit) }
{
    put_parts(
        text,
        &[
            Part::Text(",\n{\"name\":\"thread_name\",\"ph\":\"M\",\"pid\":0,\"tid\":"),
            Part::Number(unit),
            Part::Text(",\"args\":{\"name\":\"unit "),
            Part::Number(unit),
            Part::Text("\"}}"),
        ],
    )
}

/// A task that begins at an address, on a unit, from an entry on and for as many.
#[tactic(auto, unfolding(crate::specs::Events::slice))]
pub(crate) fn put_slice(
    text: &mut Vec<u8>,
    task: u64,
    address: u64,
    fate: &str,
    unit: u64,
    start: u64,
    count: u64,
) -> Result<(), AllocError>
    ensures { OnOk result (text.new.items ≡ text.old.items ++ slice task address fate.now unit start count) }
{
    put_parts(
        text,
        &[
            Part::Text(",\n{\"name\":\"task "),
            Part::Number(task),
            Part::Text("\",\"cat\":\""),
            Part::Text(fate),
            Part::Text("\",\"ph\":\"X\",\"ts\":"),
            Part::Number(start),
            Part::Text(",\"dur\":"),
            Part::Number(count),
            Part::Text(",\"pid\":0,\"tid\":"),
            Part::Number(unit),
            Part::Text(",\"args\":{\"task\":"),
            Part::Number(task),
            Part::Text(",\"address\":"),
            Part::Number(address),
            Part::Text("}}"),
        ],
    )
}

/// A number under a key, if there is one.
pub(crate) fn put_number(
    text: &mut Vec<u8>,
    key: &str,
    number: Option<u64>,
) -> Result<(), AllocError>
    ensures { OnOk result (text.new.items ≡ text.old.items ++ number_field key.now number) }
{
    match number {
        Some(number) => put_parts(
            text,
            &[
                Part::Text(",\""),
                Part::Text(key),
                Part::Text("\":"),
                Part::Number(number),
            ],
        ),
        None => Ok(()),
    }
}

/// A task's number, if there is a task.
pub(crate) fn put_task(text: &mut Vec<u8>, task: Option<TaskRun>) -> Result<(), AllocError>
    ensures { OnOk result (text.new.items ≡ text.old.items ++ task_field task) }
{
    match task {
        Some(task) => put_number(text, "task", Some(task.number)),
        None => Ok(()),
    }
}

/// A word's number, if there is a word.
pub(crate) fn put_word(text: &mut Vec<u8>, word: Option<WordAddr>) -> Result<(), AllocError>
    ensures { OnOk result (text.new.items ≡ text.old.items ++ word_field word) }
{
    match word {
        Some(word) => put_number(text, "word", Some(u64::from(word.0))),
        None => Ok(()),
    }
}

/// Who supplied what was read, if anyone did.
pub(crate) fn put_supplier(text: &mut Vec<u8>, served: Option<ServedKind>) -> Result<(), AllocError>
    ensures { OnOk result (text.new.items ≡ text.old.items ++ supplier_field served) }
{
    match served {
        Some(served) => put_parts(
            text,
            &[
                Part::Text(",\"by\":\""),
                Part::Text(served.text()),
                Part::Text("\""),
            ],
        ),
        None => Ok(()),
    }
}

/// What an entry did on its unit's track, with room for more arguments.
#[tactic(auto, unfolding(crate::specs::Events::instant))]
pub(crate) fn put_instant(
    text: &mut Vec<u8>,
    name: &str,
    entry: u64,
    unit: u64,
) -> Result<(), AllocError>
    ensures { OnOk result (text.new.items ≡ text.old.items ++ instant name.now entry unit) }
{
    put_parts(
        text,
        &[
            Part::Text(",\n{\"name\":\""),
            Part::Text(name),
            Part::Text("\",\"ph\":\"i\",\"s\":\"t\",\"ts\":"),
            Part::Number(entry),
            Part::Text(",\"pid\":0,\"tid\":"),
            Part::Number(unit),
            Part::Text(",\"args\":{\"entry\":"),
            Part::Number(entry),
        ],
    )
}

/// The end of an event's arguments.
#[tactic(auto, unfolding(crate::specs::Events::event_end))]
pub(crate) fn put_event_end(text: &mut Vec<u8>) -> Result<(), AllocError>
    ensures { OnOk result (text.new.items ≡ text.old.items ++ event_end) }
{
    put_parts(text, &[Part::Text("}}")])
}

// An end of a flow, at an entry on a unit's track.
#[tactic(auto, unfolding(crate::specs::Events::flow_end))]
fn put_flow_end<'a>(
    text: &mut Vec<u8>,
    name: &'a str,
    phase: &'a str,
    digit: &'a str,
    number: u64,
    entry: u64,
    unit: u64,
) -> Result<(), AllocError>
    ensures { OnOk result (text.new.items
        ≡ text.old.items ++ flow_end name.now phase.now digit.now number entry unit) }
{
    put_parts(
        text,
        &[
            Part::Text(",\n{\"name\":\""),
            Part::Text(name),
            Part::Text("\",\"cat\":\"flow\",\"ph\":\""),
            Part::Text(phase),
            Part::Text("\",\"id\":"),
            Part::Text(digit),
            Part::Number(number),
            Part::Text(",\"ts\":"),
            Part::Number(entry),
            Part::Text(",\"pid\":0,\"tid\":"),
            Part::Number(unit),
        ],
    )
}

// The ends of a flow.
#[tactic(auto, unfolding(crate::specs::Events::flow_ends))]
fn put_flow_ends(text: &mut Vec<u8>, flow: &Flow) -> Result<(), AllocError>
    ensures { OnOk result (text.new.items ≡ text.old.items ++ flow_ends flow.now) }
{
    let name = flow.way.name();
    let digit = flow.way.digit();
    let storer = u64::from(flow.storer.0);
    let reader = u64::from(flow.reader.0);
    put_flow_end(text, name, "s", digit, flow.number, flow.store, storer)?;
    put_parts(text, &[Part::Text("}")])?;
    let finish = "f\",\"bp\":\"e";
    put_flow_end(text, name, finish, digit, flow.number, flow.number, reader)?;
    put_parts(
        text,
        &[
            Part::Text(",\"args\":{\"store\":"),
            Part::Number(flow.store),
        ],
    )?;
    Ok(())
}

/// A flow.
#[tactic(auto, unfolding(crate::specs::Events::flow_text))]
pub(crate) fn put_flow(text: &mut Vec<u8>, flow: &Flow) -> Result<(), AllocError>
    ensures { OnOk result (text.new.items ≡ text.old.items ++ flow_text flow.now) }
{
    put_flow_ends(text, flow)?;
    put_number(text, "read", flow.read)?;
    put_word(text, flow.word)?;
    put_event_end(text)?;
    Ok(())
}
