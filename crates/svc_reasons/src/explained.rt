//! What is told of the fault of a trace.

ghost use Rattle.std.specs.Prelude.{◌≡◌, IfOk};
ghost use Rattle.svc_reasons.specs.Explained.{AreSound, Explains, compared_entry, supplied};

use crate::reasons::reason;
use std::alloc::Global;
use svc_base::Config;
use svc_history::{Entry, Recorder, TraceFault, check_trace};
use svc_image::Image;
use svc_request::{Compared, Fault};
use svc_script::{Answer, check_but_suppliers, retry};

/// What is told of the faulty entry of a trace at this index: what the machine answers there to the event that it
/// names. The entries before it are replayed.
///
/// Errors: there is no such entry, one before it is faulty, or memory is refused.
pub fn explain_entries(
    alloc: Global,
    image: Image,
    config: Config,
    entries: &[Entry],
    compared: Compared,
    index: usize,
) -> Result<Vec<u8>, Fault>
    ensures { IfOk result (λ text. Explains compared image config entries.now index text.items) }
{
    if index >= entries.len() {
        return Err(Fault::File);
    }
    let row = index as u64 + 2;
    let entry = &entries[index];
    let mut recorder = replay_before(alloc, image, config, &entries[..index], compared)?;
    let answer = retry(alloc, &mut recorder, entry);
    let text = reason(alloc, row, &entry_compared(compared, answer, entry), answer)?;
    Ok(text)
}

// Replays the entries before a faulty one.
fn replay_before(
    alloc: Global,
    image: Image,
    config: Config,
    entries: &[Entry],
    compared: Compared,
) -> Result<Recorder, TraceFault>
    ensures image { IfOk result (λ r. r.machine.image ≡ image) }
    ensures config { IfOk result (λ r. r.machine.config ≡ config) }
    ensures sound { IfOk result (λ r. AreSound compared image config entries.now r.entries) }
{
    match compared {
        Compared::All => check_trace(alloc, image, config, entries),
        Compared::ButSuppliers => check_but_suppliers(alloc, image, config, entries),
    }
}

// An entry with the supplier of the machine's answer, if that is an entry.
fn supplied(answer: Option<Answer>, entry: &Entry) -> Entry
    ensures { result ≡ supplied answer entry.now }
{
    match answer {
        Some(Answer::Accepted(found)) => Entry {
            served: found.served,
            from: found.from,
            ..*entry
        },
        Some(Answer::Refused(_)) => *entry,
        Some(Answer::Taken { local: _, ask: _ }) => *entry,
        Some(Answer::Nothing) => *entry,
        None => *entry,
    }
}

// An entry whose columns that aren't compared are those of the machine's answer.
fn entry_compared(compared: Compared, answer: Option<Answer>, entry: &Entry) -> Entry
    ensures { result ≡ compared_entry compared answer entry.now }
{
    match compared {
        Compared::All => *entry,
        Compared::ButSuppliers => supplied(answer, entry),
    }
}
