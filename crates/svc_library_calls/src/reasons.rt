//! Calls that tell why an entry of a trace is faulty.

ghost use Rattle.std.specs.Prelude.{◌≡◌, is_some};
ghost use Rattle.svc_library_calls.specs.Calls.{reason_calls, is_one_of};

use crate::attempt::{Attempt, Refused, ready};
use crate::images::sample;
use std::alloc::Global;
use svc_base::Config;
use svc_history::TraceFaultKind;
use svc_reasons::explain_entries;
use svc_report::ReportError;
use svc_request::{Compared, Fault};
use svc_samples::TEN_ENTRIES;

/// Makes the call of this name, if it is one of these.
pub fn attempt(alloc: Global, name: &str) -> Option<Attempt>
    ensures { is_some result ≡ is_one_of reason_calls name.now }
{
    match name {
        "explain_entries" => Some(explained(alloc)),
        _ => None,
    }
}

const REASON: &[u8] = b"svcsim: row 8: word is \"4\", and the machine has \"5\"
svcsim: a sound trace has there: submit,1,,1,1,loaded,0,5,committed,0,,,
";

/// The seventh of the ten entries has another word, and is explained.
fn explained(alloc: Global) -> Attempt {
    let config = ready(Config::new(4, 16, 2, 10, 1))?;
    let image = sample(alloc)?;
    let mut entries = TEN_ENTRIES;
    entries[6].word = Some(4);
    let told = explain_entries(alloc, image, config, &entries, Compared::All, 6);
    answered(&told)
}

// What was told, or that memory was refused.
fn answered(told: &Result<Vec<u8>, Fault>) -> Attempt {
    match told {
        Ok(text) => Ok(text.as_slice() == REASON),
        Err(fault) if is_of_memory(fault) => Err(Refused::Told),
        Err(_) => Ok(false),
    }
}

// Whether a fault is that memory was refused.
fn is_of_memory(fault: &Fault) -> bool {
    match fault {
        Fault::Report(ReportError::Memory) => true,
        Fault::Trace(fault) => fault.kind == TraceFaultKind::Memory,
        _ => false,
    }
}
