//! What is told of the fault of a trace.

ghost use Rattle.std.specs.Prelude.{◌≡◌, IfOk};
ghost use Rattle.svc_answer.specs.Requests.{IsTracedIn};
ghost use Rattle.svc_explain.specs.Explanations.{ExplainsFault, ExplainsTraced, replayed_by};
ghost use Rattle.svc_reasons.specs.Explained.{Explains};

use std::alloc::Global;
use svc_answer::load::load_traced;
use svc_history::{TraceFault, TraceFaultKind};
use svc_reasons::explain_entries;
use svc_request::{Compared, Fault, Files, Request, Traced};

// The trace that a request replays, and which columns of it are compared.
fn replayed_by<'a>(request: &Request<'a>) -> Option<(Traced<'a>, Compared)>
    ensures { result ≡ replayed_by request.now }
{
    match request {
        Request::Check(traced, compared, _) => Some((*traced, *compared)),
        Request::Observe(traced, _)
        | Request::Profile(traced, _, _, _)
        | Request::Show(traced, _)
        | Request::Draw(traced, _)
        | Request::Export(traced, _) => Some((*traced, Compared::All)),
        Request::Run(_) | Request::Sequential(_) | Request::Depend(_) => None,
        Request::Explore(_) | Request::Find(_, _, _) | Request::Script(_) => None,
        Request::Assemble(_) | Request::List(_, _) | Request::Help(_) | Request::Version => None,
    }
}

// What is told of the entry at this index of a trace.
fn explain_trace<F: Files>(
    alloc: Global,
    traced: Traced<'_>,
    compared: Compared,
    index: usize,
    files: &F,
) -> Result<Vec<u8>, Fault>
    ensures { IfOk result (λ text. IsTracedIn (F.held files.now) traced.entry
        (λ img es. Explains compared img traced.entry.config es index text.items)) }
{
    let (image, entries) = load_traced(alloc, traced, files)?;
    explain_entries(alloc, image, traced.config, &entries, compared, index)
}

// The same of the trace that a request replays, if it replays one.
fn explain_replayed<F: Files>(
    alloc: Global,
    request: &Request<'_>,
    index: usize,
    files: &F,
) -> Result<Vec<u8>, Fault>
    ensures { IfOk result (λ text. ExplainsTraced (F.held files.now) (replayed_by request.now) index text.items) }
{
    match replayed_by(request) {
        Some((traced, compared)) => explain_trace(alloc, traced, compared, index, files),
        None => Ok(Vec::new(alloc)),
    }
}

/// What is told of the fault of the trace that a request replays.
///
/// Errors: that of a file, of the entries before, or of memory.
pub(crate) fn explain_fault<F: Files>(
    alloc: Global,
    request: &Request<'_>,
    fault: TraceFault,
    files: &F,
) -> Result<Vec<u8>, Fault>
    ensures { IfOk result (λ text. ExplainsFault (F.held files.now) (replayed_by request.now) fault.index fault.kind
        text.items) }
{
    match fault.kind {
        TraceFaultKind::Memory => Ok(Vec::new(alloc)),
        TraceFaultKind::Refused | TraceFaultKind::Differs => {
            explain_replayed(alloc, request, fault.index, files)
        }
    }
}
