//! What is told after a fault.

ghost use Rattle.std.specs.Prelude.{◌≡◌, IfOk};
ghost use Rattle.svc_explain.specs.Explanations.{TellsAlone, TellsWhy};

use crate::files::{explain_files, line};
use crate::traced::explain_fault;
use std::alloc::{AllocError, Global};
use svc_reasons::{config_sentence, image_sentence};
use svc_request::{Fault, Files, Request};

/// What a fault alone tells: the range of a number of the configuration, the field of an image, or that standard output
/// failed. Other faults tell nothing.
///
/// Errors: [`AllocError`], if memory runs out.
pub fn explain_alone(alloc: Global, fault: &Fault) -> Result<Vec<u8>, AllocError>
    ensures { IfOk result (λ text. TellsAlone fault.now text.items) }
{
    match fault {
        Fault::Config(error) => line(alloc, "", config_sentence(*error)),
        Fault::Image(error) => line(alloc, "", image_sentence(*error)),
        Fault::Output => line(alloc, "", "standard output can't be written"),
        Fault::CommandLine(_) | Fault::Assembly(_) | Fault::File => Ok(Vec::new(alloc)),
        Fault::BadScript { row: _, column: _ }
        | Fault::BadTrace { row: _, column: _ }
        | Fault::BadNames { row: _, column: _ } => Ok(Vec::new(alloc)),
        Fault::Plain(_) | Fault::Open(_) | Fault::Run(_) => Ok(Vec::new(alloc)),
        Fault::Trace(_) | Fault::Limit | Fault::Report(_) => Ok(Vec::new(alloc)),
    }
}

/// What is told after a fault of a request: that, which of its files failed, or what the machine answers to the event
/// of the trace's faulty entry. The files are read again.
///
/// Errors: [`Fault`] of the files, if they have changed, or of memory. Then nothing is known.
pub fn explain<F: Files>(
    alloc: Global,
    request: &Request<'_>,
    fault: &Fault,
    files: &F,
) -> Result<Vec<u8>, Fault>
    ensures { IfOk result (λ text. TellsWhy (F.held files.now) request.now fault.now text.items) }
{
    match fault {
        Fault::File => Ok(explain_files(alloc, request, files)?),
        Fault::Trace(fault) => explain_fault(alloc, request, *fault, files),
        Fault::Config(_) | Fault::Image(_) | Fault::Output => Ok(explain_alone(alloc, fault)?),
        Fault::CommandLine(_) | Fault::Assembly(_) => Ok(explain_alone(alloc, fault)?),
        Fault::BadScript { row: _, column: _ }
        | Fault::BadTrace { row: _, column: _ }
        | Fault::BadNames { row: _, column: _ } => Ok(explain_alone(alloc, fault)?),
        Fault::Plain(_) | Fault::Open(_) | Fault::Run(_) => Ok(explain_alone(alloc, fault)?),
        Fault::Limit | Fault::Report(_) => Ok(explain_alone(alloc, fault)?),
    }
}
