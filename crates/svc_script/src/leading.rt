//! The script that leads to a history.

ghost use Rattle.std.specs.Prelude.{◌≡◌, ◌+◌, List, IfOk, IfErr};
ghost use Rattle.std.specs.List.{AllByRecursion};
ghost use Rattle.svc_base.specs.declared.config.Config.{Config};
ghost use Rattle.svc_image.specs.Image.{Image, IsImage};
ghost use Rattle.svc_history_laws.specs.declared.entry.Entry.{Entry};
ghost use Rattle.svc_history_laws.specs.Legal.{LegalHistory, the_ask, the_local};
ghost use Rattle.svc_history_laws.specs.Submissions.{turns_of};
ghost use Rattle.svc_report.specs.Faults.{IsMemoryFault};
ghost use Rattle.svc_report.specs.Trace.{HasRow};
ghost use Rattle.svc_script.specs.Leading.{LeadsBack, script_of, step_to};

use crate::script::{Step, StepKind};
use std::alloc::Global;
use svc_base::WordAddr;
use svc_history_laws::{Entry, Kind};
use svc_report::ReportError;

// The turns of a submit's burst: the local ones, and the asked one.
fn turns(entry: &Entry) -> u32
    ensures { result ≡ the_local entry.now + turns_of (the_ask entry.now) }
{
    let local = u32::from(entry.local.unwrap_or(0));
    let asked = u32::from(entry.ask.unwrap_or(false));
    local + asked
}

// The step that leads to an entry.
pub(crate) fn step_to(entry: &Entry) -> Step
    ensures { result ≡ step_to entry.now }
{
    let arg = entry.arg.unwrap_or(0);
    let kind = match entry.kind {
        Kind::Assign => StepKind::Assign(arg),
        Kind::Submit => StepKind::Submit(turns(entry)),
        Kind::Replace => StepKind::Replace(WordAddr(arg)),
        Kind::Cancel => StepKind::Cancel,
        Kind::Commit => StepKind::Commit,
    };
    Step {
        unit: entry.unit,
        kind,
    }
}

/// The script that leads to a history: for each entry the step whose event it is. A submit has as many turns as its
/// entry has, local ones and the asked one.
///
/// Errors: [`ReportError::Memory`].
pub fn script_of(alloc: Global, entries: &[Entry]) -> Result<Vec<Step>, ReportError>
    ensures steps { IfOk result (λ steps. steps.items ≡ script_of entries.now) }
    ensures err { IfErr result IsMemoryFault }
{
    let mut steps = Vec::new(alloc);
    for entry in entries {
        steps.push(step_to(entry))?;
    }
    Ok(steps)
}

/// The script of a legal history, whose entries have rows, has a row for each step, and leads to the history: played on
/// its machine from before any event, no event is refused, each line is the row of the step's entry, and these entries
/// are the history.
pub fn script_leads_back()
    ensures { (img : Image) → IsImage img → (config : Config) → (es : List Entry) → LegalHistory img config es
        → AllByRecursion HasRow es → LeadsBack img config es }
{}
