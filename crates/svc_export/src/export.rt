// A history as viewers take it.

ghost use Rattle.std.specs.Prelude.{◌≡◌, ◌++◌, ◌≤◌, IfErr, IfOk, OnOk, length};
ghost use Rattle.svc_base.specs.declared.config.TheConstants.{MAX_EVENTS};
ghost use Rattle.svc_report.specs.Faults.{IsMemoryFault};
ghost use Rattle.svc_export.specs.Export.{export_of};

use crate::chrome::put_chrome;
use crate::vcd::put_vcd;
use std::alloc::{AllocError, Global};
use svc_history_laws::Entry;
use svc_report::ReportError;

/// A form in which viewers take a history.
#[derive(Clone, Copy)]
pub enum Format {
    /// Trace events as JSON.
    Chrome,
    /// A dump of value changes.
    Vcd,
}

// Adds a history in a form.
fn put_export(
    alloc: Global,
    entries: &[Entry],
    units: u32,
    format: Format,
    words: &[u32],
    text: &mut Vec<u8>,
) -> Result<(), AllocError>
    requires few { length entries.now ≤ MAX_EVENTS }
    ensures { OnOk result (text.new.items
        ≡ text.old.items ++ export_of format entries.now units words.now) }
{
    match format {
        Format::Chrome => put_chrome(alloc, entries, units, text),
        Format::Vcd => put_vcd(alloc, entries, units, words, text),
    }
}

/// A history on so many units in a form that viewers take; a dump of value changes also has the committed values of
/// these words.
///
/// Errors: [`ReportError::Memory`].
pub fn export_text(
    alloc: Global,
    entries: &[Entry],
    units: u32,
    format: Format,
    words: &[u32],
) -> Result<Vec<u8>, ReportError>
    requires few { length entries.now ≤ MAX_EVENTS }
    ensures text { IfOk result (λ text. text.items ≡ export_of format entries.now units words.now) }
    ensures err { IfErr result IsMemoryFault }
{
    let mut text = Vec::new(alloc);
    put_export(alloc, entries, units, format, words, &mut text)?;
    Ok(text)
}
