// The law of rows: a legal history can be written and read back.

ghost use Rattle.std.specs.List.{AllByRecursion};
ghost use Rattle.svc_base.specs.declared.config.Config.{Config};
ghost use Rattle.svc_image.specs.Image.{Image};
ghost use Rattle.svc_machine_laws.specs.Standing.{Standing};
ghost use Rattle.svc_history_laws.specs.Legal.{LegalEntry, LegalHistory};
ghost use Rattle.svc_report.specs.Trace.{HasRow};

use svc_history_laws::Entry;

// An entry that is legal somewhere has a row. It is taken by value, since only then does its type give the ranges of
// its numbers.
fn legal_entry_has_row(entry: Entry)
    ensures { (img : Image) → (config : Config) → (s : Standing) → LegalEntry img config s entry → HasRow entry }
{}

/// Each entry of a legal history has a row: its numbers are in the ranges of their columns. So `read_trace` reads back
/// what `write_trace` makes of the history.
pub fn legal_history_has_rows(entries: &[Entry])
    ensures { (img : Image) → (config : Config) → LegalHistory img config entries.now
        → AllByRecursion HasRow entries.now }
{
    // The type of a slice says nothing of the ranges of its items, so this goes over the entries.
    for entry in entries {
        legal_entry_has_row(*entry);
    }
}
