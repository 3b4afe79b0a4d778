// The table of words.

ghost use Rattle.std.specs.Prelude.{◌≡◌, ◌≤◌, ◌++◌, OnOk, IfOk, IfErr, flat_map, length};
ghost use Rattle.std.specs.BTreeMap.{IsOrdered};
ghost use Rattle.std.specs.Ordering.{nat_cmp};
ghost use Rattle.std.specs.Io.KnownBytes.{Appends};
ghost use Rattle.svc_base.specs.declared.config.TheConstants.{MAX_EVENTS};
ghost use Rattle.svc_report.specs.Faults.{IsWriteFault};
ghost use Rattle.svc_profile.specs.Counts.{counted_row, named_row, told_of};
ghost use Rattle.svc_profile.specs.Words.{word_header, word_table};

use crate::counts::Counts;
use crate::tally::tally;
use std::alloc::{AllocError, Global};
use std::collections::BTreeMap;
use std::io::Write;
use svc_history_laws::Entry;
use svc_report::ReportError;
use svc_task_runs::tasks_of;
use svc_text::{put_row, write_text};

// What is reported for a word.
fn told_of(counts: &Counts) -> [u64; 6]
    ensures { result ≡ told_of counts.now }
{
    [
        counts.loads,
        counts.stores,
        counts.versions,
        counts.violations,
        counts.squashed,
        counts.turns,
    ]
}

// Adds the row of a word.
fn put_counted(text: &mut Vec<u8>, word: u32, counts: &Counts) -> Result<(), AllocError>
    ensures { OnOk result (text.new.items ≡ text.old.items ++ counted_row word counts.now) }
{
    put_row(text, word, &told_of(counts))
}

// Adds the row of a word if an entry names it, as one names each word for which something is counted.
fn put_named(text: &mut Vec<u8>, word: u32, counts: &Counts) -> Result<(), AllocError>
    ensures { OnOk result (text.new.items ≡ text.old.items ++ named_row (word, counts.now)) }
{
    if counts.named > 0 {
        put_counted(text, word, counts)
    } else {
        Ok(())
    }
}

// Adds the rows of the words that entries name.
fn put_rows(text: &mut Vec<u8>, words: &BTreeMap<u32, Counts>) -> Result<(), AllocError>
    ensures text { OnOk result (text.new.items ≡ text.old.items ++ flat_map named_row words.now.entries) }
    ensures ordered { IsOrdered nat_cmp words.now }
{
    for (word, counts) in words {
        put_named(text, *word, counts)?;
    }
    Ok(())
}

// The text of the table of a history.
fn table_of(alloc: Global, entries: &[Entry]) -> Result<Vec<u8>, AllocError>
    requires few { length entries.now ≤ MAX_EVENTS }
    ensures { IfOk result (λ text. text.items ≡ word_table entries.now) }
{
    let runs = tasks_of(alloc, entries)?;
    let words = tally(alloc, entries, &runs)?;
    let mut text = Vec::from_slice(
        alloc,
        b"word,loads,stores,versions,violations,squashed,turns-squashed\n",
    )?;
    put_rows(&mut text, &words)?;
    Ok(text)
}

/// Writes the table of the words that a history's entries name: a header, and a row for each with what it cost.
///
/// Errors: [`ReportError::Memory`], [`ReportError::Write`].
pub fn write_words<W: Write>(alloc: Global, entries: &[Entry], w: &mut W) -> Result<(), ReportError>
    requires few { length entries.now ≤ MAX_EVENTS }
    ensures ok { OnOk result (Appends (W.contents w.old) (W.contents w.new) (word_table entries.now)) }
    ensures err { IfErr result IsWriteFault }
{
    let text = table_of(alloc, entries)?;
    write_text(&text, w)?;
    Ok(())
}
