// The tables of meetings.

ghost use Rattle.std.specs.Prelude.{◌≡◌, ◌+◌, ◌<◌, ◌^◌, ◌≤◌, ◌++◌, [], OnOk, IfOk, IfErr, flat_map, length};
ghost use Rattle.std.specs.List.{sum_by};
ghost use Rattle.std.specs.Io.KnownBytes.{Appends};
ghost use Rattle.svc_base.specs.declared.config.TheConstants.{MAX_EVENTS};
ghost use Rattle.svc_report.specs.Faults.{IsWriteFault};
ghost use Rattle.svc_profile.specs.Met.{met_again, met_at, met_header, met_of, met_row, met_table, never_met};
ghost use Rattle.svc_profile.specs.Met.{pair_table, supplier_table, with_meeting, with_meetings};

use crate::meetings::{Meeting, Meets, meetings_of};
use std::alloc::{AllocError, Global};
use std::collections::BTreeMap;
use std::io::Write;
use svc_history_laws::Entry;
use svc_report::ReportError;
use svc_text::{put_row, write_text};

/// What the meetings of two tasks over a word come to.
#[derive(Clone, Copy)]
pub(crate) struct Met {
    /// How many they are.
    pub(crate) times: u64,
    /// The turns of the tasks that they squashed.
    pub(crate) turns: u64,
}

impl Met {
    // They have not met.
    fn never() -> Met
        ensures { result ≡ never_met }
    {
        Met { times: 0, turns: 0 }
    }

    // With one more meeting.
    fn again(self, meeting: Meeting) -> Met
        requires times { self.times + 1 < 2 ^ 64 }
        requires turns { self.turns + meeting.turns < 2 ^ 64 }
        ensures { result ≡ met_again self meeting }
    {
        Met {
            times: self.times + 1,
            turns: self.turns + meeting.turns,
        }
    }
}

// Adds a meeting to its row.
fn add(meeting: Meeting, met: &mut BTreeMap<((u64, u64), u32), Met>) -> Result<(), AllocError>
    requires times { (met_at meeting.between met.old.entries).times + 1 < 2 ^ 64 }
    requires turns { (met_at meeting.between met.old.entries).turns + meeting.turns < 2 ^ 64 }
    ensures { OnOk result (met.new.entries ≡ with_meeting meeting met.old.entries) }
{
    // the keys of a map ascend
    let _rows = met.len();
    let so_far = met.get(&meeting.between).copied().unwrap_or(Met::never());
    met.insert(meeting.between, so_far.again(meeting))?;
    Ok(())
}

// The rows of these meetings.
fn add_all(
    meetings: &[Meeting],
    met: &mut BTreeMap<((u64, u64), u32), Met>,
) -> Result<(), AllocError>
    requires none { met.old.entries ≡ [] }
    requires few { length meetings.now < 2 ^ 64 }
    requires turns { sum_by (λ m. m.turns) meetings.now < 2 ^ 64 }
    ensures { OnOk result (met.new.entries ≡ with_meetings [] meetings.now) }
{
    for meeting in meetings {
        add(*meeting, met)?;
    }
    Ok(())
}

// Adds a row.
fn put_met(
    text: &mut Vec<u8>,
    meets: Meets,
    between: ((u64, u64), u32),
    met: &Met,
) -> Result<(), AllocError>
    ensures { OnOk result (text.new.items ≡ text.old.items ++ met_row meets (between, met.now)) }
{
    let ((earlier, later), word) = between;
    let word = u64::from(word);
    match meets {
        Meets::Squash => put_row(text, earlier, &[later, word, met.times, met.turns]),
        Meets::Supply => put_row(text, earlier, &[later, word, met.times]),
    }
}

// Adds the rows.
fn put_rows(
    text: &mut Vec<u8>,
    meets: Meets,
    met: &BTreeMap<((u64, u64), u32), Met>,
) -> Result<(), AllocError>
    ensures { OnOk result (text.new.items ≡ text.old.items ++ flat_map (met_row meets) met.now.entries) }
{
    for (between, met) in met {
        put_met(text, meets, *between, met)?;
    }
    Ok(())
}

// The names of the columns.
fn header(meets: Meets) -> &'static [u8]
    ensures { result.now ≡ met_header meets }
{
    match meets {
        Meets::Squash => b"storer,victim,word,squashes,turns-squashed\n",
        Meets::Supply => b"supplier,reader,word,reads\n",
    }
}

// The rows of a history.
fn met_of(
    alloc: Global,
    meets: Meets,
    entries: &[Entry],
) -> Result<BTreeMap<((u64, u64), u32), Met>, AllocError>
    requires few { length entries.now ≤ MAX_EVENTS }
    ensures { IfOk result (λ met. met.entries ≡ met_of meets entries.now) }
{
    let meetings = meetings_of(alloc, meets, entries)?;
    let mut met = BTreeMap::new(alloc);
    add_all(&meetings, &mut met)?;
    Ok(met)
}

// The text of a table.
fn table_of(alloc: Global, meets: Meets, entries: &[Entry]) -> Result<Vec<u8>, AllocError>
    requires few { length entries.now ≤ MAX_EVENTS }
    ensures { IfOk result (λ text. text.items ≡ met_table meets entries.now) }
{
    let met = met_of(alloc, meets, entries)?;
    let mut text = Vec::from_slice(alloc, header(meets))?;
    put_rows(&mut text, meets, &met)?;
    Ok(text)
}

/// Writes the table of the squashes of a history: a header, and a row for each task that stored to a word which a later
/// task had read too early, that task and the word: how often, and the turns of the tasks that this squashed.
///
/// Errors: [`ReportError::Memory`], [`ReportError::Write`].
pub fn write_pairs<W: Write>(alloc: Global, entries: &[Entry], w: &mut W) -> Result<(), ReportError>
    requires few { length entries.now ≤ MAX_EVENTS }
    ensures ok { OnOk result (Appends (W.contents w.old) (W.contents w.new) (pair_table entries.now)) }
    ensures err { IfErr result IsWriteFault }
{
    let text = table_of(alloc, Meets::Squash, entries)?;
    write_text(&text, w)?;
    Ok(())
}

/// Writes the table of the versions that served reads in a history: a header, and a row for each task whose version was
/// read, the task that read it and the word: how often.
///
/// Errors: [`ReportError::Memory`], [`ReportError::Write`].
pub fn write_suppliers<W: Write>(
    alloc: Global,
    entries: &[Entry],
    w: &mut W,
) -> Result<(), ReportError>
    requires few { length entries.now ≤ MAX_EVENTS }
    ensures ok { OnOk result (Appends (W.contents w.old) (W.contents w.new) (supplier_table entries.now)) }
    ensures err { IfErr result IsWriteFault }
{
    let text = table_of(alloc, Meets::Supply, entries)?;
    write_text(&text, w)?;
    Ok(())
}
