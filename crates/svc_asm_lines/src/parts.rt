// What is read next: a line, or a part of a list, of a string, or of a name with its value.

ghost use Rattle.std.specs.Prelude.{◌≡◌};
ghost use Rattle.svc_tokens.specs.Tokens.{Gives};
ghost use Rattle.svc_asm_lines.specs.DataLines.{first_at, next_at, opened_at};
ghost use Rattle.svc_draft.specs.Drafts.{layout_of};

use crate::directives::opened_by;
use crate::line::{read_line, read_passed, read_said};
use crate::lists::{read_item, read_long};
use crate::strings::read_character;
use crate::symbols::{read_bound, read_common, read_equal, read_local_common, read_symbol};
use svc_draft::Draft;
use svc_layout::{Next, Statement};
use svc_tokens::{Read, Unread, Wanted, skip_mark, split_name, stopped_at_name};

#[tactic(auto, unfolding(crate::specs::DataLines::opened_at))]
fn read_opened<'a>(draft: &Draft, text: &'a [u8]) -> Read<'a, Statement>
    ensures { Gives (λ x. (x.0, x.1.now)) result (opened_at (layout_of draft.now) text.now) }
{
    let (name, rest) = split_name(text);
    match opened_by(name) {
        Some(says) => read_said(draft, says, rest),
        None => Err(stopped_at_name(name, rest, Wanted::Statement)),
    }
}

// The fault of a line: of what a name is set to, where an equals sign follows the name.
fn fault_of_line(text: &[u8], unread: Unread, set: Unread) -> Unread {
    let (_, rest) = split_name(text);
    match skip_mark(b'=', rest) {
        Some(_) => set,
        None => unread,
    }
}

fn read_first<'a>(draft: &Draft, text: &'a [u8]) -> Read<'a, Statement>
    ensures { Gives (λ x. (x.0, x.1.now)) result (first_at (layout_of draft.now) text.now) }
{
    let unread = match read_line(draft, text) {
        Ok(read) => return Ok(read),
        Err(unread) => unread,
    };
    if let Ok(opened) = read_opened(draft, text) {
        return Ok(opened);
    }
    match read_equal(draft, text) {
        Ok(equal) => Ok(equal),
        Err(set) => Err(fault_of_line(text, unread, set)),
    }
}

#[tactic(auto, unfolding(crate::specs::DataLines::next_at))]
pub fn read_next<'a>(draft: &Draft, text: &'a [u8]) -> Read<'a, Statement>
    ensures { Gives (λ x. (x.0, x.1.now)) result (next_at (layout_of draft.now) text.now) }
{
    match draft.next() {
        Next::Line => read_first(draft, text),
        Next::Value(width) => read_item(draft, width, text),
        Next::Character(ending) => read_character(ending, text),
        Next::Long => read_long(draft, text),
        Next::Symbol => read_symbol(draft, b',', text),
        Next::Common => read_common(text),
        Next::LocalCommon => read_local_common(text),
        Next::Bound(linkage) => read_bound(linkage, text),
        Next::Passed => read_passed(draft, text),
    }
}
