// Branches that don't reach their targets.

ghost use Rattle.std.specs.Prelude.{◌≡◌};
ghost use Rattle.std.specs.List.{find};
ghost use Rattle.svc_draft.specs.Drafts.{layout_of};
ghost use Rattle.svc_tokens.specs.Tokens.{Gives};
ghost use Rattle.svc_instructions.specs.Instructions.{parts_of};
ghost use Rattle.svc_instructions.specs.Branches.{opposite, over_jump, is_two, far_target_at, is_branch};
ghost use Rattle.svc_instructions.specs.Branches.{far_parts_at, is_named, row_named, far_at};

use crate::offsets::read_jump_behind;
use crate::reading::{further, read_part, with_part};
use crate::table::{ALIASES, Part, ROWS, Row, parts_of};
use svc_draft::Draft;
use svc_layout::Statement;
use svc_tokens::{Name, Read, Unread, Wanted, is_over, is_word, split_name, stopped_at};

// The word of jal where each operand is 0.
const JAL: u32 = 0x6f;

// The bit of a branch's word by which it and the opposite one differ.
const OTHERWISE: u32 = 0x1000;

fn opposite(word: u32) -> u32
    ensures { result ≡ opposite word }
{
    if word / OTHERWISE % 2 == 0 {
        word.wrapping_add(OTHERWISE)
    } else {
        word - OTHERWISE
    }
}

// The opposite branch, which goes past the next word, and a jump that goes so many steps from there.
fn over_jump(word: u32, steps: u32) -> Statement
    ensures { result ≡ over_jump word steps }
{
    Statement::Pair(
        with_part(opposite(word), Part::Branch, 4),
        with_part(JAL, Part::Jump, steps),
    )
}

fn is_two(draft: &Draft, text: &[u8]) -> bool
    ensures { result ≡ is_two (layout_of draft.now) text.now }
{
    draft.is_turned(text.len()) || is_word(split_name(text).0, ".")
}

#[tactic(auto, unfolding(crate::specs::Branches::far_target_at))]
fn read_far_target<'a>(draft: &Draft, word: u32, text: &'a [u8]) -> Read<'a, Statement>
    ensures { Gives (λ x. (x.0, x.1.now)) result (far_target_at (layout_of draft.now) word text.now) }
{
    let (steps, rest) = read_jump_behind(draft, text)?;
    if is_two(draft, text) {
        return Ok((over_jump(word, steps), rest));
    }
    Ok((Statement::Turned(text.len()), rest))
}

fn is_branch(part: Part) -> bool
    ensures { result ≡ is_branch part }
{
    matches!(part, Part::Branch)
}

fn read_far_parts<'a>(draft: &Draft, row: &Row, text: &'a [u8]) -> Read<'a, Statement>
    ensures { Gives (λ x. (x.0, x.1.now)) result
        (far_parts_at (layout_of draft.now) (parts_of row.now) text.now row.now.1) }
{
    let mut word = row.1;
    let mut rest = text;
    for part in parts_of(*row).iter() {
        if is_branch(*part) {
            return read_far_target(draft, word, rest);
        }
        let (number, behind) = read_part(draft, *part, rest)?;
        word = with_part(word, *part, number);
        rest = behind;
    }
    Err(stopped_at(rest, Wanted::LineEnd))
}

fn find_named(rows: &[Row], name: Name) -> Option<Row>
    ensures { result ≡ find (is_named name) rows.now }
{
    for row in rows {
        if name == row.0 {
            return Some(*row);
        }
    }
    None
}

#[tactic(auto, unfolding(crate::specs::Branches::row_named))]
fn row_named(name: Name) -> Option<Row>
    ensures { result ≡ row_named name }
{
    match find_named(&ROWS, name) {
        Some(row) => Some(row),
        None => find_named(&ALIASES, name),
    }
}

/// A branch that is two instructions, or will be, by its name and its operands.
#[tactic(auto, unfolding(crate::specs::Branches::far_at))]
pub fn read_far<'a>(draft: &Draft, name: Name, text: &'a [u8], fault: Unread) -> Read<'a, Statement>
    ensures { Gives (λ x. (x.0, x.1.now)) result (far_at (layout_of draft.now) name text.now) }
{
    match row_named(name) {
        Some(row) => match read_far_parts(draft, &row, text) {
            Ok(read) => Ok(read),
            Err(later) => Err(further(fault, later)),
        },
        None => Err(fault),
    }
}
