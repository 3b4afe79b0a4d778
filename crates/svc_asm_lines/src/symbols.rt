// Names that are given a value or zeros, or that texts share.

ghost use Rattle.std.specs.Prelude.{◌≡◌, option_map};
ghost use Rattle.svc_tokens.specs.Tokens.{Gives};
ghost use Rattle.svc_asm_lines.specs.Symbols.{spot_named, spot_plus, sum_at, is_same, difference, minus_at, less_at};
ghost use Rattle.svc_asm_lines.specs.Symbols.{behind_at, spot_at, named_at, symbol_at, equal_at, step_at, common_at};
ghost use Rattle.svc_asm_lines.specs.Symbols.{bound_at, local_common_at, room_at};
ghost use Rattle.svc_draft.specs.Drafts.{layout_of};

use crate::line::{is_label, read_end};
use crate::lists::{low, read_going};
use svc_draft::Draft;
use svc_expressions::{read_added, read_count, read_expression};
use svc_layout::{Linkage, Next, Section, Spot, Statement};
use svc_tokens::{Read, Unread, Wanted, read_mark, skip_mark, split_name, stopped_at};

#[tactic(auto, unfolding(crate::specs::Symbols::spot_named))]
fn spot_named(draft: &Draft, name: &[u8]) -> Option<Option<Spot>>
    ensures { result ≡ spot_named (layout_of draft.now) name.now }
{
    match name {
        b"." => Some(Some(draft.spot_here())),
        _ => match draft.spot_of(name) {
            Some(spot) => Some(Some(spot)),
            None if draft.is_known() || !is_label(name) => None,
            None => Some(None),
        },
    }
}

fn spot_plus(number: u64, spot: Option<Spot>) -> Option<Spot>
    ensures { result ≡ option_map (spot_plus number) spot }
{
    let Spot { section, offset } = spot?;
    let offset = offset.wrapping_add(low(number));
    Some(Spot { section, offset })
}

#[tactic(auto, unfolding(crate::specs::Symbols::sum_at))]
fn read_moved(spot: Option<Spot>, text: &[u8]) -> Read<'_, Option<Spot>>
    ensures { Gives (λ x. (x.0, x.1.now)) result (sum_at spot text.now) }
{
    let (number, rest) = read_added(text)?;
    Ok((spot_plus(number, spot), rest))
}

fn is_same(first: Section, second: Section) -> bool
    ensures { result ≡ is_same first second }
{
    matches!(
        (first, second),
        (Section::Text, Section::Text)
            | (Section::Rodata, Section::Rodata)
            | (Section::Data, Section::Data)
            | (Section::Bss, Section::Bss)
    )
}

// How far a place is behind another; none of two sections.
fn difference(first: Option<Spot>, second: Option<Spot>) -> Option<Option<Spot>>
    ensures { result ≡ difference first second }
{
    let (Some(first), Some(second)) = (first, second) else {
        return Some(None);
    };
    if !is_same(first.section, second.section) {
        return None;
    }
    let section = Section::Text;
    let offset = first.offset.wrapping_sub(second.offset);
    Some(Some(Spot { section, offset }))
}

#[tactic(auto, unfolding(crate::specs::Symbols::minus_at))]
fn skip_minus(text: &[u8]) -> Option<&[u8]>
    ensures { option_map (λ x. x.now) result ≡ minus_at text.now }
{
    let rest = skip_mark(b'-', text)?;
    if !is_label(split_name(rest).0) {
        return None;
    }
    Some(rest)
}

// What is left of a place where the name that follows is taken away.
#[tactic(auto, unfolding(crate::specs::Symbols::less_at))]
fn read_less<'a>(draft: &Draft, spot: Option<Spot>, text: &'a [u8]) -> Read<'a, Option<Spot>>
    ensures { Gives (λ x. (x.0, x.1.now)) result (less_at (layout_of draft.now) spot text.now) }
{
    let (name, rest) = split_name(text);
    let Some(taken) = spot_named(draft, name) else {
        return Err(stopped_at(text, Wanted::Symbol));
    };
    match difference(spot, taken) {
        Some(distance) => read_moved(distance, rest),
        None => Err(stopped_at(text, Wanted::SameSection)),
    }
}

#[tactic(auto, unfolding(crate::specs::Symbols::behind_at))]
fn read_behind<'a>(draft: &Draft, spot: Option<Spot>, text: &'a [u8]) -> Read<'a, Option<Spot>>
    ensures { Gives (λ x. (x.0, x.1.now)) result (behind_at (layout_of draft.now) spot text.now) }
{
    match skip_minus(text) {
        Some(name) => read_less(draft, spot, name),
        None => read_moved(spot, text),
    }
}

// The fault of what a name is to stand for: this one of a number, and one of its own where no digit begins it.
fn no_spot(name: &[u8], text: &[u8], unread: Unread) -> Unread {
    match name {
        [b'0'..=b'9', ..] => unread,
        _ => stopped_at(text, Wanted::Symbol),
    }
}

#[tactic(auto, unfolding(crate::specs::Symbols::spot_at))]
fn read_spot<'a>(draft: &Draft, text: &'a [u8]) -> Read<'a, Option<Spot>>
    ensures { Gives (λ x. (x.0, x.1.now)) result (spot_at (layout_of draft.now) text.now) }
{
    match read_expression(None, text) {
        Ok((number, rest)) => {
            let section = Section::Text;
            let offset = low(number);
            Ok((Some(Spot { section, offset }), rest))
        }
        Err(unread) => {
            let (name, rest) = split_name(text);
            match spot_named(draft, name) {
                Some(spot) => read_behind(draft, spot, rest),
                None => Err(no_spot(name, text, unread)),
            }
        }
    }
}

#[tactic(auto, unfolding(crate::specs::Symbols::named_at))]
fn read_named(mark: u8, text: &[u8]) -> Result<&[u8], Unread>
    ensures { Gives (λ x. x.now) result (named_at mark text.now) }
{
    let (name, rest) = split_name(text);
    if is_label(name) {
        read_mark(mark, Wanted::Comma, rest)
    } else {
        Err(stopped_at(text, Wanted::Label))
    }
}

#[tactic(auto, unfolding(crate::specs::Symbols::symbol_at))]
pub fn read_symbol<'a>(draft: &Draft, mark: u8, text: &'a [u8]) -> Read<'a, Statement>
    ensures { Gives (λ x. (x.0, x.1.now)) result (symbol_at (layout_of draft.now) mark text.now) }
{
    let rest = read_named(mark, text)?;
    let (spot, rest) = read_spot(draft, rest)?;
    let rest = read_end(rest)?;
    Ok((Statement::Symbol(spot), rest))
}

#[tactic(auto, unfolding(crate::specs::Symbols::equal_at))]
pub fn read_equal<'a>(draft: &Draft, text: &'a [u8]) -> Read<'a, Statement>
    ensures { Gives (λ x. (x.0, x.1.now)) result (equal_at (layout_of draft.now) text.now) }
{
    let (name, _) = split_name(text);
    match name {
        b"." => Err(stopped_at(text, Wanted::Statement)),
        _ => read_symbol(draft, b'=', text),
    }
}

#[tactic(auto, unfolding(crate::specs::Symbols::step_at))]
fn read_step(text: &[u8]) -> Read<'_, u32>
    ensures { Gives (λ x. (x.0, x.1.now)) result (step_at text.now) }
{
    match skip_mark(b',', text) {
        Some(rest) => read_count(rest),
        None => Ok((4, text)),
    }
}

// A name, a size and an alignment.
#[tactic(auto, unfolding(crate::specs::Symbols::room_at))]
fn read_room(text: &[u8]) -> Read<'_, (u32, u32)>
    ensures { Gives (λ x. (x.0, x.1.now)) result (room_at text.now) }
{
    let rest = read_named(b',', text)?;
    let (count, rest) = read_count(rest)?;
    let (step, rest) = read_step(rest)?;
    let rest = read_end(rest)?;
    Ok(((count, step), rest))
}

pub fn read_common(text: &[u8]) -> Read<'_, Statement>
    ensures { Gives (λ x. (x.0, x.1.now)) result (common_at text.now) }
{
    let ((count, step), rest) = read_room(text)?;
    Ok((Statement::Common(count, step), rest))
}

pub fn read_local_common(text: &[u8]) -> Read<'_, Statement>
    ensures { Gives (λ x. (x.0, x.1.now)) result (local_common_at text.now) }
{
    let ((count, step), rest) = read_room(text)?;
    Ok((Statement::LocalCommon(count, step), rest))
}

#[tactic(auto, unfolding(crate::specs::Symbols::bound_at))]
pub fn read_bound(linkage: Linkage, text: &[u8]) -> Read<'_, Statement>
    ensures { Gives (λ x. (x.0, x.1.now)) result (bound_at linkage text.now) }
{
    let (name, rest) = split_name(text);
    if !is_label(name) {
        return Err(stopped_at(text, Wanted::Label));
    }
    let (next, rest) = read_going(Next::Bound(linkage), rest)?;
    Ok((Statement::Bound(linkage, next), rest))
}
