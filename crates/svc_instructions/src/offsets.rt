// How far branches and jumps go: to a value, or a number of bytes from here.

ghost use Rattle.std.specs.Prelude.{◌≡◌, ◌≤◌};
ghost use Rattle.svc_draft.specs.Drafts.{layout_of};
ghost use Rattle.svc_tokens.specs.Tokens.{Gives};
ghost use Rattle.svc_instructions.specs.Offsets.{reach, reach_at, offset_from, offset_at, target_at, jump_at};
ghost use Rattle.svc_instructions.specs.Offsets.{is_far, branch_at, behind_word, steps_behind, jump_behind_at};

use crate::steps::{distance, half_of, signed_bits, steps_of};
use svc_draft::Draft;
use svc_expressions::{Signed, read_added, read_value, signed_of};
use svc_tokens::{Read, Wanted, split_name, stopped_at};

// No way at all.
const NOWHERE: Signed = Signed {
    negative: false,
    magnitude: 0,
};

fn reach(draft: &Draft, address: u32) -> Signed
    ensures { result ≡ reach (layout_of draft.now) address }
{
    if draft.is_known() {
        distance(draft.here(), address)
    } else {
        NOWHERE
    }
}

#[tactic(auto, unfolding(crate::specs::Offsets::reach_at))]
fn read_reach<'a>(draft: &Draft, text: &'a [u8]) -> Read<'a, Signed>
    ensures { Gives (λ x. (x.0, x.1.now)) result (reach_at (layout_of draft.now) text.now) }
{
    match read_value(draft, text) {
        Ok((address, rest)) => Ok((reach(draft, address), rest)),
        Err(_) => Err(stopped_at(text, Wanted::Target)),
    }
}

#[tactic(auto, unfolding(crate::specs::Offsets::offset_from))]
fn read_offset_from(text: &[u8]) -> Read<'_, Signed>
    ensures { Gives (λ x. (x.0, x.1.now)) result (offset_from text.now) }
{
    let (number, rest) = read_added(text)?;
    match signed_of(number) {
        Some(offset) => Ok((offset, rest)),
        None => Err(stopped_at(text, Wanted::Number)),
    }
}

#[tactic(auto, unfolding(crate::specs::Offsets::offset_at))]
fn read_offset<'a>(draft: &Draft, text: &'a [u8]) -> Read<'a, Signed>
    ensures { Gives (λ x. (x.0, x.1.now)) result (offset_at (layout_of draft.now) text.now) }
{
    let (name, rest) = split_name(text);
    match name {
        b"." => read_offset_from(rest),
        _ => read_reach(draft, text),
    }
}

// How far it is to a target, in steps of two bytes, as a number of which half are forward.
#[tactic(auto, unfolding(crate::specs::Offsets::target_at))]
fn read_target<'a>(draft: &Draft, half: u32, text: &'a [u8]) -> Read<'a, u32>
    requires { half ≤ 524288 }
    ensures { Gives (λ x. (x.0, x.1.now)) result (target_at half (layout_of draft.now) text.now) }
{
    let (offset, rest) = read_offset(draft, text)?;
    match steps_of(half, offset) {
        Some(steps) => Ok((steps, rest)),
        None => Err(stopped_at(text, Wanted::Offset)),
    }
}

// How far a jump goes, in steps of two bytes, as a number of 20 bits.
pub(crate) fn read_jump<'a>(draft: &Draft, text: &'a [u8]) -> Read<'a, u32>
    ensures { Gives (λ x. (x.0, x.1.now)) result (jump_at (layout_of draft.now) text.now) }
{
    read_target(draft, 524_288, text)
}

// Whether a branch is two instructions: it is turned, or its target's name is weak or another text's.
fn is_far(draft: &Draft, text: &[u8]) -> bool
    ensures { result ≡ is_far (layout_of draft.now) text.now }
{
    if draft.is_turned(text.len()) {
        return true;
    }
    draft.is_foreign(split_name(text).0)
}

// How far a branch of one instruction goes, in steps of two bytes, as a number of 12 bits.
#[tactic(auto, unfolding(crate::specs::Offsets::branch_at))]
pub(crate) fn read_branch<'a>(draft: &Draft, text: &'a [u8]) -> Read<'a, u32>
    ensures { Gives (λ x. (x.0, x.1.now)) result (branch_at (layout_of draft.now) text.now) }
{
    if is_far(draft, text) {
        return Err(stopped_at(text, Wanted::Offset));
    }
    read_target(draft, 2048, text)
}

// As many steps from the next word, which stands two steps behind here.
fn behind_word(steps: Signed) -> Signed
    requires { steps.magnitude ≤ 2147483648 }
    ensures { result ≡ behind_word steps }
{
    if steps.negative {
        return Signed {
            negative: true,
            magnitude: steps.magnitude + 2,
        };
    }
    distance(2, steps.magnitude)
}

// Steps from the next word, as a number of 20 bits.
#[tactic(auto, unfolding(crate::specs::Offsets::steps_behind))]
fn steps_behind(offset: Signed) -> Option<u32>
    ensures { result ≡ steps_behind offset }
{
    signed_bits(524_288, behind_word(half_of(offset)?))
}

// How far a jump goes that stands a word behind here, in steps of two bytes, as a number of 20 bits.
#[tactic(auto, unfolding(crate::specs::Offsets::jump_behind_at))]
pub(crate) fn read_jump_behind<'a>(draft: &Draft, text: &'a [u8]) -> Read<'a, u32>
    ensures { Gives (λ x. (x.0, x.1.now)) result (jump_behind_at (layout_of draft.now) text.now) }
{
    let (offset, rest) = read_offset(draft, text)?;
    match steps_behind(offset) {
        Some(steps) => Ok((steps, rest)),
        None => Err(stopped_at(text, Wanted::Offset)),
    }
}
