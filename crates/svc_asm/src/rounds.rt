// Rounds: each reads a text twice or more, and turns the branches that the one before found too far from their targets.

ghost use Rattle.std.specs.Prelude.{◌≡◌, ◌⊎◌, ℕ, List, IfErr, IfOk, map};
ghost use Rattle.svc_layout.specs.declared.statement.Statement.{Statement};
ghost use Rattle.svc_draft.specs.Drafts.{layout_of};
ghost use Rattle.svc_layout.specs.Layouts.{Layout};
ghost use Rattle.svc_layout.specs.Passes.{first_pass};
ghost use Rattle.svc_asm.specs.declared.assembling.Stop.TheVariants as halt;
ghost use Rattle.svc_asm.specs.Labels.{parts_of};
ghost use Rattle.svc_asm.specs.Passes.{Makes};
ghost use Rattle.svc_asm.specs.Programs.{Begins, Finds, IsPass, IsRound, Settles};

use crate::assembling::{Stop, take_line};
use crate::labels::{Label, take_labelled_lines};
use std::alloc::Global;
use svc_draft::Draft;

/// The most rounds in which only some branches are turned: they bound the time. Each turned branch moves what is behind
/// it, which may bring others too far, but few rounds ever do.
pub const MOST_ROUNDS: usize = 16;

/// How often a first pass is made once more at most: so many names, each set to the next one further down, are found.
pub const MOST_PASSES: usize = 8;

// Adds what every line says, and ends the last text.
fn take_lines<'a>(text: &'a [u8], draft: &mut Draft<'a>) -> Result<(), Stop>
    ensures ok { IfOk result (λ _. IsPass text.now (layout_of draft.old) (layout_of draft.new)) }
    ensures err { IfErr result (λ e. (e ≡ halt.Memory)
        ⊎ ((made : Layout) → IsPass text.now (layout_of draft.old) made → ⊥)) }
{
    let mut rest = text;
    while !rest.is_empty() {
        let (_said, behind) = take_line(rest, draft)?;
        rest = behind;
    }
    match draft.end_text() {
        Ok(()) => Ok(()),
        Err(_) => Err(Stop::Memory),
    }
}

// A first pass that finds the names, which is made once more so often at most.
fn find<'a>(
    alloc: Global,
    text: &'a [u8],
    passes: usize,
    begun: Draft<'a>,
) -> Result<Draft<'a>, Stop>
    ensures ok { IfOk result (λ first. Finds passes text.now (layout_of begun.entry) (layout_of first)) }
    ensures err { IfErr result (λ e. (e ≡ halt.Memory)
        ⊎ ((made : Layout) → Finds passes text.now (layout_of begun.entry) made → ⊥)) }
{
    let mut pass = begun;
    take_lines(text, &mut pass)?;
    if passes == 0 {
        return Ok(pass);
    }
    if !pass.lacks() {
        return Ok(pass);
    }
    let more = pass.once_more(alloc);
    let first = find(alloc, text, passes - 1, more)?;
    Ok(first)
}

// How the pass begins that lays the text, behind the first one.
fn begin<'a>(alloc: Global, text: &'a [u8], first: Draft<'a>) -> Result<Draft<'a>, Stop>
    ensures ok { IfOk result (λ laid.
        Begins (layout_of first.entry).has_distances text.now (layout_of first.entry) (layout_of laid)) }
    ensures err { IfErr result (λ e. (e ≡ halt.Memory) ⊎ ((made : Layout)
        → Begins (layout_of first.entry).has_distances text.now (layout_of first.entry) made → ⊥)) }
{
    if !first.has_distances() {
        return Ok(first.again(alloc));
    }
    let mut measuring = first.to_measure(alloc);
    take_lines(text, &mut measuring)?;
    Ok(measuring.to_lay(alloc))
}

// One round, from how its first pass begins. Beside how it ends, how many bytes are left from the value of the last
// `.svc_start` on.
fn lay_round<'a>(
    alloc: Global,
    text: &'a [u8],
    begun: Draft<'a>,
    labels: &mut Vec<Label<'a>>,
) -> Result<(Draft<'a>, usize), Stop>
    ensures ok { IfOk result (λ laid.
        IsRound text.now (layout_of begun.entry) (layout_of laid.0) (map parts_of labels.new.items)) }
    ensures err { IfErr result (λ e. (e ≡ halt.Memory) ⊎ ((made : Layout) (given : List (List ℕ × ℕ))
        → IsRound text.now (layout_of begun.entry) made given → ⊥)) }
{
    let first = find(alloc, text, MOST_PASSES, begun)?;
    let mut draft = begin(alloc, text, first)?;
    labels.clear();
    let start = take_labelled_lines(text, &mut draft, labels)?;
    Ok((draft, start))
}

// So many rounds and a last one, up to the first in which each branch reaches its target.
fn settle<'a>(
    alloc: Global,
    text: &'a [u8],
    rounds: usize,
    begun: Draft<'a>,
    labels: &mut Vec<Label<'a>>,
) -> Result<(Draft<'a>, usize), Stop>
    ensures ok { IfOk result (λ laid.
        Settles rounds text.now (layout_of begun.entry) (layout_of laid.0) (map parts_of labels.new.items)) }
    ensures err { IfErr result (λ e. (e ≡ halt.Memory) ⊎ ((made : Layout) (given : List (List ℕ × ℕ))
        → Settles rounds text.now (layout_of begun.entry) made given → ⊥)) }
{
    if rounds == 0 {
        return lay_round(alloc, text, Draft::last_round(alloc), labels);
    }
    let (draft, start) = lay_round(alloc, text, begun, labels)?;
    if !draft.grew() {
        return Ok((draft, start));
    }
    let next = draft.next_round(alloc);
    let (settled, start) = settle(alloc, text, rounds - 1, next, labels)?;
    Ok((settled, start))
}

/// What the lines of a text make, and its labels, in the order of their lines. Beside that, how many bytes are left
/// from
/// the value of the last `.svc_start` on.
pub(crate) fn lay<'a>(
    alloc: Global,
    text: &'a [u8],
    labels: &mut Vec<Label<'a>>,
) -> Result<(Draft<'a>, usize), Stop>
    ensures ok { IfOk result (λ laid.
        Settles MOST_ROUNDS text.now first_pass (layout_of laid.0) (map parts_of labels.new.items)) }
    ensures err { IfErr result (λ e. (e ≡ halt.Memory) ⊎ ((made : Layout) (given : List (List ℕ × ℕ))
        → Settles MOST_ROUNDS text.now first_pass made given → ⊥)) }
{
    settle(alloc, text, MOST_ROUNDS, Draft::new(alloc), labels)
}
