// Text, to an image.

ghost use Rattle.std.specs.Prelude.{◌≡◌, ℕ, ◌⊎◌, List, IfOk, IfErr, MatchResult};
ghost use Rattle.svc_image.specs.Image.{IsImage};
ghost use Rattle.svc_image.specs.Image as value;
ghost use Rattle.svc_layout.specs.declared.statement.Statement.{Statement};
ghost use Rattle.svc_asm.specs.declared.assembling.Stop.TheVariants as halt;
ghost use Rattle.svc_asm.specs.declared.assembling.AssembleError.TheVariants as error;
ghost use Rattle.svc_layout.specs.declared.refusal.Refusal.TheVariants as lack;
ghost use Rattle.svc_draft.specs.Drafts.{layout_of};
ghost use Rattle.svc_layout.specs.Layouts.{Layout};
ghost use Rattle.svc_layout.specs.Lines.{after};
ghost use Rattle.svc_tokens.specs.Characters.{name_at};
ghost use Rattle.svc_asm.specs.Passes.{Takes};
ghost use Rattle.svc_asm.specs.Programs.{IsProgramOf};

use crate::found::{Found, found_in};
use crate::rounds::lay;
use std::alloc::Global;
use svc_asm_lines::read_next;
use svc_draft::Draft;
use svc_image::Image;
use svc_layout::{Next, Refusal, Statement};
use svc_tokens::{TEXT_END, Unread, Wanted, skip_spaces, split_name, stopped_at};
use thiserror::Error;

/// Why a text makes no image.
#[derive(Clone, Copy, Debug, Error)]
pub enum AssembleError {
    /// This stands at this line and column, counted from 1, where the text can't be read further, or what begins there
    /// may not stand there, or the lines up to there make no image.
    #[error("{line}:{column}: found {found}, expected {expected}")]
    Fault {
        /// Which text it stands in, counted from 0: how many FS stand above it.
        text: usize,
        line: usize,
        column: usize,
        found: Found,
        expected: Expected,
    },
    /// Memory ran out.
    #[error("out of memory")]
    Memory,
}

/// What may stand at a place instead.
#[derive(Clone, Copy, Debug, Error)]
pub enum Expected {
    /// Where the text can't be read further.
    #[error("{0}")]
    Read(Wanted),
    /// Where a line may not stand.
    #[error("{0}")]
    Stand(Refusal),
}

// Why reading stops: this is expected where so many bytes of the text are left, or there is no memory. The bytes come
// behind, as in `Unread`.
#[derive(Clone, Copy)]
pub(crate) enum Stop {
    Fault(Expected, usize),
    Memory,
}

fn unread_stop(unread: Unread) -> Stop {
    Stop::Fault(Expected::Read(unread.wanted), unread.left)
}

// How many bytes of the text are left from its second word on.
pub(crate) fn left_behind_name(text: &[u8]) -> usize {
    let (_, operands) = split_name(text);
    skip_spaces(operands).len()
}

// How many bytes of a line are left from what is refused on: the line itself, its operand, or a character of a string.
fn refused_at(next: Next, text: &[u8], refusal: Refusal) -> usize {
    match (next, refusal) {
        (Next::Character(_), _) => text.len(),
        (_, Refusal::ZeroRegister | Refusal::Limit) => left_behind_name(text),
        _ => skip_spaces(text).len(),
    }
}

// The name that a line is about: that of a label, or one that is set or bound. Nothing else depends on a name.
fn name_for(said: Statement, text: &[u8]) -> &[u8]
    ensures { (d : Layout) → after result.now said d ≡ after (name_at text.now) said d }
{
    match said {
        Statement::Label
        | Statement::Symbol(_)
        | Statement::Common(_, _)
        | Statement::LocalCommon(_, _)
        | Statement::Bound(_, _) => split_name(text).0,
        _ => b"",
    }
}

// Adds what the first line says, and answers that and what follows it.
pub(crate) fn take_line<'a>(
    text: &'a [u8],
    draft: &mut Draft<'a>,
) -> Result<(Statement, &'a [u8]), Stop>
    ensures ok { IfOk result (λ said.
        Takes text.now (layout_of draft.old) said.0 said.1.now (layout_of draft.new)) }
    ensures err { IfErr result (λ e. (e ≡ halt.Memory)
        ⊎ ((s : Statement) (rest : List ℕ) (next : Layout) → Takes text.now (layout_of draft.old) s rest next → ⊥)) }
{
    let (statement, rest) = match read_next(draft, text) {
        Ok(read) => read,
        Err(unread) => return Err(unread_stop(unread)),
    };
    // A line takes at least a byte.
    if rest.len() >= text.len() {
        return Err(unread_stop(stopped_at(text, Wanted::LineEnd)));
    }
    let next = draft.next();
    match draft.take(name_for(statement, text), statement) {
        Ok(()) => Ok((statement, rest)),
        Err(Refusal::Memory) => Err(Stop::Memory),
        Err(refusal) => {
            let left = refused_at(next, text, refusal);
            Err(Stop::Fault(Expected::Stand(refusal), left))
        }
    }
}

// Where so many bytes of the text are left: the number of the text among those that are joined, counted from 0, and its
// line and column, counted from 1.
fn place(text: &[u8], left: usize) -> (usize, usize, usize) {
    let (mut number, mut line, mut column) = (0usize, 1usize, 1usize);
    let front = text.len().saturating_sub(left);
    for &byte in text.iter().take(front) {
        match byte {
            // The line feed behind it begins the first line of the next text.
            TEXT_END => {
                number = number.saturating_add(1);
                (line, column) = (0, 1);
            }
            b'\n' => {
                line = line.saturating_add(1);
                column = 1;
            }
            _ => column = column.saturating_add(1),
        }
    }
    (number, line, column)
}

pub(crate) fn error_of(text: &[u8], stop: Stop) -> AssembleError
    ensures { (stop ≡ halt.Memory) → result ≡ error.Memory }
{
    match stop {
        Stop::Fault(expected, left) => {
            let (number, line, column) = place(text, left);
            AssembleError::Fault {
                text: number,
                line,
                column,
                found: found_in(text.split_at(text.len().saturating_sub(left)).1),
                expected,
            }
        }
        Stop::Memory => AssembleError::Memory,
    }
}

fn no_image(start: usize, refusal: Refusal) -> Stop
    ensures { (refusal ≡ lack.Memory) → result ≡ halt.Memory }
{
    match refusal {
        Refusal::Memory => Stop::Memory,
        Refusal::OtherStart => Stop::Fault(Expected::Stand(refusal), start),
        _ => Stop::Fault(Expected::Stand(refusal), 0),
    }
}

/// The image that a program's text makes. The text may be any bytes.
///
/// Errors: the text's first fault, or that memory ran out.
pub fn assemble(alloc: Global, text: &[u8]) -> Result<Image, AssembleError>
    ensures program { IfOk result (IsProgramOf text.now) }

    // A program of an image is assembled to that image.
    ensures whole { (img : value.Image) → IsImage img → IsProgramOf text.now img
        → MatchResult result (λ i. i ≡ img) (λ e. e ≡ error.Memory) }
{
    let mut labels = Vec::new(alloc);
    let (draft, start) = match lay(alloc, text, &mut labels) {
        Ok(laid) => laid,
        Err(stop) => return Err(error_of(text, stop)),
    };
    match draft.finish(alloc) {
        Ok(image) => Ok(image),
        Err(refusal) => Err(error_of(text, no_image(start, refusal))),
    }
}
