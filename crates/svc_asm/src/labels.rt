// The names that a text gives to addresses.

ghost use Rattle.std.specs.Prelude.{◌≡◌, ◌++◌, ◌⊎◌, [], ℕ, List, IfErr, IfOk, OnOk, map};
ghost use Rattle.svc_layout.specs.declared.statement.Statement.{Statement};
ghost use Rattle.svc_draft.specs.Drafts.{layout_of};
ghost use Rattle.svc_layout.specs.Layouts.{Layout};
ghost use Rattle.svc_asm.specs.declared.assembling.AssembleError.TheVariants as error;
ghost use Rattle.svc_asm.specs.declared.assembling.Stop.TheVariants as halt;
ghost use Rattle.svc_asm.specs.Labels.{Gives, is_hidden, label_in, names_place, parts_of};
ghost use Rattle.svc_asm.specs.Passes.{Takes};
ghost use Rattle.svc_asm.specs.Programs.{HasLabels, IsLaid};
ghost use Rattle.svc_tokens.specs.Characters.{name_at};

use crate::assembling::{AssembleError, Stop, error_of, left_behind_name, take_line};
use crate::rounds::lay;
use std::alloc::{AllocError, Global};
use svc_draft::Draft;
use svc_layout::Statement;
use svc_tokens::split_name;

/// A name that a program gives to an address: that of a label, or of zeros in `.bss`.
#[derive(Clone, Copy)]
pub struct Label<'a> {
    /// Its characters.
    pub name: &'a [u8],
    /// The byte address that it stands for.
    pub address: u32,
}

// Whether a name is one that no object file has.
fn is_hidden(name: &[u8]) -> bool
    ensures { result ≡ is_hidden name.now }
{
    name.starts_with(".L".as_bytes())
}

// Whether a line gives its name to what stands there.
fn names_place(said: Statement) -> bool
    ensures { result ≡ names_place said }
{
    matches!(
        said,
        Statement::Label | Statement::Common(_, _) | Statement::LocalCommon(_, _)
    )
}

// Adds the label that a line gives, if it gives one.
fn add_label<'a>(
    draft: &Draft<'a>,
    line: &'a [u8],
    said: Statement,
    labels: &mut Vec<Label<'a>>,
) -> Result<(), AllocError>
    ensures { OnOk result (map parts_of labels.new.items
        ≡ map parts_of labels.old.items ++ label_in (layout_of draft.now) (name_at line.now) said) }
{
    if !names_place(said) {
        return Ok(());
    }
    let (name, _) = split_name(line);
    if is_hidden(name) {
        return Ok(());
    }
    if let Some(address) = draft.own_address(name) {
        labels.push(Label { name, address })?;
    }
    Ok(())
}

// Adds what the first line says, and its label, and answers that and what follows it.
fn take_labelled<'a>(
    text: &'a [u8],
    draft: &mut Draft<'a>,
    labels: &mut Vec<Label<'a>>,
) -> Result<(Statement, &'a [u8]), Stop>
    ensures takes { IfOk result (λ said.
        Takes text.now (layout_of draft.old) said.0 said.1.now (layout_of draft.new)) }
    ensures labels { IfOk result (λ said. map parts_of labels.new.items
        ≡ map parts_of labels.old.items ++ label_in (layout_of draft.new) (name_at text.now) said.0) }
    ensures err { IfErr result (λ e. (e ≡ halt.Memory)
        ⊎ ((s : Statement) (rest : List ℕ) (next : Layout) → Takes text.now (layout_of draft.old) s rest next → ⊥)) }
{
    let (said, rest) = take_line(text, draft)?;
    match add_label(draft, text, said, labels) {
        Ok(()) => Ok((said, rest)),
        Err(_) => Err(Stop::Memory),
    }
}

// How many bytes of the text are left from the value of the last `.svc_start` on, behind this line.
fn start_behind(said: Statement, line: &[u8], before: usize) -> usize {
    match said {
        Statement::Start(_) => left_behind_name(line),
        _ => before,
    }
}

// Adds what every line says, and all labels, to none, and answers how many bytes are left from the value of the last
// `.svc_start` on.
pub(crate) fn take_labelled_lines<'a>(
    text: &'a [u8],
    draft: &mut Draft<'a>,
    labels: &mut Vec<Label<'a>>,
) -> Result<usize, Stop>
    requires { labels.old.items ≡ [] }
    ensures ok { IfOk result (λ _. (ss : List Statement)
        × Gives ss text.now (layout_of draft.old) (layout_of draft.new) (map parts_of labels.new.items)) }
    ensures err { IfErr result (λ e. (e ≡ halt.Memory)
        ⊎ ((ss : List Statement) (made : Layout) (given : List (List ℕ × ℕ))
        → Gives ss text.now (layout_of draft.old) made given → ⊥)) }
{
    let mut rest = text;
    let mut start = 0;
    while !rest.is_empty() {
        let (said, behind) = take_labelled(rest, draft, labels)?;
        start = start_behind(said, rest, start);
        rest = behind;
    }
    Ok(start)
}

/// The labels of a text, in the order of its lines. The text may be any bytes; one that [`crate::assemble`] makes an
/// image of has labels.
///
/// Errors: the text's first fault, or that memory ran out.
pub fn labels_of(alloc: Global, text: &[u8]) -> Result<Vec<Label<'_>>, AssembleError>
    ensures labels { IfOk result (λ labels. HasLabels text.now (map parts_of labels.items)) }

    // A text whose lines may stand where they do has labels, unless memory runs out.
    ensures whole { (made : Layout) → IsLaid text.now made → IfErr result (λ e. e ≡ error.Memory) }
{
    let mut labels = Vec::new(alloc);
    match lay(alloc, text, &mut labels) {
        Ok(_laid) => Ok(labels),
        Err(stop) => Err(error_of(text, stop)),
    }
}
