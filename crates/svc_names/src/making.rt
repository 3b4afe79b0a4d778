// Tables of names that are made of labels, and their text.

ghost use Rattle.std.specs.Prelude.{◌≡◌, ◌++◌, ◌∷◌, [], ℕ, List, false, IfOk, OnOk, flat_map, map};
ghost use Rattle.std.specs.List.Sorted.{IsPermutation, IsSortedBy};
ghost use Rattle.std.specs.Ordering.{is_lt};
ghost use Rattle.svc_asm.specs.declared.labels.Label.{Label};
ghost use Rattle.svc_asm.specs.Labels.{parts_of};
ghost use Rattle.svc_names.specs.Made.{IsTableOf, NotBelow, compared, is_below, name_row, table_text};

use crate::name::{Name, comes_next, is_name_text};
use crate::names::Names;
use crate::reading::push_name;
use std::alloc::{AllocError, Global};
use svc_asm::Label;
use svc_text::{Piece, put};

// Puts labels in the order of a table.
fn put_in_order(labels: &mut Vec<Label<'_>>)
    ensures same { IsPermutation labels.old.items labels.new.items }
    ensures order { IsSortedBy is_below labels.new.items }
{
    labels.sort_unstable_by_key(|label| (label.address, label.name));
}

// Adds a label that stands at or behind the last of these names, unless it stands there, or its name is too long.
fn add_label(alloc: Global, label: Label<'_>, names: &mut Vec<Name>) -> Result<(), AllocError>
    ensures made { OnOk result ((before : List Label) → IsTableOf (map parts_of before) names.old.items
        → NotBelow names.old.items (parts_of label.entry)
        → IsTableOf (map parts_of (before ++ label.entry ∷ [])) names.new.items) }
    ensures low { OnOk result ((pair : List ℕ × ℕ) → is_lt (compared pair (parts_of label.entry)) ≡ false
        → NotBelow names.old.items pair → NotBelow names.new.items pair) }
{
    if !is_name_text(label.name) {
        return Ok(());
    }
    if !comes_next(names, label.name, label.address) {
        return Ok(());
    }
    push_name(alloc, names, label.name, label.address)?;
    Ok(())
}

// Makes the table of labels that are in its order, of an empty list. The list is lent, so that no early return drops
// it.
fn add_labels(alloc: Global, labels: &[Label<'_>], names: &mut Vec<Name>) -> Result<(), AllocError>
    requires order { IsSortedBy is_below labels.now }
    requires empty { names.old.items ≡ [] }
    ensures { OnOk result (IsTableOf (map parts_of labels.now) names.new.items) }
{
    for label in labels {
        add_label(alloc, *label, names)?;
    }
    Ok(())
}

// Adds the row of a name.
fn put_row(text: &mut Vec<u8>, name: &Name) -> Result<(), AllocError>
    ensures { OnOk result (text.new.items ≡ text.old.items ++ name_row name.now) }
{
    put!(text; name.text.as_slice(), ",", name.address, "\n");
    Ok(())
}

// Adds the rows of names.
fn put_rows(text: &mut Vec<u8>, names: &[Name]) -> Result<(), AllocError>
    ensures { OnOk result (text.new.items ≡ text.old.items ++ flat_map name_row names.now) }
{
    for name in names {
        put_row(text, name)?;
    }
    Ok(())
}

impl Names {
    /// The table of some labels: each of them once, in the order of a table, but none whose name is too long for one.
    ///
    /// Errors: [`AllocError`], if memory runs out.
    pub fn of(alloc: Global, labels: Vec<Label<'_>>) -> Result<Names, AllocError>
        ensures { IfOk result (λ names. IsTableOf (map parts_of labels.entry.items) names.list.items) }
    {
        let mut labels = labels;
        put_in_order(&mut labels);
        let mut list = Vec::new(alloc);
        add_labels(alloc, &labels, &mut list)?;
        Ok(Names { list })
    }

    /// Adds the text of the table, which [`Names::read`] reads.
    ///
    /// Errors: [`AllocError`], if memory runs out.
    pub fn put_table(&self, text: &mut Vec<u8>) -> Result<(), AllocError>
        ensures { OnOk result (text.new.items ≡ text.old.items ++ table_text self.now.list.items) }
    {
        "name,address\n".put(text)?;
        put_rows(text, &self.list)?;
        Ok(())
    }
}
