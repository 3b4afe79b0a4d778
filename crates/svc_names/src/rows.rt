// Rows with names at their ends.

ghost use Rattle.std.specs.Prelude.{◌≡◌, ◌++◌, OnOk, option_map};
ghost use Rattle.svc_names.specs.Rows.{address_in, row_address, column_of, data_address, ending_column, is_header};
ghost use Rattle.svc_names.specs.Rows.{machine_column, move_column, name_text, named_row, seen_column, shown_column};
ghost use Rattle.svc_names.specs.Rows.{with_names};

use crate::fields::field;
use crate::names::Names;
use std::alloc::AllocError;
use svc_image::DATA_START;
use svc_text::{Piece, put};
use svc_tokens::{Radix, is_word, value_of};

/// Which field of a row, counted from 0, tells an address.
#[derive(Clone, Copy)]
pub enum Column {
    /// One that has a byte address of the text.
    Text(usize),
    /// One that has the number of a word of data.
    Word(usize),
}

/// The rows of a text, which say by their first field what they tell.
#[derive(Clone, Copy)]
pub enum Rows {
    /// Those of a machine.
    Shown,
    /// Counts, and how a run ended.
    Counts,
    /// Counts, and what can be seen of a history, in rows that say by their second field what it is.
    Seen,
    /// A header, and rows that begin with a number and have an address in this column, if in any.
    Table(Option<Column>),
}

// Whether a row is the header of a table: it begins with no number.
fn is_header(rows: Rows, row: &[u8]) -> bool
    ensures { result ≡ is_header rows row.now }
{
    match rows {
        Rows::Table(_) => value_of(Radix::Decimal, field(row, 0)).is_none(),
        Rows::Shown | Rows::Counts | Rows::Seen => false,
    }
}

// The column of the address in a row of a machine that doesn't say what may come next, by the row's first field.
#[tactic(auto, unfolding(crate::specs::Rows::shown_column))]
fn shown_column(first: &[u8]) -> Option<Column>
    ensures { result ≡ shown_column first.now }
{
    if is_word(first, "task") {
        Some(Column::Text(3))
    } else if is_word(first, "due") || is_word(first, "guess") {
        Some(Column::Text(1))
    } else if is_word(first, "pc") {
        Some(Column::Text(2))
    } else if is_word(first, "line") {
        Some(Column::Word(2))
    } else if is_word(first, "spill") || is_word(first, "order") || is_word(first, "memory") {
        Some(Column::Word(1))
    } else {
        ending_column(first)
    }
}

// The column of the address in a row of what may come next, by its kind.
#[tactic(auto, unfolding(crate::specs::Rows::move_column))]
fn move_column(kind: &[u8]) -> Option<Column>
    ensures { result ≡ move_column kind.now }
{
    if is_word(kind, "assign") {
        Some(Column::Text(3))
    } else if is_word(kind, "replace") {
        Some(Column::Word(3))
    } else {
        None
    }
}

// The column of the address in a row of a machine, by the row's first field and, where it says what may come next, by
// its kind.
#[tactic(auto, unfolding(crate::specs::Rows::machine_column))]
fn machine_column(first: &[u8], kind: &[u8]) -> Option<Column>
    ensures { result ≡ machine_column first.now kind.now }
{
    if is_word(first, "move") {
        move_column(kind)
    } else {
        shown_column(first)
    }
}

// The column of the address in a row that says how a run ended.
#[tactic(auto, unfolding(crate::specs::Rows::ending_column))]
fn ending_column(first: &[u8]) -> Option<Column>
    ensures { result ≡ ending_column first.now }
{
    if is_word(first, "full") || is_word(first, "open") {
        Some(Column::Text(1))
    } else {
        None
    }
}

// The column of the address in a row of what can be seen, by what it is.
#[tactic(auto, unfolding(crate::specs::Rows::seen_column))]
fn seen_column(what: &[u8]) -> Column
    ensures { result ≡ seen_column what.now }
{
    if is_word(what, "begin") {
        Column::Text(4)
    } else {
        Column::Word(3)
    }
}

// The column of a row's address, if it has one.
fn column_of(rows: Rows, row: &[u8]) -> Option<Column>
    ensures { result ≡ column_of rows row.now }
{
    match rows {
        Rows::Shown => machine_column(field(row, 0), field(row, 2)),
        Rows::Counts => ending_column(field(row, 0)),
        Rows::Seen => Some(seen_column(field(row, 1))),
        Rows::Table(column) => column,
    }
}

/// The byte address of a word of data.
pub fn data_address(word: u32) -> u64
    ensures { result ≡ data_address word }
{
    u64::from(DATA_START) + 4 * u64::from(word)
}

// The address in a column of a row.
fn address_in(column: Column, row: &[u8]) -> Option<u64>
    ensures { result ≡ address_in column row.now }
{
    match column {
        Column::Text(place) => value_of(Radix::Decimal, field(row, place)).map(u64::from),
        Column::Word(place) => value_of(Radix::Decimal, field(row, place)).map(data_address),
    }
}

// The address of a row, if it has one.
fn row_address(rows: Rows, row: &[u8]) -> Option<u64>
    ensures { result ≡ row_address rows row.now }
{
    let column = column_of(rows, row)?;
    address_in(column, row)
}

impl Names {
    // Adds the name of an address, if it has one.
    fn put_name(&self, text: &mut Vec<u8>, address: Option<u64>) -> Result<(), AllocError>
        ensures { OnOk result (text.new.items ≡ text.old.items ++ name_text self.now.list.items address) }
    {
        let Some(address) = address else {
            return Ok(());
        };
        match self.nearest(address) {
            Some(near) => near.put(text),
            None => Ok(()),
        }
    }

    // Adds a row, and at its end the name of its address.
    fn put_row(&self, text: &mut Vec<u8>, rows: Rows, row: &[u8]) -> Result<(), AllocError>
        ensures { OnOk result (text.new.items ≡ text.old.items ++ named_row self.now.list.items rows row.now) }
    {
        put!(text; row, ",");
        if is_header(rows, row) {
            "name".put(text)?;
        } else {
            self.put_name(text, row_address(rows, row))?;
        }
        "\n".put(text)
    }

    /// Adds the rows of a text, each with the name of its address at its end.
    ///
    /// Errors: [`AllocError`], if memory runs out.
    pub fn put_rows(&self, text: &mut Vec<u8>, rows: Rows, told: &[u8]) -> Result<(), AllocError>
        ensures { OnOk result (text.new.items ≡ text.old.items ++ with_names self.now.list.items rows told.now) }
    {
        let mut from = 0;
        for at in 0..told.len() {
            if told[at] == b'\n' {
                self.put_row(text, rows, &told[from..at])?;
                from = at + 1;
            }
        }
        told[from..].put(text)
    }
}
