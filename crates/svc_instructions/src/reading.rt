// A name and its operands, read by the table, and a word's row of it.

ghost use Rattle.std.specs.Prelude.{◌≡◌, ◌<◌, IfSome, IfOk};
ghost use Rattle.svc_tokens.specs.Names.{number_named};
ghost use Rattle.svc_tokens.specs.Tokens.{Gives};
ghost use Rattle.svc_instructions.specs.Instructions.{order_at, orders_at, fence_at, part_bits, part_at, with_part};
ghost use Rattle.svc_instructions.specs.Instructions.{parts_of, parts_at, row_at, rows_at, either_at, alone_at};
ghost use Rattle.svc_instructions.specs.Instructions.{part_number, with_funct3, with_funct7, fixed_bits, is_of, row_of};
ghost use Rattle.svc_draft.specs.Drafts.{layout_of};
ghost use Rattle.std.specs.List.{find};

use crate::immediates::{read_short, read_upper};
use crate::offsets::{read_branch, read_jump};
use crate::table::{ALIASES, Part, ROWS, Row, parts_of};
use svc_draft::Draft;
use svc_expressions::read_below;
use svc_layout::Statement;
use svc_tokens::{
    Name, Named, Read, Unread, Wanted, is_over, number_named, read_base, read_mark, read_register,
    split_name, stopped_at,
};

/// Sets of accesses by their letters, as four bits: input, output, reads and writes.
pub static ORDERS: [Named; 15] = [
    Named(*b"w               ", 1),
    Named(*b"r               ", 2),
    Named(*b"rw              ", 3),
    Named(*b"o               ", 4),
    Named(*b"ow              ", 5),
    Named(*b"or              ", 6),
    Named(*b"orw             ", 7),
    Named(*b"i               ", 8),
    Named(*b"iw              ", 9),
    Named(*b"ir              ", 10),
    Named(*b"irw             ", 11),
    Named(*b"io              ", 12),
    Named(*b"iow             ", 13),
    Named(*b"ior             ", 14),
    Named(*b"iorw            ", 15),
];

fn order_named(name: &[u8]) -> Option<u32>
    ensures value { result ≡ number_named ORDERS name.now }
    ensures small { IfSome result (λ n. n < 16) }
{
    number_named(&ORDERS, name)
}

#[tactic(auto, unfolding(crate::specs::Instructions::order_at))]
fn read_order(text: &[u8]) -> Read<'_, u32>
    ensures gives { Gives (λ x. (x.0, x.1.now)) result (order_at text.now) }
    ensures small { IfOk result (λ x. x.0 < 16) }
{
    let (name, rest) = split_name(text);
    match order_named(name) {
        Some(order) => Ok((order, rest)),
        None => Err(stopped_at(text, Wanted::Order)),
    }
}

#[tactic(auto, unfolding(crate::specs::Instructions::orders_at))]
fn read_orders(text: &[u8]) -> Read<'_, u32>
    ensures { Gives (λ x. (x.0, x.1.now)) result (orders_at text.now) }
{
    let (before, rest) = read_order(text)?;
    let rest = read_mark(b',', Wanted::Comma, rest)?;
    let (behind, rest) = read_order(rest)?;
    Ok((16 * before + behind, rest))
}

#[tactic(auto, unfolding(crate::specs::Instructions::fence_at))]
pub fn read_fence(text: &[u8]) -> Read<'_, u32>
    ensures { Gives (λ x. (x.0, x.1.now)) result (fence_at text.now) }
{
    let (name, _) = split_name(text);
    match name {
        [] => Ok((0xff, text)),
        _ => read_orders(text),
    }
}

#[tactic(auto, unfolding(crate::specs::Instructions::part_bits))]
pub fn part_bits(part: Part, n: u32) -> u32
    ensures { result ≡ part_bits part n }
{
    match part {
        Part::End | Part::Comma => 0,
        Part::Rd => n % 32 << 7,
        Part::Rs1 | Part::Base => n % 32 << 15,
        Part::Rs2 | Part::Amount => n % 32 << 20,
        Part::Immediate | Part::Order => n % 4096 << 20,
        Part::StoreOffset => (n % 32 << 7) + ((n >> 5) % 128 << 25),
        Part::Branch => {
            (n % 16 << 8) + ((n >> 4) % 64 << 25) + ((n >> 10) % 2 << 7) + ((n >> 11) % 2 << 31)
        }
        Part::Upper => n % 1048576 << 12,
        Part::Jump => {
            (n % 1024 << 21)
                + ((n >> 10) % 2 << 20)
                + ((n >> 11) % 256 << 12)
                + ((n >> 19) % 2 << 31)
        }
    }
}

pub fn with_part(word: u32, part: Part, n: u32) -> u32
    ensures { result ≡ with_part word part n }
{
    word.wrapping_add(part_bits(part, n))
}

#[tactic(auto, unfolding(crate::specs::Instructions::part_at))]
pub fn read_part<'a>(draft: &Draft, part: Part, text: &'a [u8]) -> Read<'a, u32>
    ensures { Gives (λ x. (x.0, x.1.now)) result (part_at (layout_of draft.now) part text.now) }
{
    match part {
        Part::End => Ok((0, text)),
        Part::Comma => {
            let rest = read_mark(b',', Wanted::Comma, text)?;
            Ok((0, rest))
        }
        Part::Rd | Part::Rs1 | Part::Rs2 => {
            let (register, rest) = read_register(text)?;
            Ok((register.number as u32, rest))
        }
        Part::Base => {
            let (register, rest) = read_base(text)?;
            Ok((register.number as u32, rest))
        }
        Part::Immediate | Part::StoreOffset => read_short(draft, text),
        Part::Amount => read_below(32, text),
        Part::Upper => read_upper(draft, text),
        Part::Order => read_fence(text),
        Part::Branch => read_branch(draft, text),
        Part::Jump => read_jump(draft, text),
    }
}

fn read_parts<'a>(draft: &Draft, row: &Row, text: &'a [u8]) -> Read<'a, u32>
    ensures { Gives (λ x. (x.0, x.1.now)) result
        (parts_at (layout_of draft.now) (parts_of row.now) text.now row.now.1) }
{
    let mut word = row.1;
    let mut rest = text;
    for part in parts_of(*row).iter() {
        let (number, behind) = read_part(draft, *part, rest)?;
        word = with_part(word, *part, number);
        rest = behind;
    }
    Ok((word, rest))
}

#[tactic(auto, unfolding(crate::specs::Instructions::row_at))]
fn read_row<'a>(draft: &Draft, row: &Row, text: &'a [u8]) -> Read<'a, u32>
    ensures { Gives (λ x. (x.0, x.1.now)) result (row_at (layout_of draft.now) row.now text.now) }
{
    let (word, rest) = read_parts(draft, row, text)?;
    if is_over(rest) {
        Ok((word, rest))
    } else {
        Err(stopped_at(rest, Wanted::LineEnd))
    }
}

/// Of the faults of two rows the one that is further on, or at one place the later row's, unless that only wants a
/// number or a parenthesis. Where only a comma was wanted, the earlier row isn't what was meant.
pub fn further(fault: Unread, later: Unread) -> Unread {
    let replaces = later.left < fault.left
        || (later.left == fault.left && !matches!(later.wanted, Wanted::Number | Wanted::Open));
    if replaces || matches!(fault.wanted, Wanted::Comma) {
        later
    } else {
        fault
    }
}

fn read_rows<'a>(
    draft: &Draft,
    rows: &[Row],
    name: Name,
    text: &'a [u8],
    fault: Unread,
) -> Read<'a, u32>
    ensures { Gives (λ x. (x.0, x.1.now)) result (rows_at (layout_of draft.now) rows.now name text.now) }
{
    let mut fault = fault;
    for row in rows {
        if name == row.0 {
            match read_row(draft, row, text) {
                Ok(read) => return Ok(read),
                Err(later) => fault = further(fault, later),
            }
        }
    }
    Err(fault)
}

fn read_either<'a>(
    draft: &Draft,
    rows: &[Row],
    more: &[Row],
    name: Name,
    text: &'a [u8],
    fault: Unread,
) -> Read<'a, u32>
    ensures { Gives (λ x. (x.0, x.1.now)) result (either_at (layout_of draft.now) rows.now more.now name text.now) }
{
    match read_rows(draft, rows, name, text, fault) {
        Ok(read) => Ok(read),
        Err(fault) => read_rows(draft, more, name, text, fault),
    }
}

/// The instruction of a name and its operands, behind which the line ends.
///
/// Errors: the fault that is furthest on, or `unknown` where no row has the name.
#[tactic(auto, unfolding(crate::specs::Instructions::alone_at))]
pub fn read_alone<'a>(
    draft: &Draft,
    name: Name,
    text: &'a [u8],
    unknown: Unread,
) -> Read<'a, Statement>
    ensures { Gives (λ x. (x.0, x.1.now)) result (alone_at (layout_of draft.now) name text.now) }
{
    let (word, rest) = read_either(draft, &ROWS, &ALIASES, name, text, unknown)?;
    Ok((Statement::Instruction(word), rest))
}

/// The number whose bits stand where an operand has its own in a word.
#[tactic(auto, unfolding(crate::specs::Instructions::part_number))]
pub fn part_number(part: Part, w: u32) -> u32
    ensures { result ≡ part_number part w }
{
    match part {
        Part::End | Part::Comma => 0,
        Part::Rd => (w >> 7) % 32,
        Part::Rs1 | Part::Base => (w >> 15) % 32,
        Part::Rs2 | Part::Amount => (w >> 20) % 32,
        Part::Immediate | Part::Order => (w >> 20) % 4096,
        Part::StoreOffset => (w >> 7) % 32 + ((w >> 25) % 128 << 5),
        Part::Branch => {
            (w >> 8) % 16 + ((w >> 25) % 64 << 4) + ((w >> 7) % 2 << 10) + ((w >> 31) % 2 << 11)
        }
        Part::Upper => (w >> 12) % 1048576,
        Part::Jump => {
            (w >> 21) % 1024
                + ((w >> 20) % 2 << 10)
                + ((w >> 12) % 256 << 11)
                + ((w >> 31) % 2 << 19)
        }
    }
}

fn with_funct3(w: u32) -> u32
    ensures { result ≡ with_funct3 w }
{
    w % 128 + ((w >> 12) % 8 << 12)
}

fn with_funct7(w: u32) -> u32
    ensures { result ≡ with_funct7 w }
{
    with_funct3(w) + (w >> 25 << 25)
}

#[tactic(auto, unfolding(crate::specs::Instructions::fixed_by))]
fn fixed_bits(w: u32) -> u32
    ensures { result ≡ fixed_bits w }
{
    let opcode = w % 128;
    if opcode == 0x37 || opcode == 0x17 || opcode == 0x6f {
        return opcode;
    }
    if opcode == 0x33 || (opcode == 0x13 && (w >> 12) % 4 == 1) {
        return with_funct7(w);
    }
    if opcode == 0x73 {
        return w;
    }
    with_funct3(w)
}

fn find_row(rows: &[Row], bits: u32) -> Option<Row>
    ensures { result ≡ find (is_of bits) rows.now }
{
    for row in rows {
        if bits == row.1 {
            return Some(*row);
        }
    }
    None
}

/// The row of the table that a word is of.
#[tactic(auto, unfolding(crate::specs::Instructions::row_of))]
pub fn row_of(word: u32) -> Option<Row>
    ensures { result ≡ row_of word }
{
    find_row(&ROWS, fixed_bits(word))
}
