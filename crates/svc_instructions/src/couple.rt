// What a name and its operands say. Some names stand for two instructions, and `li` for one or two.

ghost use Rattle.std.specs.Prelude.{◌≡◌};
ghost use Rattle.std.specs.List.{find};
ghost use Rattle.svc_draft.specs.Drafts.{layout_of};
ghost use Rattle.svc_tokens.specs.Tokens.{Gives};
ghost use Rattle.svc_instructions.specs.Instructions.{with_part};
ghost use Rattle.svc_instructions.specs.Couples.{has_name, with_high, with_low, apart, past_plt, pair_at, linked_at};
ghost use Rattle.svc_instructions.specs.Couples.{couple_at, begins_name, label_at, load_at, with_store, store_at};
ghost use Rattle.svc_instructions.specs.Couples.{access_at, alone_on_line, longer_at, other_at, set_to, set_at};
ghost use Rattle.svc_instructions.specs.Couples.{relative_upper_at, single_at, instruction_at};

use crate::branch::read_far;
use crate::immediates::{bits_within, from_here, high_part, read_relative};
use crate::reading::{further, read_alone, with_part};
use crate::table::{COUPLES, Couple, LOADS, Part, STORES, Through};
use svc_draft::Draft;
use svc_expressions::{read_signed, read_value};
use svc_layout::Statement;
use svc_tokens::{
    Name, Read, Unread, Wanted, is_over, is_word, letters_of, number_named, number_of,
    read_first_register, read_mark, read_register, skip_mark, split_name, stopped_at,
    stopped_at_name,
};

// The word of auipc where each operand is 0.
const AUIPC: u32 = 0x17;

pub fn couple_named(couples: &[Couple], name: Name) -> Option<Couple>
    ensures { result ≡ find (has_name name) couples.now }
{
    for couple in couples {
        if name == couple.0 {
            return Some(*couple);
        }
    }
    None
}

fn with_high(word: u32, rd: u32, number: u32) -> u32
    ensures { result ≡ with_high word rd number }
{
    with_part(
        with_part(word, Part::Rd, rd),
        Part::Upper,
        high_part(number),
    )
}

fn with_low(word: u32, rd: u32, number: u32) -> u32
    ensures { result ≡ with_low word rd number }
{
    with_part(
        with_part(with_part(word, Part::Rd, rd), Part::Rs1, rd),
        Part::Immediate,
        number,
    )
}

fn apart(first: u32, second: u32, rd: u32, number: u32) -> Statement
    ensures { result ≡ apart first second rd number }
{
    Statement::Pair(with_high(first, rd, number), with_low(second, rd, number))
}

// What is left behind `@plt`.
fn skip_plt(text: &[u8]) -> &[u8]
    ensures { result.now ≡ past_plt text.now }
{
    if let Some(rest) = skip_mark(b'@', text) {
        let (name, behind) = split_name(rest);
        if is_word(name, "plt") {
            return behind;
        }
    }
    text
}

#[tactic(auto, unfolding(crate::specs::Couples::pair_at))]
fn read_pair<'a>(
    draft: &Draft,
    first: u32,
    second: u32,
    rd: u32,
    text: &'a [u8],
) -> Read<'a, Statement>
    ensures { Gives (λ x. (x.0, x.1.now)) result (pair_at (layout_of draft.now) first second rd text.now) }
{
    let (address, rest) = read_value(draft, text)?;
    let words = apart(first, second, rd, from_here(draft, address));
    Ok((words, skip_plt(rest)))
}

// A call that leaves in this register where it returns, through `t1`.
fn read_linked<'a>(draft: &Draft, rd: u32, text: &'a [u8]) -> Read<'a, Statement>
    ensures { Gives (λ x. (x.0, x.1.now)) result (linked_at (layout_of draft.now) rd text.now) }
{
    read_pair(draft, 0x0317, with_part(0x0003_0067, Part::Rd, rd), 0, text)
}

#[tactic(auto, unfolding(crate::specs::Couples::couple_at))]
pub fn read_couple<'a>(draft: &Draft, couple: Couple, text: &'a [u8]) -> Read<'a, Statement>
    ensures { Gives (λ x. (x.0, x.1.now)) result (couple_at (layout_of draft.now) couple text.now) }
{
    let Couple(_, first, second, through) = couple;
    match (through, read_first_register(text)) {
        (Through::Own, _) | (Through::Link, Err(_)) => read_pair(draft, first, second, 0, text),
        (Through::First, Ok((rd, rest))) => {
            read_pair(draft, first, second, rd.number as u32, rest)
        }
        (Through::First, Err(unread)) => Err(unread),
        (Through::Link, Ok((rd, rest))) => read_linked(draft, rd.number as u32, rest),
    }
}

// Whether a name is one, and no number.
fn begins_name(name: &[u8]) -> bool
    ensures { result ≡ begins_name name.now }
{
    match name {
        [] => false,
        _ => number_of(name).is_none(),
    }
}

// A value that begins with a name.
#[tactic(auto, unfolding(crate::specs::Couples::label_at))]
fn read_label<'a>(draft: &Draft, text: &'a [u8]) -> Read<'a, u32>
    ensures { Gives (λ x. (x.0, x.1.now)) result (label_at (layout_of draft.now) text.now) }
{
    let (name, _) = split_name(text);
    if begins_name(name) {
        return read_value(draft, text);
    }
    Err(stopped_at(text, Wanted::Value))
}

#[tactic(auto, unfolding(crate::specs::Couples::load_at))]
fn read_load<'a>(draft: &Draft, word: u32, text: &'a [u8]) -> Read<'a, Statement>
    ensures { Gives (λ x. (x.0, x.1.now)) result (load_at (layout_of draft.now) word text.now) }
{
    let (rd, rest) = read_first_register(text)?;
    let (address, rest) = read_label(draft, rest)?;
    let words = apart(AUIPC, word, rd.number as u32, from_here(draft, address));
    Ok((words, rest))
}

fn with_store(word: u32, rs2: u32, rs1: u32, number: u32) -> u32
    ensures { result ≡ with_store word rs2 rs1 number }
{
    with_part(
        with_part(with_part(word, Part::Rs2, rs2), Part::Rs1, rs1),
        Part::StoreOffset,
        number,
    )
}

#[tactic(auto, unfolding(crate::specs::Couples::store_at))]
fn read_store<'a>(draft: &Draft, word: u32, text: &'a [u8]) -> Read<'a, Statement>
    ensures { Gives (λ x. (x.0, x.1.now)) result (store_at (layout_of draft.now) word text.now) }
{
    let (rs, rest) = read_first_register(text)?;
    let (address, rest) = read_label(draft, rest)?;
    let rest = read_mark(b',', Wanted::Comma, rest)?;
    let (through, rest) = read_register(rest)?;
    let distance = from_here(draft, address);
    let high = with_high(AUIPC, through.number as u32, distance);
    let store = with_store(word, rs.number as u32, through.number as u32, distance);
    Ok((Statement::Pair(high, store), rest))
}

// An access by a label, or this fault where the name is no access's.
#[tactic(auto, unfolding(crate::specs::Couples::access_at))]
fn read_access<'a>(draft: &Draft, name: &[u8], text: &'a [u8], fault: Unread) -> Read<'a, Statement>
    ensures { Gives (λ x. (x.0, x.1.now)) result (access_at (layout_of draft.now) name.now text.now) }
{
    if let Some(word) = number_named(&LOADS, name) {
        return read_load(draft, word, text);
    }
    match number_named(&STORES, name) {
        Some(word) => read_store(draft, word, text),
        None => Err(fault),
    }
}

fn set_to(rd: u32, number: u32) -> Statement
    ensures { result ≡ set_to rd number }
{
    if number < 2048 || number >= 4_294_965_248 {
        return Statement::Instruction(with_part(
            with_part(0x13, Part::Rd, rd),
            Part::Immediate,
            number,
        ));
    }
    if number % 4096 == 0 {
        return Statement::Instruction(with_high(0x37, rd, number));
    }
    apart(0x37, 0x13, rd, number)
}

#[tactic(auto, unfolding(crate::specs::Couples::set_at))]
pub fn read_set(text: &[u8]) -> Read<'_, Statement>
    ensures { Gives (λ x. (x.0, x.1.now)) result (set_at text.now) }
{
    let (rd, number_text) = read_first_register(text)?;
    let (signed, rest) = read_signed(number_text)?;
    match bits_within(0x8000_0000, signed) {
        Some(number) => Ok((set_to(rd.number as u32, number), rest)),
        None => Err(stopped_at(number_text, Wanted::Number)),
    }
}

#[tactic(auto, unfolding(crate::specs::Couples::relative_upper_at))]
pub fn read_relative_upper<'a>(draft: &Draft, text: &'a [u8]) -> Read<'a, Statement>
    ensures { Gives (λ x. (x.0, x.1.now)) result (relative_upper_at (layout_of draft.now) text.now) }
{
    let (rd, rest) = read_first_register(text)?;
    let part = read_mark(b'%', Wanted::High, rest)?;
    let (distance, rest) = read_relative(draft, part)?;
    let word = with_high(AUIPC, rd.number as u32, distance);
    Ok((Statement::Relative(word, distance), rest))
}

#[tactic(auto, unfolding(crate::specs::Couples::single_at))]
fn read_single<'a>(draft: &Draft, name: &[u8], letters: Name, text: &'a [u8]) -> Read<'a, Statement>
    ensures { Gives (λ x. (x.0, x.1.now)) result (single_at (layout_of draft.now) name.now letters text.now) }
{
    if is_word(name, "auipc") {
        if let Ok(read) = read_relative_upper(draft, text) {
            return Ok(read);
        }
    }
    read_alone(
        draft,
        letters,
        text,
        stopped_at_name(name, text, Wanted::Statement),
    )
}

// What ends its line, or else this fault.
fn alone_on_line(read: (Statement, &[u8]), fault: Unread) -> Read<'_, Statement>
    ensures { Gives (λ x. (x.0, x.1.now)) result (alone_on_line (read.entry.0, read.entry.1.now)) }
{
    if is_over(read.1) {
        return Ok(read);
    }
    Err(fault)
}

// Two instructions behind which the line ends: an access by a label, or a branch.
#[tactic(auto, unfolding(crate::specs::Couples::longer_at))]
fn read_longer<'a>(
    draft: &Draft,
    name: &[u8],
    letters: Name,
    text: &'a [u8],
    fault: Unread,
) -> Read<'a, Statement>
    ensures { Gives (λ x. (x.0, x.1.now)) result (longer_at (layout_of draft.now) name.now letters text.now) }
{
    match read_access(draft, name, text, fault) {
        Ok(read) => alone_on_line(read, fault),
        Err(later) => {
            let fault = further(fault, later);
            let read = read_far(draft, letters, text, fault)?;
            alone_on_line(read, fault)
        }
    }
}

#[tactic(auto, unfolding(crate::specs::Couples::other_at))]
fn read_other<'a>(draft: &Draft, name: &[u8], letters: Name, text: &'a [u8]) -> Read<'a, Statement>
    ensures { Gives (λ x. (x.0, x.1.now)) result (other_at (layout_of draft.now) name.now letters text.now) }
{
    match read_single(draft, name, letters, text) {
        Ok(read) => Ok(read),
        Err(fault) => read_longer(draft, name, letters, text, fault),
    }
}

/// The instruction, or the two, that a name and its operands stand for.
#[tactic(auto, unfolding(crate::specs::Couples::instruction_at))]
pub fn read_instruction<'a>(draft: &Draft, name: &[u8], text: &'a [u8]) -> Read<'a, Statement>
    ensures { Gives (λ x. (x.0, x.1.now)) result (instruction_at (layout_of draft.now) name.now text.now) }
{
    if is_word(name, "li") {
        return read_set(text);
    }
    let letters = match letters_of(name) {
        Some(letters) => letters,
        None => return Err(stopped_at_name(name, text, Wanted::Statement)),
    };
    match couple_named(&COUPLES, letters) {
        Some(couple) => read_couple(draft, couple, text),
        None => read_other(draft, name, letters, text),
    }
}
