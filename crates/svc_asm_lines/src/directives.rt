// The directives as tables: what each of their names says, and what some say by one number.

ghost use Rattle.std.specs.Prelude.{◌≡◌, ◌^◌, ◌≤◌};
ghost use Rattle.std.specs.List.{starts_with};
ghost use Rattle.svc_asm_lines.specs.Statements.{says_in, said_by, section_in, section_by, said_of, numbered_at};
ghost use Rattle.svc_asm_lines.specs.Statements.{number_or, zeros_at, fill_at};
ghost use Rattle.svc_tokens.specs.Tokens.{Gives};

use svc_expressions::{bits_of, read_count, read_signed};
use svc_image::Version;
use svc_layout::Ending::{Bare, Zero};
use svc_layout::{Linkage, Next, Section, Statement, Width};
use svc_tokens::{Name, Read, Wanted, letters_of, skip_mark, split_name, stopped_at};

/// What a directive says, and what it reads.
#[derive(Clone, Copy)]
pub enum Says {
    /// What follows stands in this section.
    Section(Section),
    /// What follows stands in the section of the name behind it.
    NamedSection,
    /// A word, by its value.
    Word,
    /// What it says by its number.
    Number(Number),
    /// How many bytes there are, and what each is, which is 0 where nothing is said.
    Zeros,
    /// How many copies there are of a number of so many bytes.
    Fill,
    /// The data up to here is read-only.
    ReadOnly,
    /// A task begins here, maybe with a limit of its own.
    Entry,
    /// Where the first task begins.
    Start,
    /// A register, and its value.
    Register,
    /// Nothing of an image: it is passed over, with the rest of its line.
    Passed,
    /// A change of the section that isn't read: it may not stand anywhere.
    Unread,
    /// What follows is read part by part, first this.
    Open(Next),
}

/// A directive's name, and what it says.
#[derive(Clone, Copy)]
pub struct Directive(pub Name, pub Says);

/// The directives that are read as a whole.
pub static DIRECTIVES: [Directive; 39] = [
    Directive(*b".word           ", Says::Word),
    Directive(*b".text           ", Says::Section(Section::Text)),
    Directive(*b".data           ", Says::Section(Section::Data)),
    Directive(*b".sdata          ", Says::Section(Section::Data)),
    Directive(*b".rodata         ", Says::Section(Section::Rodata)),
    Directive(*b".srodata        ", Says::Section(Section::Rodata)),
    Directive(*b".bss            ", Says::Section(Section::Bss)),
    Directive(*b".sbss           ", Says::Section(Section::Bss)),
    Directive(*b".section        ", Says::NamedSection),
    Directive(*b".zero           ", Says::Zeros),
    Directive(*b".space          ", Says::Zeros),
    Directive(*b".skip           ", Says::Zeros),
    Directive(*b".fill           ", Says::Fill),
    Directive(*b".align          ", Says::Number(Number::Power)),
    Directive(*b".p2align        ", Says::Number(Number::Power)),
    Directive(*b".balign         ", Says::Number(Number::Step)),
    Directive(*b".svc_version    ", Says::Number(Number::Version)),
    Directive(*b".svc_readonly   ", Says::ReadOnly),
    Directive(*b".svc_entry      ", Says::Entry),
    Directive(*b".svc_start      ", Says::Start),
    Directive(*b".svc_limit      ", Says::Number(Number::Limit)),
    Directive(*b".svc_register   ", Says::Register),
    Directive(*b".type           ", Says::Passed),
    Directive(*b".size           ", Says::Passed),
    Directive(*b".file           ", Says::Passed),
    Directive(*b".ident          ", Says::Passed),
    Directive(*b".option         ", Says::Passed),
    Directive(*b".attribute      ", Says::Passed),
    Directive(*b".hidden         ", Says::Passed),
    Directive(*b".internal       ", Says::Passed),
    Directive(*b".protected      ", Says::Passed),
    Directive(*b".addrsig        ", Says::Passed),
    Directive(*b".addrsig_sym    ", Says::Passed),
    Directive(*b".loc            ", Says::Passed),
    Directive(*b".line           ", Says::Passed),
    Directive(*b".previous       ", Says::Unread),
    Directive(*b".popsection     ", Says::Unread),
    Directive(*b".pushsection    ", Says::Unread),
    Directive(*b".subsection     ", Says::Unread),
];

/// The directives that are read part by part.
pub static OPENED: [Directive; 23] = [
    Directive(*b".word           ", Says::Open(Next::Value(Width::Word))),
    Directive(*b".4byte          ", Says::Open(Next::Value(Width::Word))),
    Directive(*b".long           ", Says::Open(Next::Value(Width::Word))),
    Directive(*b".int            ", Says::Open(Next::Value(Width::Word))),
    Directive(*b".quad           ", Says::Open(Next::Long)),
    Directive(*b".8byte          ", Says::Open(Next::Long)),
    Directive(*b".dword          ", Says::Open(Next::Long)),
    Directive(*b".half           ", Says::Open(Next::Value(Width::Half))),
    Directive(*b".2byte          ", Says::Open(Next::Value(Width::Half))),
    Directive(*b".short          ", Says::Open(Next::Value(Width::Half))),
    Directive(*b".hword          ", Says::Open(Next::Value(Width::Half))),
    Directive(*b".byte           ", Says::Open(Next::Value(Width::Byte))),
    Directive(*b".ascii          ", Says::Open(Next::Character(Bare))),
    Directive(*b".asciz          ", Says::Open(Next::Character(Zero))),
    Directive(*b".string         ", Says::Open(Next::Character(Zero))),
    Directive(*b".set            ", Says::Open(Next::Symbol)),
    Directive(*b".equ            ", Says::Open(Next::Symbol)),
    Directive(*b".comm           ", Says::Open(Next::Common)),
    Directive(*b".lcomm          ", Says::Open(Next::LocalCommon)),
    Directive(
        *b".globl          ",
        Says::Open(Next::Bound(Linkage::Global)),
    ),
    Directive(
        *b".global         ",
        Says::Open(Next::Bound(Linkage::Global)),
    ),
    Directive(
        *b".local          ",
        Says::Open(Next::Bound(Linkage::Local)),
    ),
    Directive(*b".weak           ", Says::Open(Next::Bound(Linkage::Weak))),
];

/// What becomes of a section of an object file.
#[derive(Clone, Copy)]
pub enum Kept {
    /// It is a part of this one.
    In(Section),
    /// It is for other tools, and is passed over.
    Nowhere,
}

/// How the name of a section begins, and what becomes of it.
#[derive(Clone, Copy)]
pub struct Beginning(pub Name, pub Kept);

/// The sections, by how their names begin.
pub static SECTIONS: [Beginning; 15] = [
    Beginning(*b".text           ", Kept::In(Section::Text)),
    Beginning(*b".init.text      ", Kept::In(Section::Text)),
    Beginning(*b".rodata         ", Kept::In(Section::Rodata)),
    Beginning(*b".srodata        ", Kept::In(Section::Rodata)),
    Beginning(*b".data           ", Kept::In(Section::Data)),
    Beginning(*b".sdata          ", Kept::In(Section::Data)),
    Beginning(*b".init_array     ", Kept::In(Section::Data)),
    Beginning(*b".bss            ", Kept::In(Section::Bss)),
    Beginning(*b".sbss           ", Kept::In(Section::Bss)),
    Beginning(*b".note           ", Kept::Nowhere),
    Beginning(*b".debug_         ", Kept::Nowhere),
    Beginning(*b".comment        ", Kept::Nowhere),
    Beginning(*b".eh_frame       ", Kept::Nowhere),
    Beginning(*b".gcc_except_tabl", Kept::Nowhere),
    Beginning(*b".stab           ", Kept::Nowhere),
];

// Compared as slices, whose first letters decide: of arrays the compiler would compare sixteen rows at once.
fn says_in(rows: &[Directive], name: Name) -> Option<Says>
    ensures { result ≡ says_in rows.now name }
{
    for row in rows {
        if name.as_slice() == row.0.as_slice() {
            return Some(row.1);
        }
    }
    None
}

#[tactic(auto, unfolding(crate::specs::Statements::said_by))]
pub fn said_by(name: &[u8]) -> Option<Says>
    ensures { result ≡ said_by DIRECTIVES name.now }
{
    says_in(&DIRECTIVES, letters_of(name)?)
}

#[tactic(auto, unfolding(crate::specs::Statements::said_by))]
pub fn opened_by(name: &[u8]) -> Option<Says>
    ensures { result ≡ said_by OPENED name.now }
{
    says_in(&OPENED, letters_of(name)?)
}

fn section_in(rows: &[Beginning], name: &[u8]) -> Option<Kept>
    ensures { result ≡ section_in rows.now name.now }
{
    for row in rows {
        let (beginning, _) = split_name(&row.0);
        if name.starts_with(beginning) {
            return Some(row.1);
        }
    }
    None
}

#[tactic(auto, unfolding(crate::specs::Statements::section_by))]
pub fn section_by(name: &[u8]) -> Option<Kept>
    ensures { result ≡ section_by name.now }
{
    section_in(&SECTIONS, name)
}

/// What a directive says by its number.
#[derive(Clone, Copy)]
pub enum Number {
    /// The power of two that is to divide the next address.
    Power,
    /// The number that is to divide the next address.
    Step,
    /// The version of the image.
    Version,
    /// The limit of turns of every task that has none of its own.
    Limit,
    /// A task's own limit of turns.
    Own,
}

fn power(exponent: u32) -> u32
    requires { exponent ≤ 16 }
    ensures { result ≡ 2 ^ exponent }
{
    1 << exponent
}

fn said_of(number: Number, n: u32) -> Option<Statement>
    ensures { result ≡ said_of number n }
{
    match number {
        Number::Power if n <= 16 => Some(Statement::Align(power(n))),
        Number::Step => Some(Statement::Align(n)),
        Number::Version if n == 1 => Some(Statement::Version(Version::One)),
        Number::Version if n == 2 => Some(Statement::Version(Version::Two)),
        Number::Limit => Some(Statement::Limit(n)),
        Number::Own => Some(Statement::Entry(Some(n))),
        Number::Power | Number::Version => None,
    }
}

// What the exponent may be of the power of two that is to divide the next address.
const POWER: Wanted = Wanted::Range { least: 0, most: 16 };

#[tactic(auto, unfolding(crate::specs::Statements::numbered_at))]
pub fn read_numbered(number: Number, text: &[u8]) -> Read<'_, Statement>
    ensures { Gives (λ x. (x.0, x.1.now)) result (numbered_at number text.now) }
{
    let (n, rest) = read_count(text)?;
    match (said_of(number, n), number) {
        (Some(statement), _) => Ok((statement, rest)),
        (None, Number::Version) => Err(stopped_at(text, Wanted::Version)),
        (None, _) => Err(stopped_at(text, POWER)),
    }
}

/// Behind a comma a number that may have a minus sign, as 32 bits, and without one this number.
#[tactic(auto, unfolding(crate::specs::Statements::number_or))]
fn read_number_or(default: u32, text: &[u8]) -> Read<'_, u32>
    ensures { Gives (λ x. (x.0, x.1.now)) result (number_or default text.now) }
{
    match skip_mark(b',', text) {
        Some(rest) => {
            let (number, rest) = read_signed(rest)?;
            Ok((bits_of(number), rest))
        }
        None => Ok((default, text)),
    }
}

#[tactic(auto, unfolding(crate::specs::Statements::zeros_at))]
pub fn read_zeros(text: &[u8]) -> Read<'_, Statement>
    ensures { Gives (λ x. (x.0, x.1.now)) result (zeros_at text.now) }
{
    let (count, rest) = read_count(text)?;
    let (byte, rest) = read_number_or(0, rest)?;
    Ok((Statement::Fill(count, 1, byte), rest))
}

#[tactic(auto, unfolding(crate::specs::Statements::fill_at))]
pub fn read_fill(text: &[u8]) -> Read<'_, Statement>
    ensures { Gives (λ x. (x.0, x.1.now)) result (fill_at text.now) }
{
    let (count, size_text) = read_count(text)?;
    let (size, rest) = read_number_or(1, size_text)?;
    let (value, rest) = read_number_or(0, rest)?;
    if size <= 8 {
        return Ok((Statement::Fill(count, size, value), rest));
    }
    Err(stopped_at(
        skip_mark(b',', size_text).unwrap_or(size_text),
        Wanted::Size,
    ))
}
