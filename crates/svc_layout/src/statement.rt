// What a line says, and what is read next.

use crate::section::{Section, Spot, Width};
use crate::source::Linkage;
use svc_image::Version;
use svc_rv32i::Register;

/// How the bytes of a string end.
#[derive(Clone, Copy)]
pub enum Ending {
    /// With its last character.
    Bare,
    /// With a zero behind it.
    Zero,
}

/// What is read next. A list, a string or a name with its value is read part by part, as a label is read up to its
/// colon.
#[derive(Clone, Copy)]
pub enum Next {
    /// A line.
    Line,
    /// A number of a list, with the bytes that each takes.
    Value(Width),
    /// A number of a list whose numbers take eight bytes each.
    Long,
    /// A character of a string, or the quote behind its last one.
    Character(Ending),
    /// A name, and what it is to stand for.
    Symbol,
    /// A name, and the size and the alignment of the zeros that it is to name, which texts share.
    Common,
    /// The same of a text's own zeros.
    LocalCommon,
    /// A name of a list of those that have this linkage.
    Bound(Linkage),
    /// A line of a section that is passed over.
    Passed,
}

/// What a line says that needs no other line.
#[derive(Clone, Copy)]
pub enum Statement {
    /// An empty line, or a comment.
    Nothing,
    /// A name and a colon: what follows stands at the name's address.
    Label,
    /// An instruction, as its word.
    Instruction(u32),
    /// `.svc_version 1` or `.svc_version 2`: the version of the image's file.
    Version(Version),
    /// `.svc_readonly`: the data up to here is read-only.
    ReadOnly,
    /// `.svc_entry`: a task begins at the next instruction; `.svc_entry N` gives it a limit of turns of its own.
    Entry(Option<u32>),
    /// `.svc_start N`: the first task begins at this address.
    Start(u32),
    /// `.svc_limit N`: the limit of turns of every task that has none of its own.
    Limit(u32),
    /// `.svc_register xN, VALUE`: the value with which every task finds the register.
    Register(Register, u32),
    /// `.text`, `.data` and their like: what follows is lines of this section.
    Section(Section),
    /// `.fill COUNT, SIZE, VALUE`: so many copies of a number of so many bytes, 8 at most. `.zero N` is `.fill N, 1,
    /// 0`.
    Fill(u32, u32, u32),
    /// `.align N`: zeros, or instructions that do nothing, up to the next address that this number divides.
    Align(u32),
    /// The beginning of a list, a string or a name with its value, which this begins.
    Open(Next),
    /// A number, as of `.word N` or of a list, or a character of a string, and what is read next.
    Value(Width, u32, Next),
    /// A number of eight bytes, by its low and its high half, and what is read next.
    Long(u32, u32, Next),
    /// A name and what it stands for: the end of `.set NAME, VALUE`. A first pass may not know that yet.
    Symbol(Option<Spot>),
    /// A name, and the size and the alignment of the zeros in `.bss` that it names: the end of
    /// `.comm NAME, SIZE, ALIGNMENT`.
    Common(u32, u32),
    /// The same of the text's own zeros: the end of `.lcomm NAME, SIZE, ALIGNMENT`.
    LocalCommon(u32, u32),
    /// Two instructions that one name stands for, as `call`, by their words.
    Pair(u32, u32),
    /// A branch that doesn't reach its target, by how many bytes of the text are left from the target on: it is turned
    /// in the next round.
    Turned(usize),
    /// A name and its linkage, as of `.weak NAME`, and what is read next.
    Bound(Linkage, Next),
    /// Another text of the program begins.
    NextText,
    /// A number and a colon: the next local label of this number.
    Local(u32),
    /// `auipc` with `%pcrel_hi(VALUE)`, and how far it is to the value, whose low part `%pcrel_lo` names by its label.
    Relative(u32, u32),
}
