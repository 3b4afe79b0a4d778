// Words, read as instructions.

ghost use Rattle.std.specs.Prelude.{◌≡◌, ℕ, ◌<◌, ◌^◌, ◌↔◌, Some};
ghost use Rattle.svc_rv32i.specs.Words.{word_of};
ghost use Rattle.svc_rv32i.specs.Meaning.{register, short, long, amount_at, fields_at, i_imm, s_imm, b_imm, u_imm};
ghost use Rattle.svc_rv32i.specs.Meaning.{j_imm, system_of, immediate_or_shift, instr_of, meaning};

use crate::fields::Fields;
use crate::instr::{
    Comparison, ImmediateOperation, ImmediateShift, Instr, LoadKind, Long, Operation, Register,
    ShiftAmount, Short, StoreKind,
};
use crate::opcode;

#[tactic(auto, unfolding(crate::specs::Meaning::register), using(crate::proofs::Same::same_register))]
fn lowest_register(bits: u32) -> Register
    ensures { result ≡ register bits }
{
    Register {
        number: (bits % 32) as u8,
    }
}

#[tactic(auto, unfolding(crate::specs::Meaning::fields_at), using(crate::proofs::Same::same_fields_record))]
fn split(word: u32) -> Fields
    ensures { result ≡ fields_at word }
{
    Fields {
        opcode: (word % 128) as u8,
        rd: lowest_register(word >> 7),
        funct3: ((word >> 12) % 8) as u8,
        rs1: lowest_register(word >> 15),
        rs2: lowest_register(word >> 20),
        funct7: ((word >> 25) % 128) as u8,
    }
}

#[tactic(auto, unfolding(crate::specs::Meaning::short), using(crate::proofs::Same::same_short))]
fn i_immediate(f: Fields) -> Short
    ensures { result ≡ short (i_imm f) }
{
    Short {
        bits: f.rs2.number as u16 + ((f.funct7 as u16) << 5),
    }
}

#[tactic(auto, unfolding(crate::specs::Meaning::short), using(crate::proofs::Same::same_short))]
fn s_immediate(f: Fields) -> Short
    ensures { result ≡ short (s_imm f) }
{
    Short {
        bits: f.rd.number as u16 + ((f.funct7 as u16) << 5),
    }
}

#[tactic(auto, unfolding(crate::specs::Meaning::short), using(crate::proofs::Same::same_short))]
fn b_immediate(f: Fields) -> Short
    ensures { result ≡ short (b_imm f) }
{
    let rd = f.rd.number as u16;
    let funct7 = f.funct7 as u16;
    Short {
        bits: (rd >> 1) + (funct7 % 64 << 4) + (rd % 2 << 10) + (funct7 >> 6 << 11),
    }
}

#[tactic(auto, unfolding(crate::specs::Meaning::long), using(crate::proofs::Same::same_long))]
fn u_immediate(f: Fields) -> Long
    ensures { result ≡ long (u_imm f) }
{
    Long {
        bits: f.funct3 as u32
            + ((f.rs1.number as u32) << 3)
            + ((f.rs2.number as u32) << 8)
            + ((f.funct7 as u32) << 13),
    }
}

#[tactic(auto, unfolding(crate::specs::Meaning::long), using(crate::proofs::Same::same_long))]
fn j_immediate(f: Fields) -> Long
    ensures { result ≡ long (j_imm f) }
{
    let rs2 = f.rs2.number as u32;
    let funct7 = f.funct7 as u32;
    Long {
        bits: (rs2 >> 1)
            + (funct7 % 64 << 4)
            + (rs2 % 2 << 10)
            + ((f.funct3 as u32) << 11)
            + ((f.rs1.number as u32) << 14)
            + (funct7 >> 6 << 19),
    }
}

#[tactic(auto, unfolding(crate::specs::Meaning::amount_at), using(crate::proofs::Same::same_amount))]
fn shift_amount(f: Fields) -> ShiftAmount
    ensures { result ≡ amount_at f }
{
    ShiftAmount { bits: f.rs2.number }
}

fn system(f: Fields) -> Option<Instr>
    ensures { result ≡ system_of f }
{
    if f.rd.number == 0 && f.funct3 == 0 && f.rs1.number == 0 && f.funct7 == 0 {
        match f.rs2.number {
            0 => Some(Instr::Ecall),
            1 => Some(Instr::Ebreak),
            _ => None,
        }
    } else {
        None
    }
}

fn immediate(f: Fields, found: Option<ImmediateOperation>) -> Option<Instr>
    ensures { result ≡ immediate_or_shift f found }
{
    match found {
        Some(op) => Some(Instr::OpImm {
            op,
            rd: f.rd,
            rs1: f.rs1,
            imm: i_immediate(f),
        }),
        None => {
            let op = ImmediateShift::from_functs(f.funct3, f.funct7)?;
            Some(Instr::ShiftImm {
                op,
                rd: f.rd,
                rs1: f.rs1,
                amount: shift_amount(f),
            })
        }
    }
}

/// The instruction with these fields.
#[tactic(auto, unfolding(crate::specs::Meaning::instr_of))]
fn instr_at(f: Fields) -> Option<Instr>
    ensures { result ≡ instr_of f }
{
    match f.opcode {
        opcode::LUI => Some(Instr::Lui {
            rd: f.rd,
            imm: u_immediate(f),
        }),
        opcode::AUIPC => Some(Instr::Auipc {
            rd: f.rd,
            imm: u_immediate(f),
        }),
        opcode::JAL => Some(Instr::Jal {
            rd: f.rd,
            imm: j_immediate(f),
        }),
        opcode::JALR if f.funct3 == 0 => Some(Instr::Jalr {
            rd: f.rd,
            rs1: f.rs1,
            imm: i_immediate(f),
        }),
        opcode::BRANCH => Some(Instr::Branch {
            test: Comparison::from_funct3(f.funct3)?,
            rs1: f.rs1,
            rs2: f.rs2,
            imm: b_immediate(f),
        }),
        opcode::LOAD => Some(Instr::Load {
            kind: LoadKind::from_funct3(f.funct3)?,
            rd: f.rd,
            rs1: f.rs1,
            imm: i_immediate(f),
        }),
        opcode::STORE => Some(Instr::Store {
            kind: StoreKind::from_funct3(f.funct3)?,
            rs1: f.rs1,
            rs2: f.rs2,
            imm: s_immediate(f),
        }),
        opcode::OP_IMM => immediate(f, ImmediateOperation::from_funct3(f.funct3)),
        opcode::OP => Some(Instr::Op {
            op: Operation::from_functs(f.funct3, f.funct7)?,
            rd: f.rd,
            rs1: f.rs1,
            rs2: f.rs2,
        }),
        opcode::MISC_MEM if f.funct3 == 0 => Some(Instr::Fence {
            rd: f.rd,
            rs1: f.rs1,
            imm: i_immediate(f),
        }),
        opcode::SYSTEM => system(f),
        _ => None,
    }
}

/// The instruction that has this word, or `None` if no instruction of RV32I has it, as with a reserved word or one of
/// an extension.
#[tactic(auto, unfolding(crate::specs::Meaning::meaning), using(crate::proofs::Exact::meaning_exact))]
pub fn decode(word: u32) -> Option<Instr>
    ensures exact { (i : Instr) → (result ≡ Some i) ↔ (word_of i ≡ word) }
    ensures meaning { result ≡ meaning word }
{
    instr_at(split(word))
}

/// A law of the definitions: a word of 32 bits means the instruction whose word it is.
#[tactic(auto, using(crate::proofs::Exact::meaning_exact))]
pub fn one_meaning()
    ensures { (word : ℕ) (i : Instr) → word < 2 ^ 32 → (meaning word ≡ Some i) ↔ (word_of i ≡ word) }
{}

/// Laws of the definitions: an instruction's word has 32 bits, and two instructions of one word are equal.
#[tactic(auto, using(crate::proofs::Bounds::word_bound, crate::proofs::Exact::same_instr))]
pub fn one_word()
    ensures fits { (i : Instr) → word_of i < 2 ^ 32 }
    ensures same { (i j : Instr) → word_of i ≡ word_of j → i ≡ j }
{}
