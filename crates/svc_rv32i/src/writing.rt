// Instructions, written as words.

ghost use Rattle.std.specs.Prelude.{◌≡◌, ◌<◌, ◌^◌};
ghost use Rattle.svc_rv32i.specs.Words.{r_type, i_type, s_type, b_type, u_type, j_type, word_of};

use crate::instr::{Instr, Long, Register, Short};
use crate::opcode;

#[tactic(auto, unfolding(crate::specs::Words::r_type))]
fn six_fields(opcode: u32, rd: u32, funct3: u32, rs1: u32, rs2: u32, funct7: u32) -> u32
    requires opcode { opcode < 2 ^ 7 }
    requires rd { rd < 2 ^ 5 }
    requires funct3 { funct3 < 2 ^ 3 }
    requires rs1 { rs1 < 2 ^ 5 }
    requires rs2 { rs2 < 2 ^ 5 }
    requires funct7 { funct7 < 2 ^ 7 }
    ensures { result ≡ r_type opcode rd funct3 rs1 rs2 funct7 }
{
    opcode + (rd << 7) + (funct3 << 12) + (rs1 << 15) + (rs2 << 20) + (funct7 << 25)
}

fn r_word(opcode: u8, rd: Register, funct3: u8, rs1: Register, rs2: u8, funct7: u8) -> u32
    requires opcode { opcode < 2 ^ 7 }
    requires funct3 { funct3 < 2 ^ 3 }
    requires rs2 { rs2 < 2 ^ 5 }
    requires funct7 { funct7 < 2 ^ 7 }
    ensures { result ≡ r_type opcode rd.number funct3 rs1.number rs2 funct7 }
{
    six_fields(
        opcode as u32,
        rd.number as u32,
        funct3 as u32,
        rs1.number as u32,
        rs2 as u32,
        funct7 as u32,
    )
}

#[tactic(auto, using(crate::proofs::Formats::i_as_r))]
fn i_word(opcode: u8, rd: Register, funct3: u8, rs1: Register, imm: Short) -> u32
    requires opcode { opcode < 2 ^ 7 }
    requires funct3 { funct3 < 2 ^ 3 }
    ensures { result ≡ i_type opcode rd.number funct3 rs1.number imm.bits }
{
    let bits = imm.bits as u32;
    six_fields(
        opcode as u32,
        rd.number as u32,
        funct3 as u32,
        rs1.number as u32,
        bits % 32,
        bits >> 5,
    )
}

#[tactic(auto, using(crate::proofs::Formats::s_as_r))]
fn s_word(opcode: u8, funct3: u8, rs1: Register, rs2: Register, imm: Short) -> u32
    requires opcode { opcode < 2 ^ 7 }
    requires funct3 { funct3 < 2 ^ 3 }
    ensures { result ≡ s_type opcode funct3 rs1.number rs2.number imm.bits }
{
    let bits = imm.bits as u32;
    six_fields(
        opcode as u32,
        bits % 32,
        funct3 as u32,
        rs1.number as u32,
        rs2.number as u32,
        bits >> 5,
    )
}

#[tactic(auto, using(crate::proofs::Formats::b_as_r))]
fn b_word(opcode: u8, funct3: u8, rs1: Register, rs2: Register, imm: Short) -> u32
    requires opcode { opcode < 2 ^ 7 }
    requires funct3 { funct3 < 2 ^ 3 }
    ensures { result ≡ b_type opcode funct3 rs1.number rs2.number imm.bits }
{
    let bits = imm.bits as u32;
    six_fields(
        opcode as u32,
        (bits >> 10) % 2 + (bits % 16 << 1),
        funct3 as u32,
        rs1.number as u32,
        rs2.number as u32,
        (bits >> 4) % 64 + (bits >> 11 << 6),
    )
}

#[tactic(auto, using(crate::proofs::Formats::u_as_r))]
fn u_word(opcode: u8, rd: Register, imm: Long) -> u32
    requires { opcode < 2 ^ 7 }
    ensures { result ≡ u_type opcode rd.number imm.bits }
{
    let bits = imm.bits;
    six_fields(
        opcode as u32,
        rd.number as u32,
        bits % 8,
        (bits >> 3) % 32,
        (bits >> 8) % 32,
        bits >> 13,
    )
}

#[tactic(auto, using(crate::proofs::Formats::j_as_r))]
fn j_word(opcode: u8, rd: Register, imm: Long) -> u32
    requires { opcode < 2 ^ 7 }
    ensures { result ≡ j_type opcode rd.number imm.bits }
{
    let bits = imm.bits;
    six_fields(
        opcode as u32,
        rd.number as u32,
        (bits >> 11) % 8,
        (bits >> 14) % 32,
        (bits >> 10) % 2 + (bits % 16 << 1),
        (bits >> 4) % 64 + (bits >> 19 << 6),
    )
}

/// The word of an instruction: its fields, each times the power of two of its lowest bit.
#[tactic(auto, unfolding(crate::specs::Words::word_of), using(crate::proofs::Tables::small))]
pub fn encode(instr: &Instr) -> u32
    ensures { result ≡ word_of instr.now }
{
    match *instr {
        Instr::Lui { rd, imm } => u_word(opcode::LUI, rd, imm),
        Instr::Auipc { rd, imm } => u_word(opcode::AUIPC, rd, imm),
        Instr::Jal { rd, imm } => j_word(opcode::JAL, rd, imm),
        Instr::Jalr { rd, rs1, imm } => i_word(opcode::JALR, rd, 0, rs1, imm),
        Instr::Branch {
            test,
            rs1,
            rs2,
            imm,
        } => b_word(opcode::BRANCH, test.funct3(), rs1, rs2, imm),
        Instr::Load { kind, rd, rs1, imm } => i_word(opcode::LOAD, rd, kind.funct3(), rs1, imm),
        Instr::Store {
            kind,
            rs1,
            rs2,
            imm,
        } => s_word(opcode::STORE, kind.funct3(), rs1, rs2, imm),
        Instr::OpImm { op, rd, rs1, imm } => { i_word(opcode::OP_IMM, rd, op.funct3(), rs1, imm) }
        Instr::ShiftImm {
            op,
            rd,
            rs1,
            amount,
        } => r_word(
            opcode::OP_IMM,
            rd,
            op.funct3(),
            rs1,
            amount.bits,
            op.funct7(),
        ),
        Instr::Op { op, rd, rs1, rs2 } => {
            r_word(opcode::OP, rd, op.funct3(), rs1, rs2.number, op.funct7())
        }
        Instr::Fence { rd, rs1, imm } => i_word(opcode::MISC_MEM, rd, 0, rs1, imm),
        Instr::Ecall => 0x00000073,
        Instr::Ebreak => 0x00100073,
    }
}
