// What words mean by the instruction listings: fields at their edges, and words next to instructions that are none.
// Every other instruction is a case of the program.

use svc_rv32i::{Comparison, ImmediateShift, Instr, Operation, decode};

// The instruction of a word by its name, and the numbers of its fields.
fn meaning(word: u32) -> (&'static str, [u16; 3]) {
    match decode(word) {
        Some(Instr::Fence { rd, rs1, imm }) => {
            let (rd, rs1) = (rd.number.into(), rs1.number.into());
            ("fence", [rd, rs1, imm.bits])
        }
        Some(
            Instr::Op {
                op: Operation::Sub,
                rd,
                rs1,
                rs2,
            },
        ) => {
            let (rd, rs1) = (rd.number.into(), rs1.number.into());
            ("sub", [rd, rs1, rs2.number.into()])
        }
        Some(
            Instr::ShiftImm {
                op: ImmediateShift::RightArithmetic,
                rd,
                rs1,
                amount,
            },
        ) => {
            let (rd, rs1) = (rd.number.into(), rs1.number.into());
            ("srai", [rd, rs1, amount.bits.into()])
        }
        Some(
            Instr::Branch {
                test: Comparison::Equal,
                rs1,
                rs2,
                imm,
            },
        ) => {
            let (rs1, rs2) = (rs1.number.into(), rs2.number.into());
            ("beq", [rs1, rs2, imm.bits])
        }
        Some(Instr::Jal { rd, imm }) => {
            let (low, high) = (imm.bits % 1_024, imm.bits / 1_024);
            ("jal", [rd.number.into(), low as u16, high as u16])
        }
        Some(Instr::Ecall) => ("ecall", [0; 3]),
        Some(Instr::Ebreak) => ("ebreak", [0; 3]),
        Some(_) => ("another", [0; 3]),
        None => ("none", [0; 3]),
    }
}

// A FENCE of all reads and writes; SUB x1, x2, x3; SRAI x1, x2, 3; BEQ x0, x0, -4; JAL x1, 8. The offset of a branch or
// jump counts pairs of bytes, the branch's in twelve bits without sign.
#[test]
fn words_mean_what_the_listings_say(rt: HostRuntime) {
    let wanted = [
        (0x0FF0_000F, "fence", [0, 0, 255]),
        (0x4031_00B3, "sub", [1, 2, 3]),
        (0x4031_5093, "srai", [1, 2, 3]),
        (0xFE00_0EE3, "beq", [0, 0, 4_094]),
        (0x0080_00EF, "jal", [1, 4, 0]),
        (0x0000_0073, "ecall", [0; 3]),
        (0x0010_0073, "ebreak", [0; 3]),
    ];
    for (word, name, fields) in wanted {
        assert_eq!(rt; meaning(word), (name, fields));
    }
}

// SRAI with one bit of funct7 moved, FENCE.I of another extension, and zero.
#[test]
fn other_words_mean_nothing(rt: HostRuntime) {
    for word in [0x2031_5093, 0x0000_100F, 0x0000_0000] {
        assert_eq!(rt; meaning(word).0, "none");
    }
}
