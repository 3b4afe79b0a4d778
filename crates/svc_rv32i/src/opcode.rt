//! The major opcodes of the instructions, by their names in the base opcode map (The RISC-V Instruction Set Manual,
//! Volume I, chapter "RV32/64G Instruction Set Listings").

pub(crate) const LOAD: u8 = 0b0000011;

pub(crate) const MISC_MEM: u8 = 0b0001111;

pub(crate) const OP_IMM: u8 = 0b0010011;

pub(crate) const AUIPC: u8 = 0b0010111;

pub(crate) const STORE: u8 = 0b0100011;

pub(crate) const OP: u8 = 0b0110011;

pub(crate) const LUI: u8 = 0b0110111;

pub(crate) const BRANCH: u8 = 0b1100011;

pub(crate) const JALR: u8 = 0b1100111;

pub(crate) const JAL: u8 = 0b1101111;

pub(crate) const SYSTEM: u8 = 0b1110011;
