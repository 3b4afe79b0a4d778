// Instructions and their parts.

ghost use Rattle.std.specs.Prelude.{◌<◌, ◌^◌};

/// One of the registers x0 to x31 (RV32I, section 2.1 Programmers' Model for Base Integer ISA).
#[derive(Clone, Copy, Debug, PartialEq, Eq)]
pub struct Register {
    /// 0 to 31.
    pub number: u8,
    pub ghost in_range: { number < 2 ^ 5 },
}

/// The twelve bits of a short immediate, as an unsigned number: bits 11 to 0 of the immediate itself, or bits 12 to 1
/// of a branch's offset, whose bit 0 is always clear (RV32I, section 2.3 Immediate Encoding Variants). They are not
/// sign-extended: whoever carries out the instruction does that.
#[derive(Clone, Copy)]
pub struct Short {
    /// 0 to 4,095.
    pub bits: u16,
    pub ghost in_range: { bits < 2 ^ 12 },
}

/// The twenty bits of a long immediate, as an unsigned number: bits 31 to 12 of an upper immediate, whose other bits
/// are clear, or bits 20 to 1 of a jump's offset, whose bit 0 is always clear (RV32I, section 2.3 Immediate Encoding
/// Variants). They are not sign-extended: whoever carries out the instruction does that.
#[derive(Clone, Copy)]
pub struct Long {
    /// 0 to 1,048,575.
    pub bits: u32,
    pub ghost in_range: { bits < 2 ^ 20 },
}

/// How far an immediate shift shifts, in bits: the manual's shamt (RV32I, section 2.4.1 Integer Register-Immediate
/// Instructions).
#[derive(Clone, Copy)]
pub struct ShiftAmount {
    /// 0 to 31.
    pub bits: u8,
    pub ghost in_range: { bits < 2 ^ 5 },
}

/// What a branch tests of rs1 and rs2 (RV32I, section 2.5.2 Conditional Branches).
#[derive(Clone, Copy)]
pub enum Comparison {
    /// BEQ: they are equal.
    Equal,
    /// BNE: they differ.
    NotEqual,
    /// BLT: rs1 is less, both with sign.
    Less,
    /// BGE: rs1 is greater or equal, both with sign.
    GreaterEqual,
    /// BLTU: rs1 is less, both without sign.
    LessUnsigned,
    /// BGEU: rs1 is greater or equal, both without sign.
    GreaterEqualUnsigned,
}

/// How much a load reads, and how it is extended to 32 bits (RV32I, section 2.6 Load and Store Instructions).
#[derive(Clone, Copy, Debug, PartialEq, Eq)]
pub enum LoadKind {
    /// LB: 8 bits, sign-extended.
    Byte,
    /// LH: 16 bits, sign-extended.
    Half,
    /// LW: 32 bits.
    Word,
    /// LBU: 8 bits, zero-extended.
    ByteUnsigned,
    /// LHU: 16 bits, zero-extended.
    HalfUnsigned,
}

/// How much of rs2 a store writes, from its lowest bit (RV32I, section 2.6 Load and Store Instructions).
#[derive(Clone, Copy, Debug, PartialEq, Eq)]
pub enum StoreKind {
    /// SB: 8 bits.
    Byte,
    /// SH: 16 bits.
    Half,
    /// SW: 32 bits.
    Word,
}

/// An operation on rs1 and rs2 (RV32I, section 2.4.2 Integer Register-Register Operations).
#[derive(Clone, Copy)]
pub enum Operation {
    /// ADD: their sum, modulo 2^32.
    Add,
    /// SUB: rs1 less rs2, modulo 2^32.
    Sub,
    /// SLL: rs1 shifted left by the lowest five bits of rs2.
    ShiftLeft,
    /// SLT: 1 if rs1 is less with sign, otherwise 0.
    SetLess,
    /// SLTU: 1 if rs1 is less without sign, otherwise 0.
    SetLessUnsigned,
    /// XOR: each bit where they differ.
    Xor,
    /// SRL: rs1 shifted right by the lowest five bits of rs2; zeros come in.
    ShiftRight,
    /// SRA: rs1 shifted right by the lowest five bits of rs2; copies of the sign come in.
    ShiftRightArithmetic,
    /// OR: each bit that either has.
    Or,
    /// AND: each bit that both have.
    And,
}

/// An operation on rs1 and a sign-extended short immediate (RV32I, section 2.4.1 Integer Register-Immediate
/// Instructions).
#[derive(Clone, Copy)]
pub enum ImmediateOperation {
    /// ADDI: their sum, modulo 2^32.
    Add,
    /// SLTI: 1 if rs1 is less with sign, otherwise 0.
    SetLess,
    /// SLTIU: 1 if rs1 is less without sign, otherwise 0.
    SetLessUnsigned,
    /// XORI: each bit where they differ.
    Xor,
    /// ORI: each bit that either has.
    Or,
    /// ANDI: each bit that both have.
    And,
}

/// A shift of rs1 by an immediate amount (RV32I, section 2.4.1 Integer Register-Immediate Instructions).
#[derive(Clone, Copy)]
pub enum ImmediateShift {
    /// SLLI: left; zeros come in.
    Left,
    /// SRLI: right; zeros come in.
    Right,
    /// SRAI: right; copies of the sign come in.
    RightArithmetic,
}

/// An instruction of RV32I, by its format and its operation.
///
/// Where its format has these fields, an instruction reads the registers rs1 and rs2 and writes its result to rd, and
/// imm holds the immediate's bits as they are numbered, without sign.
#[derive(Clone, Copy)]
pub enum Instr {
    /// LUI: rd receives the upper immediate (RV32I, section 2.4.1 Integer Register-Immediate Instructions).
    Lui {
        rd: Register,
        imm: Long,
    },
    /// AUIPC: rd receives the instruction's address plus the upper immediate (RV32I, section 2.4.1 Integer
    /// Register-Immediate Instructions).
    Auipc {
        rd: Register,
        imm: Long,
    },
    /// JAL: a jump by the offset; rd receives the address of the next instruction (RV32I, section 2.5.1 Unconditional
    /// Jumps).
    Jal {
        rd: Register,
        imm: Long,
    },
    /// JALR: a jump to rs1 plus the immediate, with bit 0 cleared; rd receives the address of the next instruction
    /// (RV32I, section 2.5.1 Unconditional Jumps).
    Jalr {
        rd: Register,
        rs1: Register,
        imm: Short,
    },
    /// BEQ, BNE, BLT, BGE, BLTU and BGEU: a jump by the offset if the test holds (RV32I, section 2.5.2 Conditional
    /// Branches).
    Branch {
        test: Comparison,
        rs1: Register,
        rs2: Register,
        imm: Short,
    },
    /// LB, LH, LW, LBU and LHU: rd receives what memory holds at rs1 plus the immediate (RV32I, section 2.6 Load and
    /// Store Instructions).
    Load {
        kind: LoadKind,
        rd: Register,
        rs1: Register,
        imm: Short,
    },
    /// SB, SH and SW: memory at rs1 plus the immediate receives rs2 (RV32I, section 2.6 Load and Store Instructions).
    Store {
        kind: StoreKind,
        rs1: Register,
        rs2: Register,
        imm: Short,
    },
    /// ADDI, SLTI, SLTIU, XORI, ORI and ANDI (RV32I, section 2.4.1 Integer Register-Immediate Instructions).
    OpImm {
        op: ImmediateOperation,
        rd: Register,
        rs1: Register,
        imm: Short,
    },
    /// SLLI, SRLI and SRAI; the amount stands in the field of rs2 (RV32I, section 2.4.1 Integer Register-Immediate
    /// Instructions).
    ShiftImm {
        op: ImmediateShift,
        rd: Register,
        rs1: Register,
        amount: ShiftAmount,
    },
    /// ADD, SUB, SLL, SLT, SLTU, XOR, SRL, SRA, OR and AND (RV32I, section 2.4.2 Integer Register-Register Operations).
    Op {
        op: Operation,
        rd: Register,
        rs1: Register,
        rs2: Register,
    },
    /// FENCE, with FENCE.TSO and PAUSE among its encodings. Any rd, rs1 and imm make a FENCE, since a base
    /// implementation ignores these fields or takes the instruction as an ordinary fence (RV32I, section 2.7 Memory
    /// Ordering Instructions).
    Fence {
        rd: Register,
        rs1: Register,
        imm: Short,
    },
    /// ECALL: a request to the environment (RV32I, section 2.8 Environment Call and Breakpoints).
    Ecall,
    /// EBREAK: control goes to a debugger (RV32I, section 2.8 Environment Call and Breakpoints).
    Ebreak,
}
