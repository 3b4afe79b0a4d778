// The table of instructions: what each name and its operands make, and how each word is written.

ghost use Rattle.std.specs.Prelude.{◌≡◌};
ghost use Rattle.svc_instructions.specs.Instructions.{parts_of};

use Part::{
    Amount, Base, Branch, Comma, End, Immediate, Jump, Order, Rd, Rs1, Rs2, StoreOffset, Upper,
};
use Through::{First, Link, Own};
use svc_tokens::{Name, Named};

/// A part of an instruction's operands, in the order of the text.
#[derive(Clone, Copy)]
pub enum Part {
    /// Nothing more.
    End,
    /// A comma.
    Comma,
    /// The register that receives the result.
    Rd,
    /// The first register that is read.
    Rs1,
    /// The second register that is read.
    Rs2,
    /// The first register that is read, in parentheses.
    Base,
    /// A number of 12 bits with its sign.
    Immediate,
    /// Such a number, where a store has it.
    StoreOffset,
    /// By how much a shift shifts.
    Amount,
    /// The upper 20 bits of a number.
    Upper,
    /// What a fence orders.
    Order,
    /// How far a branch goes.
    Branch,
    /// How far a jump goes.
    Jump,
}

/// The parts of an instruction's operands.
#[derive(Clone, Copy)]
pub struct Operands(pub Part, pub Part, pub Part, pub Part, pub Part);

/// An instruction: its name, its word where each of these operands is 0, and its operands.
#[derive(Clone, Copy)]
pub struct Row(pub Name, pub u32, pub Operands);

/// The parts of a row's operands.
pub fn parts_of(row: Row) -> [Part; 5]
    ensures { result ≡ parts_of row }
{
    let Operands(first, second, third, fourth, fifth) = row.2;
    [first, second, third, fourth, fifth]
}

const NONE: Operands = Operands(End, End, End, End, End);

const THREE: Operands = Operands(Rd, Comma, Rs1, Comma, Rs2);

const SHORT: Operands = Operands(Rd, Comma, Rs1, Comma, Immediate);

const SHIFT: Operands = Operands(Rd, Comma, Rs1, Comma, Amount);

const LOAD: Operands = Operands(Rd, Comma, Immediate, Base, End);

const STORE: Operands = Operands(Rs2, Comma, StoreOffset, Base, End);

const BRANCH: Operands = Operands(Rs1, Comma, Rs2, Comma, Branch);

const SWAPPED: Operands = Operands(Rs2, Comma, Rs1, Comma, Branch);

const MOVE: Operands = Operands(Rd, Comma, Rs1, End, End);

const TEST: Operands = Operands(Rs1, Comma, Branch, End, End);

const UPPER: Operands = Operands(Rd, Comma, Upper, End, End);

const JUMP: Operands = Operands(Rd, Comma, Jump, End, End);

const MOVE_SECOND: Operands = Operands(Rd, Comma, Rs2, End, End);

const TEST_SECOND: Operands = Operands(Rs2, Comma, Branch, End, End);

const TARGET: Operands = Operands(Jump, End, End, End, End);

const SOURCE: Operands = Operands(Rs1, End, End, End, End);

const FENCE: Operands = Operands(Order, End, End, End, End);

const REVERSED: Operands = Operands(Rd, Comma, Rs2, Comma, Rs1);

const LOAD_AT: Operands = Operands(Rd, Comma, Base, End, End);

const STORE_AT: Operands = Operands(Rs2, Comma, Base, End, End);

const JUMP_FROM: Operands = Operands(Immediate, Base, End, End, End);

const JUMP_AT: Operands = Operands(Base, End, End, End, End);

const JUMP_BY: Operands = Operands(Rs1, Comma, Immediate, End, End);

/// The instructions that a listing shows: those of RV32I (RV32/64G Instruction Set Listings) but for FENCE.
pub static ROWS: [Row; 39] = [
    Row(*b"lui             ", 0x0000_0037, UPPER),
    Row(*b"auipc           ", 0x0000_0017, UPPER),
    Row(*b"jal             ", 0x0000_006f, JUMP),
    Row(*b"jalr            ", 0x0000_0067, LOAD),
    Row(*b"beq             ", 0x0000_0063, BRANCH),
    Row(*b"bne             ", 0x0000_1063, BRANCH),
    Row(*b"blt             ", 0x0000_4063, BRANCH),
    Row(*b"bge             ", 0x0000_5063, BRANCH),
    Row(*b"bltu            ", 0x0000_6063, BRANCH),
    Row(*b"bgeu            ", 0x0000_7063, BRANCH),
    Row(*b"lb              ", 0x0000_0003, LOAD),
    Row(*b"lh              ", 0x0000_1003, LOAD),
    Row(*b"lw              ", 0x0000_2003, LOAD),
    Row(*b"lbu             ", 0x0000_4003, LOAD),
    Row(*b"lhu             ", 0x0000_5003, LOAD),
    Row(*b"sb              ", 0x0000_0023, STORE),
    Row(*b"sh              ", 0x0000_1023, STORE),
    Row(*b"sw              ", 0x0000_2023, STORE),
    Row(*b"addi            ", 0x0000_0013, SHORT),
    Row(*b"slti            ", 0x0000_2013, SHORT),
    Row(*b"sltiu           ", 0x0000_3013, SHORT),
    Row(*b"xori            ", 0x0000_4013, SHORT),
    Row(*b"ori             ", 0x0000_6013, SHORT),
    Row(*b"andi            ", 0x0000_7013, SHORT),
    Row(*b"slli            ", 0x0000_1013, SHIFT),
    Row(*b"srli            ", 0x0000_5013, SHIFT),
    Row(*b"srai            ", 0x4000_5013, SHIFT),
    Row(*b"add             ", 0x0000_0033, THREE),
    Row(*b"sub             ", 0x4000_0033, THREE),
    Row(*b"sll             ", 0x0000_1033, THREE),
    Row(*b"slt             ", 0x0000_2033, THREE),
    Row(*b"sltu            ", 0x0000_3033, THREE),
    Row(*b"xor             ", 0x0000_4033, THREE),
    Row(*b"srl             ", 0x0000_5033, THREE),
    Row(*b"sra             ", 0x4000_5033, THREE),
    Row(*b"or              ", 0x0000_6033, THREE),
    Row(*b"and             ", 0x0000_7033, THREE),
    Row(*b"ecall           ", 0x0000_0073, NONE),
    Row(*b"ebreak          ", 0x0010_0073, NONE),
];

/// FENCE, other names of instructions, and names with fewer operands.
pub static ALIASES: [Row; 55] = [
    Row(*b"mv              ", 0x0000_0013, MOVE),
    Row(*b"move            ", 0x0000_0013, MOVE),
    Row(*b"not             ", 0xfff0_4013, MOVE),
    Row(*b"neg             ", 0x4000_0033, MOVE_SECOND),
    Row(*b"seqz            ", 0x0010_3013, MOVE),
    Row(*b"snez            ", 0x0000_3033, MOVE_SECOND),
    Row(*b"sltz            ", 0x0000_2033, MOVE),
    Row(*b"sgtz            ", 0x0000_2033, MOVE_SECOND),
    Row(*b"sgt             ", 0x0000_2033, REVERSED),
    Row(*b"sgtu            ", 0x0000_3033, REVERSED),
    Row(*b"beqz            ", 0x0000_0063, TEST),
    Row(*b"bnez            ", 0x0000_1063, TEST),
    Row(*b"blez            ", 0x0000_5063, TEST_SECOND),
    Row(*b"bgez            ", 0x0000_5063, TEST),
    Row(*b"bltz            ", 0x0000_4063, TEST),
    Row(*b"bgtz            ", 0x0000_4063, TEST_SECOND),
    Row(*b"bgt             ", 0x0000_4063, SWAPPED),
    Row(*b"ble             ", 0x0000_5063, SWAPPED),
    Row(*b"bgtu            ", 0x0000_6063, SWAPPED),
    Row(*b"bleu            ", 0x0000_7063, SWAPPED),
    Row(*b"j               ", 0x0000_006f, TARGET),
    Row(*b"jr              ", 0x0000_0067, SOURCE),
    Row(*b"ret             ", 0x0000_8067, NONE),
    Row(*b"nop             ", 0x0000_0013, NONE),
    Row(*b"unimp           ", 0xc000_1073, NONE),
    Row(*b"jal             ", 0x0000_00ef, TARGET),
    Row(*b"jalr            ", 0x0000_00e7, SOURCE),
    Row(*b"fence           ", 0x0000_000f, FENCE),
    Row(*b"fence.tso       ", 0x8330_000f, NONE),
    Row(*b"add             ", 0x0000_0013, SHORT),
    Row(*b"slt             ", 0x0000_2013, SHORT),
    Row(*b"sltu            ", 0x0000_3013, SHORT),
    Row(*b"xor             ", 0x0000_4013, SHORT),
    Row(*b"or              ", 0x0000_6013, SHORT),
    Row(*b"and             ", 0x0000_7013, SHORT),
    Row(*b"sll             ", 0x0000_1013, SHIFT),
    Row(*b"srl             ", 0x0000_5013, SHIFT),
    Row(*b"sra             ", 0x4000_5013, SHIFT),
    Row(*b"lb              ", 0x0000_0003, LOAD_AT),
    Row(*b"lh              ", 0x0000_1003, LOAD_AT),
    Row(*b"lw              ", 0x0000_2003, LOAD_AT),
    Row(*b"lbu             ", 0x0000_4003, LOAD_AT),
    Row(*b"lhu             ", 0x0000_5003, LOAD_AT),
    Row(*b"sb              ", 0x0000_0023, STORE_AT),
    Row(*b"sh              ", 0x0000_1023, STORE_AT),
    Row(*b"sw              ", 0x0000_2023, STORE_AT),
    Row(*b"jalr            ", 0x0000_0067, SHORT),
    Row(*b"jalr            ", 0x0000_0067, MOVE),
    Row(*b"jalr            ", 0x0000_0067, LOAD_AT),
    Row(*b"jalr            ", 0x0000_00e7, JUMP_FROM),
    Row(*b"jalr            ", 0x0000_00e7, JUMP_AT),
    Row(*b"jalr            ", 0x0000_00e7, JUMP_BY),
    Row(*b"jr              ", 0x0000_0067, JUMP_FROM),
    Row(*b"jr              ", 0x0000_0067, JUMP_AT),
    Row(*b"jr              ", 0x0000_0067, JUMP_BY),
];

/// Which register two instructions go through.
#[derive(Clone, Copy)]
pub enum Through {
    /// None that is named: their words have it.
    Own,
    /// The one that is named before the value.
    First,
    /// Another one, `t1`, where one is named in which a call leaves where it returns.
    Link,
}

/// Two instructions that one name stands for, and that reach any distance from here: the name, the words of both where
/// each of their operands is 0, and which register they go through.
#[derive(Clone, Copy)]
pub struct Couple(pub Name, pub u32, pub u32, pub Through);

/// The names that stand for two instructions, but for `li` and accesses by name.
pub static COUPLES: [Couple; 4] = [
    Couple(*b"call            ", 0x0000_0097, 0x0000_80e7, Link),
    Couple(*b"tail            ", 0x0000_0317, 0x0003_0067, Own),
    Couple(*b"la              ", 0x0000_0017, 0x0000_0013, First),
    Couple(*b"lla             ", 0x0000_0017, 0x0000_0013, First),
];

/// Loads by a label, in the second of two instructions: their words where each operand is 0.
pub static LOADS: [Named; 5] = [
    Named(*b"lb              ", 0x0000_0003),
    Named(*b"lh              ", 0x0000_1003),
    Named(*b"lw              ", 0x0000_2003),
    Named(*b"lbu             ", 0x0000_4003),
    Named(*b"lhu             ", 0x0000_5003),
];

/// Stores by a label, through a register that is named behind it.
pub static STORES: [Named; 3] = [
    Named(*b"sb              ", 0x0000_0023),
    Named(*b"sh              ", 0x0000_1023),
    Named(*b"sw              ", 0x0000_2023),
];
