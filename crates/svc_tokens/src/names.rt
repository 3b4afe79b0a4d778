// Names as the rows of tables have them, and the names of registers. Tables are static: a constant's use copies it.

ghost use Rattle.std.specs.Prelude.{◌≡◌, ◌<◌, IfSome};
ghost use Rattle.std.specs.Str.{bytes_eq};
ghost use Rattle.svc_rv32i.specs.Meaning.{register};
ghost use Rattle.svc_tokens.specs.Names.{letters_of, number_named, x_number, register_named};

use crate::characters::{Radix, value_of};
use svc_rv32i::Register;

/// A name as a table has it, with spaces behind it.
pub type Name = [u8; 16];

/// A name, and the number that it has.
#[derive(Clone, Copy)]
pub struct Named(pub Name, pub u32);

/// The registers by the names of the calling convention.
pub static REGISTERS: [Named; 33] = [
    Named(*b"zero            ", 0),
    Named(*b"ra              ", 1),
    Named(*b"sp              ", 2),
    Named(*b"gp              ", 3),
    Named(*b"tp              ", 4),
    Named(*b"t0              ", 5),
    Named(*b"t1              ", 6),
    Named(*b"t2              ", 7),
    Named(*b"s0              ", 8),
    Named(*b"fp              ", 8),
    Named(*b"s1              ", 9),
    Named(*b"a0              ", 10),
    Named(*b"a1              ", 11),
    Named(*b"a2              ", 12),
    Named(*b"a3              ", 13),
    Named(*b"a4              ", 14),
    Named(*b"a5              ", 15),
    Named(*b"a6              ", 16),
    Named(*b"a7              ", 17),
    Named(*b"s2              ", 18),
    Named(*b"s3              ", 19),
    Named(*b"s4              ", 20),
    Named(*b"s5              ", 21),
    Named(*b"s6              ", 22),
    Named(*b"s7              ", 23),
    Named(*b"s8              ", 24),
    Named(*b"s9              ", 25),
    Named(*b"s10             ", 26),
    Named(*b"s11             ", 27),
    Named(*b"t3              ", 28),
    Named(*b"t4              ", 29),
    Named(*b"t5              ", 30),
    Named(*b"t6              ", 31),
];

/// Whether a name is this word.
pub fn is_word(name: &[u8], word: &str) -> bool
    ensures { result ≡ bytes_eq name.now word.now }
{
    name == word.as_bytes()
}

/// A name with spaces behind it, where it isn't longer than a table's.
#[tactic(auto, unfolding(crate::specs::Names::letters_of))]
pub fn letters_of(name: &[u8]) -> Option<Name>
    ensures { result ≡ letters_of name.now }
{
    if name.len() > 16 {
        return None;
    }
    let mut letters = [b' '; 16];
    letters[..name.len()].copy_from_slice(name);
    Some(letters)
}

/// The number of the first of these rows that has this name.
#[tactic(auto, unfolding(crate::specs::Names::number_named))]
pub fn number_named(rows: &[Named], name: &[u8]) -> Option<u32>
    ensures { result ≡ number_named rows.now name.now }
{
    let letters = letters_of(name)?;
    for row in rows {
        if letters == row.0 {
            return Some(row.1);
        }
    }
    None
}

fn abi_named(name: &[u8]) -> Option<u32>
    ensures value { result ≡ number_named REGISTERS name.now }
    ensures small { IfSome result (λ n. n < 32) }
{
    number_named(&REGISTERS, name)
}

#[tactic(auto, unfolding(crate::specs::Names::x_number))]
fn x_number(name: &[u8]) -> Option<u32>
    ensures value { result ≡ x_number name.now }
    ensures small { IfSome result (λ n. n < 32) }
{
    match name {
        [b'x', digits @ ..] => match value_of(Radix::Decimal, digits) {
            Some(number) if number < 32 => Some(number),
            _ => None,
        },
        _ => None,
    }
}

#[tactic(auto, unfolding(svc_rv32i::specs::Meaning::register), using(svc_rv32i::proofs::Same::same_register))]
pub fn register(number: u32) -> Register
    requires { number < 32 }
    ensures { result ≡ register number }
{
    Register {
        number: number as u8,
    }
}

#[tactic(auto, unfolding(crate::specs::Names::register_named))]
pub fn register_named(name: &[u8]) -> Option<Register>
    ensures { result ≡ register_named name.now }
{
    if let Some(number) = x_number(name) {
        return Some(register(number));
    }
    let number = abi_named(name)?;
    Some(register(number))
}
