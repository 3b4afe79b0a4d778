// Numbers, registers, labels and instructions as text.

ghost use Rattle.std.specs.Prelude.{◌≡◌, ◌++◌, ◌*◌, ◌<◌, ◌≤◌, OnOk};
ghost use Rattle.svc_list.specs.Listings.{register_text, short_text, offset_text, hex_digit, hex_text, reach_text};
ghost use Rattle.svc_list.specs.Listings.{part_text, parts_text, row_text};
ghost use Rattle.svc_instructions.specs.Instructions.{parts_of};

use std::alloc::AllocError;
use svc_instructions::{Part, Row, part_number, parts_of};
use svc_rv32i::Register;
use svc_text::{Piece, put};
use svc_tokens::{register, split_name};

pub fn put_register(out: &mut Vec<u8>, register: Register) -> Result<(), AllocError>
    ensures { OnOk result (out.new.items ≡ out.old.items ++ register_text register) }
{
    put!(out; "x", register.number);
    Ok(())
}

fn put_short(out: &mut Vec<u8>, n: u32) -> Result<(), AllocError>
    requires { n < 4096 }
    ensures { OnOk result (out.new.items ≡ out.old.items ++ short_text n) }
{
    if n < 2048 {
        put!(out; " ", n);
    } else {
        put!(out; " -", 4096 - n);
    }
    Ok(())
}

fn put_offset(out: &mut Vec<u8>, half: u32, steps: u32) -> Result<(), AllocError>
    requires half { half ≤ 524288 }
    requires steps { steps < 2 * half }
    ensures { OnOk result (out.new.items ≡ out.old.items ++ offset_text half steps) }
{
    if steps < half {
        put!(out; " . + ", 2 * steps);
    } else {
        put!(out; " . - ", 2 * (2 * half - steps));
    }
    Ok(())
}

fn hex_digit(value: u32) -> u8
    requires { value < 16 }
    ensures { result ≡ hex_digit value }
{
    if value < 10 {
        return 48 + value as u8;
    }
    87 + value as u8
}

#[tactic(auto, unfolding(crate::specs::Listings::hex_text))]
fn hex_digits(word: u32) -> [u8; 8]
    ensures { result ≡ hex_text word }
{
    [
        hex_digit(word / 0x1000_0000 % 16),
        hex_digit(word / 0x0100_0000 % 16),
        hex_digit(word / 0x0010_0000 % 16),
        hex_digit(word / 0x0001_0000 % 16),
        hex_digit(word / 0x0000_1000 % 16),
        hex_digit(word / 0x0000_0100 % 16),
        hex_digit(word / 0x0000_0010 % 16),
        hex_digit(word % 16),
    ]
}

/// A word in eight hexadecimal digits.
#[derive(Clone, Copy)]
pub struct Hex(pub u32);

impl Piece for Hex {
    ghost bytes = { λ hex. hex_text hex.0 };

    fn put(self, text: &mut Vec<u8>) -> Result<(), AllocError> {
        text.extend_from_slice(&hex_digits(self.0))
    }
}

fn put_reach(out: &mut Vec<u8>, to: Option<u32>, half: u32, steps: u32) -> Result<(), AllocError>
    requires half { half ≤ 524288 }
    requires steps { steps < 2 * half }
    ensures { OnOk result (out.new.items ≡ out.old.items ++ reach_text to half steps) }
{
    match to {
        Some(target) => {
            put!(out; " at_", Hex(target));
            Ok(())
        }
        None => put_offset(out, half, steps),
    }
}

#[tactic(auto, unfolding(crate::specs::Listings::part_text))]
fn put_part(out: &mut Vec<u8>, to: Option<u32>, part: Part, n: u32) -> Result<(), AllocError>
    ensures { OnOk result (out.new.items ≡ out.old.items ++ part_text to part n) }
{
    match part {
        // A fence stands in no listing.
        Part::End | Part::Order => Ok(()),
        Part::Comma => ",".put(out),
        Part::Rd | Part::Rs1 | Part::Rs2 => {
            " ".put(out)?;
            put_register(out, register(n % 32))
        }
        Part::Base => {
            "(".put(out)?;
            put_register(out, register(n % 32))?;
            ")".put(out)
        }
        Part::Immediate | Part::StoreOffset => put_short(out, n % 4096),
        Part::Amount => {
            put!(out; " ", n % 32);
            Ok(())
        }
        Part::Upper => {
            put!(out; " ", n % 1_048_576);
            Ok(())
        }
        Part::Branch => put_reach(out, to, 2048, n % 4096),
        Part::Jump => put_reach(out, to, 524288, n % 1048576),
    }
}

fn put_parts(out: &mut Vec<u8>, to: Option<u32>, row: Row, word: u32) -> Result<(), AllocError>
    ensures { OnOk result (out.new.items ≡ out.old.items ++ parts_text to (parts_of row) word) }
{
    for part in parts_of(row).iter() {
        put_part(out, to, *part, part_number(*part, word))?;
    }
    Ok(())
}

pub fn put_row(out: &mut Vec<u8>, to: Option<u32>, row: Row, word: u32) -> Result<(), AllocError>
    ensures { OnOk result (out.new.items ≡ out.old.items ++ row_text to row word) }
{
    let (name, _) = split_name(&row.0);
    out.extend_from_slice(name)?;
    put_parts(out, to, row, word)
}
