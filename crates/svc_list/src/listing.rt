// The text of an image.

ghost use Rattle.std.specs.Prelude.{Bool, false, slice_index_or, [], ◌≡◌, ℕ, suc, ◌++◌, ◌∷◌, List, Option, codes};
ghost use Rattle.std.specs.Prelude.{◌<◌, ◌≤◌, ◌*◌, ◌^◌, length, slice_index, decimal, IfOk, IfSome, IfNone, OnOk};
ghost use Rattle.svc_asm.specs.Programs.{IsProgramOf};
ghost use Rattle.svc_names.specs.declared.name.Name.{Name};
ghost use Rattle.svc_names.specs.Given.{listed, noted_by};
ghost use Rattle.svc_list.specs.Listings.{first_text, own_text, section_text, statement_text, word_note, Labels};
ghost use Rattle.svc_list.specs.Listings.{Starts, bare, line_of, text_of, line_for, datum, labels, setting, settings};
ghost use Rattle.svc_list.specs.Listings.{own_limit, marks, code, data_lines, all_data, head_lines, listing_of};

use crate::labels::{labels_of, target_by};
use crate::text::{Hex, put_register, put_row};
use std::alloc::{AllocError, Global};
use svc_image::{DATA_START, Image, Version};
use svc_instructions::row_of;
use svc_layout::{Next, Section, Statement, Width};
use svc_names::{Names, put_note};
use svc_rv32i::Register;
use svc_text::{Piece, put};
use svc_tokens::register;

fn put_numbered(out: &mut Vec<u8>, name: &str, number: u32) -> Result<(), AllocError>
    ensures { OnOk result (out.new.items ≡ out.old.items ++ (name.now ++ decimal number)) }
{
    put!(out; name, number);
    Ok(())
}

fn put_entry(out: &mut Vec<u8>, limit: Option<u32>) -> Result<(), AllocError>
    ensures { OnOk result (out.new.items ≡ out.old.items ++ (codes ".svc_entry" ++ own_text limit)) }
{
    match limit {
        None => ".svc_entry".put(out),
        Some(limit) => put_numbered(out, ".svc_entry ", limit),
    }
}

fn put_setting(
    out: &mut Vec<u8>,
    name: &str,
    register: Register,
    value: u32,
) -> Result<(), AllocError>
    ensures { OnOk result (out.new.items
        ≡ out.old.items ++ (name.now ++ (first_text register ++ (32 ∷ decimal value)))) }
{
    put!(out; name, " ");
    put_register(out, register)?;
    put!(out; ", ", value);
    Ok(())
}

fn put_section(out: &mut Vec<u8>, section: Section) -> Result<(), AllocError>
    ensures { OnOk result (out.new.items ≡ out.old.items ++ section_text section) }
{
    match section {
        Section::Text => ".text".put(out),
        Section::Rodata => ".rodata".put(out),
        Section::Data => ".data".put(out),
        Section::Bss => ".bss".put(out),
    }
}

#[tactic(auto, unfolding(crate::specs::Listings::statement_text))]
fn put_statement(out: &mut Vec<u8>, statement: Statement) -> Result<(), AllocError>
    ensures { OnOk result (out.new.items ≡ out.old.items ++ statement_text statement) }
{
    match statement {
        Statement::Value(_, number, _) => put_numbered(out, ".word ", number),
        Statement::Version(version) => put_numbered(out, ".svc_version ", version.number() as u32),
        Statement::ReadOnly => ".svc_readonly".put(out),
        Statement::Entry(limit) => put_entry(out, limit),
        Statement::Start(start) => put_numbered(out, ".svc_start ", start),
        Statement::Limit(limit) => put_numbered(out, ".svc_limit ", limit),
        Statement::Register(register, value) => put_setting(out, ".svc_register", register, value),
        Statement::Section(section) => put_section(out, section),
        // These stand in no listing, or stand there as words of the text.
        _ => Ok(()),
    }
}

fn put_line(out: &mut Vec<u8>, statement: Statement) -> Result<(), AllocError>
    ensures { OnOk result (out.new.items ≡ out.old.items ++ line_of (bare statement)) }
{
    put_statement(out, statement)?;
    "\n".put(out)
}

// Ends the line of a word, with the name of its address, if names are given and it has one.
fn end_word(out: &mut Vec<u8>, names: Option<&Names>, address: u32) -> Result<(), AllocError>
    ensures { OnOk result (out.new.items ≡ out.old.items ++ (noted_by (listed names.entry) address ++ (10 ∷ []))) }
{
    put_note(names, out, address)?;
    "\n".put(out)
}

fn end_coded(
    out: &mut Vec<u8>,
    names: Option<&Names>,
    address: u32,
    word: u32,
) -> Result<(), AllocError>
    ensures { OnOk result (out.new.items
        ≡ out.old.items ++ (word_note (listed names.entry) address word ++ (10 ∷ []))) }
{
    put!(out; "\t# 0x", Hex(address), " ", Hex(word));
    end_word(out, names, address)
}

fn put_coded(
    out: &mut Vec<u8>,
    names: Option<&Names>,
    count: u32,
    address: u32,
    word: u32,
) -> Result<(), AllocError>
    requires count { count ≤ 65536 }
    requires address { address < 262144 }
    ensures { OnOk result
        (out.new.items ≡ out.old.items ++ line_of (line_for (listed names.entry) count address word)) }
{
    match row_of(word) {
        Some(row) => put_row(out, target_by(count, address, word, row), row, word)?,
        None => put_numbered(out, ".word ", word)?,
    }
    end_coded(out, names, address, word)
}

fn put_label(out: &mut Vec<u8>, address: u32) -> Result<(), AllocError>
    ensures { OnOk result (out.new.items ≡ out.old.items ++ line_of (Labels address)) }
{
    put!(out; "at_", Hex(address), ":\n");
    Ok(())
}

fn put_labels(out: &mut Vec<u8>, address: u32, labelled: bool) -> Result<(), AllocError>
    ensures { OnOk result ((n : ℕ) (is : ℕ → Bool) → address ≡ 4 * n → is n ≡ labelled
        → out.new.items ≡ out.old.items ++ text_of (labels is n)) }
{
    if labelled {
        put_label(out, address)?;
    }
    Ok(())
}

fn put_start(out: &mut Vec<u8>, start: u32) -> Result<(), AllocError>
    ensures { OnOk result (out.new.items ≡ out.old.items ++ line_of (Starts start)) }
{
    put!(out; ".svc_start ", "at_", Hex(start), "\n");
    Ok(())
}

fn put_datum(
    out: &mut Vec<u8>,
    names: Option<&Names>,
    address: u32,
    word: u32,
) -> Result<(), AllocError>
    ensures { OnOk result (out.new.items ≡ out.old.items ++ line_of (datum (listed names.entry) address word)) }
{
    put_statement(out, Statement::Value(Width::Word, word, Next::Line))?;
    put!(out; "\t# 0x", Hex(address));
    end_word(out, names, address)
}

fn put_nonzero(out: &mut Vec<u8>, number: u32, value: u32) -> Result<(), AllocError>
    requires { number < 32 }
    ensures { OnOk result (out.new.items ≡ out.old.items ++ text_of (setting number value)) }
{
    if value == 0 {
        return Ok(());
    }
    put_line(out, Statement::Register(register(number), value))?;
    Ok(())
}

fn put_settings(out: &mut Vec<u8>, registers: &[u32]) -> Result<(), AllocError>
    requires { length registers.now ≤ 31 }
    ensures { OnOk result (out.new.items ≡ out.old.items ++ text_of (settings 1 registers.now)) }
{
    let mut number = 1;
    for &value in registers {
        put_nonzero(out, number, value)?;
        number += 1;
    }
    Ok(())
}

// The next entry's limit, and the entries and limits behind it, where that entry stands at this address.
fn behind<'a>(entries: &'a [u32], limits: &'a [u32], pc: u32) -> Option<(u32, &'a [u32], &'a [u32])>
    ensures some { IfSome result (λ x. (entries.now ≡ pc ∷ x.1.now) × (limits.now ≡ x.0 ∷ x.2.now)) }
    ensures none { IfNone result ((e l : ℕ) (es ls : List ℕ)
        → entries.now ≡ e ∷ es → limits.now ≡ l ∷ ls → e ≡ pc → ⊥) }
{
    match (entries, limits) {
        ([entry, entries @ ..], [limit, limits @ ..]) if *entry == pc => {
            Some((*limit, entries, limits))
        }
        _ => None,
    }
}

fn own_limit(version: Version, limit: u32) -> Option<u32>
    ensures { result ≡ own_limit version limit }
{
    match version {
        Version::One => None,
        Version::Two => Some(limit),
    }
}

// The mark of an entry, where the next one stands at this word of the text. It answers the entries that are left, and
// their limits.
fn put_mark<'a>(
    out: &mut Vec<u8>,
    version: Version,
    entries: &'a [u32],
    limits: &'a [u32],
    pc: u32,
) -> Result<(&'a [u32], &'a [u32]), AllocError>
    ensures { IfOk result (λ left. (given : Option (List Name)) (count n word : ℕ) (is : ℕ → Bool)
        (words before : List ℕ) → pc ≡ 4 * n
        → out.old.items ≡ before ++ text_of (labels is n)
        → (out.new.items ++ line_of (line_for given count pc word))
        ++ text_of (code given count is (suc n) (marks version left.0.now left.1.now) words)
        ≡ before ++ text_of (code given count is n (marks version entries.now limits.now) (word ∷ words))) }
{
    match behind(entries, limits, pc) {
        Some(next) => {
            put_line(out, Statement::Entry(own_limit(version, next.0)))?;
            Ok((next.1, next.2))
        }
        None => Ok((entries, limits)),
    }
}

fn put_code(
    out: &mut Vec<u8>,
    names: Option<&Names>,
    version: Version,
    entries: &[u32],
    limits: &[u32],
    labelled: &[bool],
    text: &[u32],
) -> Result<(), AllocError>
    requires few { length text.now ≤ 65536 }
    requires each { length labelled.now ≡ length text.now }
    ensures { OnOk result ((is : ℕ → Bool)
        → ((n : ℕ) → n < length text.now → slice_index_or labelled.now n false ≡ is n)
        → out.new.items ≡ out.old.items
        ++ text_of (code (listed names.entry) (length text.now) is 0 (marks version entries.now limits.now) text.now)) }
{
    let count = text.len() as u32;
    let mut entries = entries;
    let mut limits = limits;
    let mut pc = 0;
    for &word in text {
        put_labels(out, pc, labelled[(pc / 4) as usize])?;
        let (entries_left, limits_left) = put_mark(out, version, entries, limits, pc)?;
        put_coded(out, names, count, pc, word)?;
        entries = entries_left;
        limits = limits_left;
        pc += 4;
    }
    Ok(())
}

fn put_data(
    out: &mut Vec<u8>,
    names: Option<&Names>,
    address: u32,
    words: &[u32],
) -> Result<(), AllocError>
    requires address { address ≤ 2 ^ 31 }
    requires few { length words.now ≤ 65536 }
    ensures { OnOk result (out.new.items
        ≡ out.old.items ++ text_of (data_lines (listed names.entry) address words.now)) }
{
    let mut address = address;
    for &word in words {
        put_datum(out, names, address, word)?;
        address += 4;
    }
    Ok(())
}

fn put_split(
    out: &mut Vec<u8>,
    names: Option<&Names>,
    read_only: usize,
    words: &[u32],
) -> Result<(), AllocError>
    requires fixed { read_only ≤ length words.now }
    requires few { length words.now ≤ 65536 }
    ensures { OnOk result (out.new.items
        ≡ out.old.items ++ text_of (all_data (listed names.entry) Version.Two read_only words.now)) }
{
    let parts = words.split_at(read_only);
    put_data(out, names, DATA_START, parts.0)?;
    put_line(out, Statement::ReadOnly)?;
    put_data(out, names, DATA_START + 4 * read_only as u32, parts.1)?;
    Ok(())
}

fn put_all_data(
    out: &mut Vec<u8>,
    names: Option<&Names>,
    version: Version,
    read_only: usize,
    words: &[u32],
) -> Result<(), AllocError>
    requires fixed { read_only ≤ length words.now }
    requires few { length words.now ≤ 65536 }
    ensures { OnOk result (out.new.items
        ≡ out.old.items ++ text_of (all_data (listed names.entry) version read_only words.now)) }
{
    match version {
        Version::One => put_data(out, names, DATA_START, words),
        Version::Two => put_split(out, names, read_only, words),
    }
}

fn first_limit(limits: &[u32]) -> u32
    ensures { result ≡ slice_index limits.now 0 }
{
    match limits {
        [first, ..] => *first,
        [] => 0,
    }
}

fn put_head(out: &mut Vec<u8>, version: Version, limit: u32, start: u32) -> Result<(), AllocError>
    ensures { OnOk result (out.new.items ≡ out.old.items ++ text_of (head_lines version limit start)) }
{
    put_line(out, Statement::Version(version))?;
    match version {
        Version::One => {
            put_line(out, Statement::Limit(limit))?;
            put_start(out, start)?;
            Ok(())
        }
        Version::Two => {
            put_start(out, start)?;
            Ok(())
        }
    }
}

/// The listing of an image: a text that is assembled to it. If names are given, the comment behind each word ends with
/// the name of its address, if it has one.
///
/// Errors: memory ran out.
pub fn list(alloc: Global, image: &Image, names: Option<&Names>) -> Result<Vec<u8>, AllocError>
    ensures listing { IfOk result (λ text. text.items ≡ listing_of (listed names.entry) image.now) }

    // It is a program of the image, and a program of an image is assembled to that image.
    ensures program { IfOk result (λ text. IsProgramOf text.items image.now) }
{
    let entries = image.entries();
    let text = image.text_words();
    let labelled = labels_of(alloc, entries, text)?;
    let mut out = Vec::new(alloc);
    put_head(
        &mut out,
        image.version(),
        first_limit(image.limits()),
        image.start(),
    )?;
    put_settings(&mut out, image.registers())?;
    put_code(
        &mut out,
        names,
        image.version(),
        entries,
        image.limits(),
        &labelled,
        text,
    )?;
    put_line(&mut out, Statement::Section(Section::Data))?;
    put_all_data(
        &mut out,
        names,
        image.version(),
        image.read_only() as usize,
        image.data_words(),
    )?;
    Ok(out)
}
