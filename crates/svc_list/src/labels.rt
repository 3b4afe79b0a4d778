// The labels of a text: at its entries, and at the targets of its branches and jumps.

ghost use Rattle.std.specs.Prelude.{◌≡◌, ℕ, ◌+◌, ◌*◌, ◌-◌, ◌<◌, ◌≤◌, ◌%◌, ◌||◌, ◌==◌, false, length, slice_index_or};
ghost use Rattle.std.specs.Prelude.{All, IfOk, IfSome, None};
ghost use Rattle.std.specs.List.{list_any};
ghost use Rattle.svc_image.specs.Image.{StartsWord};
ghost use Rattle.svc_list.specs.Listings.{step_target, word_start, led_by, led_along, target_by, target_of, is_at};
ghost use Rattle.svc_list.specs.Listings.{is_target};
ghost use Rattle.svc_list.specs.Listings.{is_labelled, IsShown};
ghost use Rattle.svc_rv32i.specs.declared.instr.Instr.{Instr};
ghost use Rattle.svc_rv32i.specs.Words.{word_of};
ghost use Rattle.svc_instructions.specs.Instructions.{parts_of, row_of};

use std::alloc::{AllocError, Global};
use svc_instructions::{Part, Row, part_number, parts_of, row_of};

fn step_target(half: u32, address: u32, steps: u32) -> Option<u32>
    requires half { half ≤ 524288 }
    requires address { address < 262144 }
    requires steps { steps < 2 * half }
    ensures { result ≡ step_target half address steps }
{
    if steps < half {
        return Some(address + 2 * steps);
    }
    let back = 2 * (2 * half - steps);
    if back <= address {
        return Some(address - back);
    }
    None
}

fn word_start(count: u32, target: Option<u32>) -> Option<u32>
    requires { count ≤ 65536 }
    ensures value { result ≡ word_start count target }
    ensures place { IfSome result (λ t. (t % 4 ≡ 0) × (t < 4 * count)) }
{
    match target {
        Some(address) if address % 4 == 0 && address < 4 * count => Some(address),
        _ => None,
    }
}

#[tactic(auto, using(crate::proofs::Parts::branch_fits, crate::proofs::Parts::jump_fits))]
fn led_by(part: Part, address: u32, word: u32) -> Option<u32>
    requires { address < 262144 }
    ensures { result ≡ led_by address word part }
{
    match part {
        Part::Branch => step_target(2048, address, part_number(Part::Branch, word)),
        Part::Jump => step_target(524288, address, part_number(Part::Jump, word)),
        _ => None,
    }
}

fn led_along(row: Row, address: u32, word: u32) -> Option<u32>
    requires { address < 262144 }
    ensures { result ≡ led_along address word (parts_of row) }
{
    for part in parts_of(row).iter() {
        if let Some(target) = led_by(*part, address, word) {
            return Some(target);
        }
    }
    None
}

pub fn target_by(count: u32, address: u32, word: u32, row: Row) -> Option<u32>
    requires count { count ≤ 65536 }
    requires address { address < 262144 }
    ensures value { result ≡ target_by count address word row }
    ensures place { IfSome result (λ t. (t % 4 ≡ 0) × (t < 4 * count)) }
{
    word_start(count, led_along(row, address, word))
}

fn target_of(count: u32, address: u32, word: u32) -> Option<u32>
    requires count { count ≤ 65536 }
    requires address { address < 262144 }
    ensures value { result ≡ target_of count address word }
    ensures place { IfSome result (λ t. (t % 4 ≡ 0) × (t < 4 * count)) }
{
    match row_of(word) {
        Some(row) => target_by(count, address, word, row),
        None => None,
    }
}

// Marks the word at which a target stands.
fn mark(table: &mut [bool], target: Option<u32>)
    requires { IfSome target (λ t. (t % 4 ≡ 0) × (t < 4 * length table.now)) }
    ensures size { length table.new ≡ length table.old }
    ensures marks { (n : ℕ) → n < length table.old
        → slice_index_or table.new n false ≡ (slice_index_or table.old n false || is_at (4 * n) target) }
{
    if let Some(address) = target {
        table[(address / 4) as usize] = true;
    }
}

fn mark_entries(table: &mut [bool], entries: &[u32])
    requires { All (StartsWord (length table.now)) entries.now }
    ensures size { length table.new ≡ length table.old }
    ensures marks { (n : ℕ) → n < length table.old
        → slice_index_or table.new n false
        ≡ (slice_index_or table.old n false || list_any (λ e. e == 4 * n) entries.now) }
{
    for &entry in entries {
        mark(table, Some(entry));
    }
}

fn mark_targets(table: &mut [bool], text: &[u32])
    requires few { length text.now ≤ 65536 }
    requires each { length table.now ≡ length text.now }
    ensures size { length table.new ≡ length table.old }
    ensures marks { (n : ℕ) → n < length table.old
        → slice_index_or table.new n false
        ≡ (slice_index_or table.old n false || is_target (length text.now) (4 * n) 0 text.now) }
{
    let count = text.len() as u32;
    let mut address = 0;
    for &word in text {
        mark(table, target_of(count, address, word));
        address += 4;
    }
}

fn mark_all(table: &mut [bool], entries: &[u32], text: &[u32])
    requires few { length text.now ≤ 65536 }
    requires each { length table.now ≡ length text.now }
    requires placed { All (StartsWord (length text.now)) entries.now }
    ensures size { length table.new ≡ length table.old }
    ensures marks { (n : ℕ) → n < length table.old
        → slice_index_or table.new n false
        ≡ ((slice_index_or table.old n false || list_any (λ e. e == 4 * n) entries.now)
        || is_target (length text.now) (4 * n) 0 text.now) }
{
    mark_entries(table, entries);
    mark_targets(table, text);
}

pub fn labels_of(alloc: Global, entries: &[u32], text: &[u32]) -> Result<Vec<bool>, AllocError>
    requires few { length text.now ≤ 65536 }
    requires placed { All (StartsWord (length text.now)) entries.now }
    ensures size { IfOk result (λ table. length table.items ≡ length text.now) }
    ensures labels { IfOk result (λ table. (n : ℕ) → n < length text.now
        → slice_index_or table.items n false ≡ is_labelled entries.now text.now n) }
{
    let mut table = vec![in alloc; false; text.len()]?;
    mark_all(&mut table, entries, text);
    Ok(table)
}

/// Each instruction but FENCE has a row, by which a listing shows it.
pub fn each_is_listed()
    ensures { (instr : Instr) → IsShown instr → row_of (word_of instr) ≡ None → ⊥ }
{}
