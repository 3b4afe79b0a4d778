// Loads and stores on a memory of words.

ghost use Rattle.std.specs.Prelude.{◌≡◌, ◌==◌, ◌+◌, ◌*◌, ◌/◌, ◌^◌, ◌<◌, ◌≤◌, ◌%◌, IfOk};
ghost use Rattle.svc_image.specs.declared.layout.TheConstants.{MOST_WORDS};
ghost use Rattle.svc_core_laws.specs.Numbers.{extension, load_bytes, store_bytes};
ghost use Rattle.svc_core_laws.specs.Turns.{access_trap, store_trap, word_address, lane_of};
ghost use Rattle.svc_core.specs.Places.{trap_of};
ghost use Rattle.svc_core_laws.specs.Words.{loaded_value, stored_word};

use svc_image::DATA_START;
use svc_rv32i::{LoadKind, StoreKind};

/// Where an access lies in the data.
#[derive(Clone, Copy)]
pub struct Access {
    /// The word address.
    pub word: u32,
    /// The first byte of that word, from 0 to 3.
    pub lane: u32,
}

/// Where a store lies in data of `words` words, of which the first `read_only` are read-only.
///
/// Errors: the number of its trap: 5 if it isn't aligned to its width, otherwise 6 if it lies outside the data,
/// otherwise 10 if its word is read-only.
#[inline(always)]
pub fn store_place(kind: StoreKind, addr: u32, words: u32, read_only: u32) -> Result<Access, u8>
    requires { words ≤ MOST_WORDS }
    ensures trap { trap_of result ≡ store_trap words read_only (store_bytes kind) addr }
    ensures place { IfOk result (λ p. (p.word ≡ word_address addr) × (p.lane ≡ lane_of addr)) }
    ensures inside { IfOk result (λ p. p.word < words) }
    ensures fits { IfOk result (λ p. p.lane + store_bytes kind ≤ 4) }
    ensures aligned { IfOk result (λ p. p.lane % store_bytes kind ≡ 0) }
{
    let place = data_place(kind, addr, words)?;
    if place.word < read_only {
        return Err(10);
    }
    Ok(place)
}

/// Where a load lies in data of `words` words.
///
/// Errors: the number of its trap: 5 if it isn't aligned to its width, otherwise 6 if it lies outside the data.
#[inline(always)]
pub fn load_place(kind: LoadKind, addr: u32, words: u32) -> Result<Access, u8>
    requires { words ≤ MOST_WORDS }
    ensures trap { trap_of result ≡ access_trap words (load_bytes kind) addr }
    ensures place { IfOk result (λ p. (p.word ≡ word_address addr) × (p.lane ≡ lane_of addr)) }
    ensures inside { IfOk result (λ p. p.word < words) }
    ensures fits { IfOk result (λ p. p.lane + load_bytes kind ≤ 4) }
{
    data_place(width_of(kind), addr, words)
}

// Where an access of a store's width lies in data of this many words, or the number of its trap.
#[inline(always)]
fn data_place(kind: StoreKind, addr: u32, words: u32) -> Result<Access, u8>
    requires { words ≤ MOST_WORDS }
    ensures trap { trap_of result ≡ access_trap words (store_bytes kind) addr }
    ensures place { IfOk result (λ p. (p.word ≡ word_address addr) × (p.lane ≡ lane_of addr)) }
    ensures inside { IfOk result (λ p. p.word < words) }
    ensures fits { IfOk result (λ p. p.lane + store_bytes kind ≤ 4) }
    ensures aligned { IfOk result (λ p. p.lane % store_bytes kind ≡ 0) }
{
    if !is_aligned(kind, addr) {
        return Err(5);
    }
    if addr < DATA_START {
        return Err(6);
    }
    let place = addr - DATA_START;
    let word = place / 4;
    if word < words {
        Ok(Access {
            word,
            lane: place % 4,
        })
    } else {
        Err(6)
    }
}

// The store of as many bytes.
#[inline(always)]
fn width_of(kind: LoadKind) -> StoreKind
    ensures { store_bytes result ≡ load_bytes kind }
{
    match kind {
        LoadKind::Byte => StoreKind::Byte,
        LoadKind::ByteUnsigned => StoreKind::Byte,
        LoadKind::Half => StoreKind::Half,
        LoadKind::HalfUnsigned => StoreKind::Half,
        LoadKind::Word => StoreKind::Word,
    }
}

#[inline(always)]
fn is_aligned(kind: StoreKind, addr: u32) -> bool
    ensures { result ≡ (addr % store_bytes kind == 0) }
{
    match kind {
        StoreKind::Byte => true,
        StoreKind::Half => addr % 2 == 0,
        StoreKind::Word => addr % 4 == 0,
    }
}

/// The value that a load takes from a word, from this byte on.
#[inline(always)]
pub fn loaded_value(kind: LoadKind, lane: u32, word: u32) -> u32
    requires { lane + load_bytes kind ≤ 4 }
    ensures { result ≡ loaded_value kind lane word }
{
    match kind {
        // Its lane is 0.
        LoadKind::Word => word,
        _ => extend(kind, lowest(kind, from_lane(lane, word))),
    }
}

/// The word with its bytes from a lane on replaced by the lowest bytes of a value.
#[inline(always)]
pub fn stored_word(kind: StoreKind, lane: u32, value: u32, word: u32) -> u32
    requires fits { lane + store_bytes kind ≤ 4 }
    requires aligned { lane % store_bytes kind ≡ 0 }
    ensures { result ≡ stored_word kind lane value word }
{
    match kind {
        StoreKind::Byte => with_byte(lane, value % 0x100, word),
        StoreKind::Half => {
            if lane == 0 {
                word / 0x1_0000 * 0x1_0000 + value % 0x1_0000
            } else {
                word % 0x1_0000 + value % 0x1_0000 * 0x1_0000
            }
        }
        StoreKind::Word => value,
    }
}

// The bytes of a word, from a lane on.
fn from_lane(lane: u32, word: u32) -> u32
    requires { lane < 4 }
    ensures { result ≡ word / 256 ^ lane }
{
    match lane {
        0 => word,
        1 => word / 0x100,
        2 => word / 0x1_0000,
        _ => word / 0x100_0000,
    }
}

// As many of the lowest bytes as the load reads.
fn lowest(kind: LoadKind, bytes: u32) -> u32
    ensures value { result ≡ bytes % 256 ^ load_bytes kind }
    ensures fits { result < 256 ^ load_bytes kind }
{
    match kind {
        LoadKind::Byte => bytes % 0x100,
        LoadKind::ByteUnsigned => bytes % 0x100,
        LoadKind::Half => bytes % 0x1_0000,
        LoadKind::HalfUnsigned => bytes % 0x1_0000,
        LoadKind::Word => bytes,
    }
}

// The register's new value, by the kind of the load.
#[tactic(auto, unfolding(svc_core_laws::specs::Numbers::extension))]
fn extend(kind: LoadKind, number: u32) -> u32
    requires { number < 256 ^ load_bytes kind }
    ensures { result ≡ extension kind number }
{
    match kind {
        LoadKind::Byte => {
            if number < 0x80 {
                number
            } else {
                number + 0xFFFF_FF00
            }
        }
        LoadKind::Half => {
            if number < 0x8000 {
                number
            } else {
                number + 0xFFFF_0000
            }
        }
        LoadKind::Word => number,
        LoadKind::ByteUnsigned => number,
        LoadKind::HalfUnsigned => number,
    }
}

fn with_byte(lane: u32, byte: u32, word: u32) -> u32
    requires lane { lane < 4 }
    requires byte { byte < 256 }
    ensures { result ≡ stored_word StoreKind.Byte lane byte word }
{
    match lane {
        0 => word / 0x100 * 0x100 + byte,
        1 => word % 0x100 + byte * 0x100 + word / 0x1_0000 * 0x1_0000,
        2 => word % 0x1_0000 + byte * 0x1_0000 + word / 0x100_0000 * 0x100_0000,
        _ => word % 0x100_0000 + byte * 0x100_0000,
    }
}
