// One turn of a task, and the words that it touches.

ghost use Rattle.std.specs.Prelude.{◌≡◌, ◌≤◌, ◌<◌, ℕ, None, IfSome, length, slice_index};
ghost use Rattle.svc_image.specs.declared.layout.TheConstants.{MOST_WORDS};
ghost use Rattle.svc_core_laws.specs.Program.{over, wrote};
ghost use Rattle.svc_core_laws.specs.Numbers.{load_bytes, store_bytes};
ghost use Rattle.svc_core_laws.specs.Steps.{step_of};
ghost use Rattle.svc_core_laws.specs.Turns.{access_trap, store_trap, word_address};
ghost use Rattle.svc_core_laws.specs.Words.{wants};
ghost use Rattle.svc_depend_laws.specs.Chain.{word_read, word_written};
ghost use Rattle.svc_depend.specs.Touch.{asked_read, asked_written, part_read, unless_trap};

use svc_core::{Ask, Core, load_place, store_place};
use svc_image::Image;
use svc_rv32i::{LoadKind, StoreKind};

/// The words that a turn touches.
#[derive(Clone, Copy)]
pub(crate) struct Touch {
    /// The word that it reads, which a store of less than a word does too.
    pub(crate) reads: Option<u32>,
    /// The word that it writes.
    pub(crate) writes: Option<u32>,
}

/// Takes the next turn of a running task on the words of the memory, in place.
pub(crate) fn take_turn(image: &Image, core: &mut Core, memory: &mut [u32]) -> Touch
    requires running { core.old.done ≡ None }
    requires words { length memory.old ≡ length image.now.words }
    requires few { length memory.old ≤ MOST_WORDS }
    ensures core { core.new ≡ (step_of image.now core.old memory.old).core }
    ensures memory { (a : ℕ) → slice_index memory.new a
        ≡ over (wrote (step_of image.now core.old memory.old).log) (slice_index memory.old) a }
    ensures read_inside { IfSome result.reads (λ w. w < length memory.old) }
    ensures write_inside { IfSome result.writes (λ w. w < length memory.old) }
    ensures reads { result.reads ≡ word_read (wants image.now core.old) }
    ensures writes { result.writes ≡ word_written (wants image.now core.old) }
{
    let found = image.find(core.pc());
    let ask = core.try_found(found.decoded);
    let touch = touch_of(ask, memory.len() as u32, image.read_only());
    let _kept = core.answer(ask, memory, image.read_only());
    let there = image.find(core.pc());
    core.arrive(there.fetched.entry);
    touch
}

// The words that a turn touches which asks this of data of so many words, of which the first ones are read-only.
fn touch_of(ask: Ask, words: u32, read_only: u32) -> Touch
    requires { words ≤ MOST_WORDS }
    ensures read_inside { IfSome result.reads (λ w. w < words) }
    ensures write_inside { IfSome result.writes (λ w. w < words) }
    ensures reads { result.reads ≡ asked_read words read_only ask }
    ensures writes { result.writes ≡ asked_written words read_only ask }
{
    match ask {
        Ask::Nothing | Ask::Emit(_) => Touch {
            reads: None,
            writes: None,
        },
        Ask::Load { kind, rd: _, addr } => Touch {
            reads: load_word(kind, addr, words),
            writes: None,
        },
        Ask::Store {
            kind,
            addr,
            value: _,
        } => {
            let writes = store_word(kind, addr, words, read_only);
            Touch {
                reads: part_read(kind, writes),
                writes,
            }
        }
    }
}

// The word of a load, unless it traps.
fn load_word(kind: LoadKind, addr: u32, words: u32) -> Option<u32>
    requires { words ≤ MOST_WORDS }
    ensures word { result ≡ unless_trap (access_trap words (load_bytes kind) addr) (word_address addr) }
    ensures inside { IfSome result (λ w. w < words) }
{
    match load_place(kind, addr, words) {
        Ok(place) => Some(place.word),
        Err(_trap) => None,
    }
}

// The word of a store, unless it traps.
fn store_word(kind: StoreKind, addr: u32, words: u32, read_only: u32) -> Option<u32>
    requires { words ≤ MOST_WORDS }
    ensures word { result ≡ unless_trap (store_trap words read_only (store_bytes kind) addr) (word_address addr) }
    ensures inside { IfSome result (λ w. w < words) }
{
    match store_place(kind, addr, words, read_only) {
        Ok(place) => Some(place.word),
        Err(_trap) => None,
    }
}

// The word that a store reads of the one that it writes.
fn part_read(kind: StoreKind, word: Option<u32>) -> Option<u32>
    ensures { result ≡ part_read kind word }
{
    match kind {
        StoreKind::Byte | StoreKind::Half => word,
        StoreKind::Word => None,
    }
}
