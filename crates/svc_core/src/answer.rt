// Asked turns, done on a memory of words in place.

ghost use Rattle.std.specs.Prelude.{◌≡◌, ◌<◌, ◌≤◌, ℕ, None, length, slice_index, option_to_list};
ghost use Rattle.svc_image.specs.declared.layout.TheConstants.{MOST_WORDS};
ghost use Rattle.svc_core_laws.specs.Numbers.{load_bytes, store_bytes};
ghost use Rattle.svc_core_laws.specs.Turns.{access_trap, store_trap};
ghost use Rattle.svc_core_laws.specs.Program.{over, wrote, output};
ghost use Rattle.svc_core_laws.specs.Bursts.{IsReady};
ghost use Rattle.svc_core_laws.specs.Steps.{after_ask, load_answer, store_answer};

use crate::access::{load_place, loaded_value, store_place, stored_word};
use crate::core_state::Core;
use svc_core_laws::Ask;
use svc_rv32i::{LoadKind, Register, StoreKind};

impl Core {
    /// Does an asked turn on a memory of words, the first of which are read-only, up to the test for an entry; it
    /// answers the output word, if any.
    #[inline(always)]
    pub fn answer(&mut self, ask: Ask, memory: &mut [u32], read_only: u32) -> Option<u32>
        requires ready { IsReady self.old ask }
        requires few { length memory.old ≤ MOST_WORDS }
        ensures core { self.new ≡ (after_ask (length memory.old) read_only ask self.old (slice_index memory.old)).core }
        ensures memory { (a : ℕ) → slice_index memory.new a
            ≡ over (wrote (after_ask (length memory.old) read_only ask self.old (slice_index memory.old)).log)
            (slice_index memory.old) a }
        ensures output { option_to_list result
            ≡ output (after_ask (length memory.old) read_only ask self.old (slice_index memory.old)).log }
    {
        match ask {
            Ask::Nothing => None,
            Ask::Load { kind, rd, addr } => {
                self.load(memory, kind, rd, addr);
                None
            }
            Ask::Store { kind, addr, value } => {
                self.store(memory, read_only, kind, addr, value);
                None
            }
            Ask::Emit(word) => {
                self.output_word();
                Some(word)
            }
        }
    }

    #[inline(always)]
    fn load(&mut self, memory: &[u32], kind: LoadKind, rd: Register, addr: u32)
        requires running { self.old.done ≡ None }
        requires in_time { self.old.count < self.old.limit }
        requires few { length memory.now ≤ MOST_WORDS }
        ensures { self.new
            ≡ (load_answer self.old kind rd addr (slice_index memory.now)
            (access_trap (length memory.now) (load_bytes kind) addr)).core }
    {
        match load_place(kind, addr, memory.len() as u32) {
            Ok(access) => {
                let word = memory[access.word as usize];
                self.set(rd, loaded_value(kind, access.lane, word));
            }
            Err(trap) => self.trap(trap),
        }
    }

    #[inline(always)]
    fn store(&mut self, memory: &mut [u32], read_only: u32, kind: StoreKind, addr: u32, value: u32)
        requires running { self.old.done ≡ None }
        requires in_time { self.old.count < self.old.limit }
        requires few { length memory.old ≤ MOST_WORDS }
        ensures core { self.new
            ≡ (store_answer self.old kind addr value (slice_index memory.old)
            (store_trap (length memory.old) read_only (store_bytes kind) addr)).core }
        ensures memory { (a : ℕ) → slice_index memory.new a
            ≡ over (wrote (store_answer self.old kind addr value (slice_index memory.old)
            (store_trap (length memory.old) read_only (store_bytes kind) addr)).log)
            (slice_index memory.old) a }
    {
        match store_place(kind, addr, memory.len() as u32, read_only) {
            Ok(access) => {
                let at = access.word as usize;
                memory[at] = stored_word(kind, access.lane, value, memory[at]);
                self.pass();
            }
            Err(trap) => self.trap(trap),
        }
    }
}
