// A core: where a task stands.

ghost use Rattle.std.specs.Prelude.{◌≡◌, ◌<◌, true, false, IsTrue, ◌↔◌, is_none};
ghost use Rattle.svc_image.specs.Image.{is_entry};
ghost use Rattle.svc_core_laws.specs.State.{value_of, start};
ghost use Rattle.svc_core_laws.specs.Same.{same_end, same_words, same_state};
ghost use Rattle.svc_core.specs.Empty.{exit_core};

use std::marker::Model;
use svc_core_laws::End;
use svc_image::Image;
use svc_rv32i::Register;

/// Where a task stands: its place, registers, turns, output words, limit of turns, and end.
#[derive(Clone, Copy)]
pub struct Core {
    pub(crate) pc: u32,
    pub(crate) count: u32,
    pub(crate) emitted: u8,
    pub(crate) limit: u32,
    pub(crate) done: Option<End>,
    // The registers come last: fields keep the order of the source, so a write at a register's number can't touch the
    // fields before them, and the compiler keeps those in machine registers.
    pub(crate) regs: [u32; 32],
}

impl Model for Core {
    ghost use Rattle.svc_core_laws.specs.State.{State, IsCore};

    ghost Value = { State };

    ghost view = { λ c. record {
      pc = c.pc;
      regs = c.regs;
      count = c.count;
      emitted = c.emitted;
      limit = c.limit;
      done = c.done;
    } };

    ghost invariant = { λ c. IsCore (record {
      pc = c.pc;
      regs = c.regs;
      count = c.count;
      emitted = c.emitted;
      limit = c.limit;
      done = c.done;
    }) };

    ghost inverse = { λ s. record {
      pc = s.pc;
      regs = s.regs;
      count = s.count;
      emitted = s.emitted;
      limit = s.limit;
      done = s.done;
    } };
}

impl Core {
    /// The core of a task that begins at an entry of the image.
    pub fn start(image: &Image, entry: u32) -> Core
        requires { is_entry image.now entry ≡ true }
        ensures { result ≡ start image.now entry }
    {
        let Some(limit) = image.limit_at(entry) else {
            unreachable!()
        };
        let mut regs = [0; 32];
        regs[1..].copy_from_slice(image.registers());
        Core {
            pc: entry,
            regs,
            count: 0,
            emitted: 0,
            limit,
            done: None,
        }
    }

    // The core of a task that has ended without a turn.
    pub(crate) fn at_exit() -> Core
        ensures { result ≡ exit_core }
    {
        Core {
            pc: 0,
            regs: [0; 32],
            count: 0,
            emitted: 0,
            limit: 1,
            done: Some(End::Exit(0)),
        }
    }

    /// The value of a register.
    #[inline(always)]
    pub fn value(&self, r: Register) -> u32
        ensures { result ≡ value_of self.now r.number }
    {
        // x0 is kept at 0, so it needs no test.
        self.regs[r.number as usize]
    }

    /// Whether the task is still running.
    #[inline(always)]
    pub fn is_running(&self) -> bool
        ensures { result ≡ is_none self.now.done }
    {
        self.done.is_none()
    }

    /// Whether two cores are equal.
    pub fn is_same(&self, other: &Core) -> bool
        ensures test { result ≡ same_state self.now other.now }
        ensures same { IsTrue result ↔ (self.now ≡ other.now) }
    {
        self.has_same_fields(other)
    }

    fn has_same_fields(&self, other: &Core) -> bool
        ensures { result ≡ same_state self.now other.now }
    {
        self.pc == other.pc
            && self.count == other.count
            && self.emitted == other.emitted
            && self.limit == other.limit
            && is_same_end(self.done, other.done)
            && are_same_words(&self.regs, &other.regs)
    }
}

fn is_same_end(a: Option<End>, b: Option<End>) -> bool
    ensures { result ≡ same_end a b }
{
    match (a, b) {
        (None, None) => true,
        (Some(End::Next(a)), Some(End::Next(b))) => a == b,
        (Some(End::Exit(a)), Some(End::Exit(b))) => a == b,
        (Some(End::Trap(a)), Some(End::Trap(b))) => a == b,
        _ => false,
    }
}

#[tactic(auto, using(svc_core_laws::proofs::SameCore::words))]
fn are_same_words(a: &[u32; 32], b: &[u32; 32]) -> bool
    ensures { result ≡ same_words a.now b.now }
{
    // No branch for each word: cores that are compared are mostly equal.
    let mut differing = 0;
    for place in 0..a.len() {
        differing |= a[place] ^ b[place];
    }
    differing == 0
}
