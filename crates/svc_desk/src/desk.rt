//! Files in memory.

ghost use Rattle.std.specs.Prelude.{◌≡◌, []};

use crate::packed::{Lent, Packed};
use std::alloc::Global;
use svc_program::{FileFault, Files};

/// Files that are lent, and those that were saved over them. A name is of the file that was saved last under it; a file
/// that was saved is not read again.
#[derive(Drop)]
pub struct Desk<'a> {
    alloc: Global,
    pub lent: Lent<'a>,
    pub saved: Packed,
}

impl<'a> Desk<'a> {
    /// A desk with these files, at which none was saved.
    pub fn new(alloc: Global, lent: Lent<'a>) -> Desk<'a>
        ensures lent { result.lent ≡ lent.entry }
        ensures sizes { result.saved.sizes.items ≡ [] }
        ensures saved { result.saved.contents.items ≡ [] }
    {
        Desk {
            alloc,
            lent,
            saved: Packed::new(alloc),
        }
    }
}

impl<'a> Files for Desk<'a> {
    ghost use Rattle.std.specs.Prelude.{ℕ, List, Option};
    ghost use Rattle.svc_desk.specs.Held.{held_over};

    ghost held = { λ d name. held_over d.saved.sizes.items d.saved.contents.items d.lent.sizes.now d.lent.contents.now
        name };

    type Reader = &'a [u8];

    fn open(&self, name: &str) -> Result<&'a [u8], FileFault> {
        match self.saved.lent().find(name.as_bytes()) {
            Some(_) => Err(FileFault),
            None => self.lent.find(name.as_bytes()).ok_or(FileFault),
        }
    }

    fn save(&mut self, name: &str, bytes: &[u8]) -> Result<(), FileFault> {
        match self.saved.before(self.alloc, name.as_bytes(), bytes) {
            Ok(saved) => {
                self.saved = saved;
                Ok(())
            }
            Err(_) => Err(FileFault),
        }
    }

    fn is_same(&self, one: &str, other: &str) -> bool {
        one == other
    }
}
