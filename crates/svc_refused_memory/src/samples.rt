//! The files that the words of a call name, in memory.

use svc_program::{FileFault, Files};
use svc_samples::{P, SCRIPT, TRACE};

// A table of names: of the entries of both tasks, and of the word of data.
const NAMES: &str = "name,address
first,0
second,12
shared,1048576
";

// A program with each section, names and local labels.
const TEXT: &str = ".svc_register x2, 256
.svc_entry
1:
auipc x5, %pcrel_hi(words)
lw x10, %pcrel_lo(1b)(x5)
.svc_entry 100
addi x17, x0, 0
ecall
.rodata
.byte 1
.data
words:
.word 5, 6
.bss
.zero 8
";

/// The files that the words name. Saving always succeeds, as if on a disk.
#[derive(Drop)]
pub struct Samples;

// The image of two tasks.
static IMAGE: [u8; 200] = P;

impl Files for Samples {
    type Reader = &'static [u8];

    fn open(&self, name: &str) -> Result<&'static [u8], FileFault> {
        match name {
            "p" => Ok(IMAGE.as_slice()),
            "events" => Ok(SCRIPT.as_bytes()),
            "trace" => Ok(TRACE.as_bytes()),
            "text" => Ok(TEXT.as_bytes()),
            "names" => Ok(NAMES.as_bytes()),
            _ => Err(FileFault),
        }
    }

    fn save(&mut self, _name: &str, _bytes: &[u8]) -> Result<(), FileFault> {
        Ok(())
    }

    fn is_same(&self, one: &str, other: &str) -> bool {
        one == other
    }
}
