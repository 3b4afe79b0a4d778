//! The words and the files that the system gives.

use std::alloc::Global;
use std::env::FillError;
use std::io::Read;
use std::rt::Env;
use std::{fs, rt};
use svc_command::{Disk, words_of};
use svc_library_calls::attempt::{Attempt, Refused};
use svc_program::{Fault, Files};

/// Makes the call of this name, if it is one of these.
pub fn attempt<R: rt::Files + AllocGlobal>(rt: &R, name: &str) -> Option<Attempt> {
    match name {
        "words" => Some(words(rt.alloc())),
        "words_that_are_no_text" => Some(words_that_are_no_text(rt.alloc())),
        "disk" => Some(disk(rt)),
        _ => None,
    }
}

// A command line of three words of one byte; the second may be any byte.
#[derive(Drop)]
struct Given {
    second: u8,
}

impl Env for Given {
    fn arg(&self, i: usize, buf: &mut [u8]) -> Result<usize, FillError> {
        if i > 2 {
            return Err(FillError::NotPresent);
        }
        let Some(byte) = buf.first_mut() else {
            return Err(FillError::TooLong);
        };
        *byte = if i == 1 { self.second } else { b'a' };
        Ok(1)
    }

    fn var(&self, _name: &str, _buf: &mut [u8]) -> Result<usize, FillError> {
        Err(FillError::NotPresent)
    }

    fn var_at(&self, _i: usize, _buf: &mut [u8]) -> Result<usize, FillError> {
        Err(FillError::NotPresent)
    }
}

// The words of such a line whose second word is b.
fn is_read(words: &[String]) -> bool {
    match words {
        [first, second, third] => first.as_str() == "a"
            && second.as_str() == "b"
            && third.as_str() == "a",
        _ => false,
    }
}

/// Three words are read.
fn words(alloc: Global) -> Attempt {
    match words_of(&(Given { second: b'b' }, alloc)) {
        Ok(words) => Ok(is_read(&words)),
        Err(Fault::File) => Err(Refused::Told),
        Err(_) => Ok(false),
    }
}

/// The second of three words is not UTF-8.
fn words_that_are_no_text(alloc: Global) -> Attempt {
    Ok(matches!(words_of(&(Given { second: 0xFF }, alloc)), Err(Fault::File)))
}

const NAME: &str = "saved-by-a-call.csv";

/// A file is saved, read, and known by another spelling of its path.
fn disk<R: rt::Files + AllocGlobal>(rt: &R) -> Attempt {
    let mut disk = Disk { rt };
    let is_right = disk.open(NAME).is_err()
        && disk.save(NAME, b"kind,unit\n").is_ok()
        && is_kept(rt.alloc(), &mut disk)
        && is_known(&disk);
    let is_gone = fs::remove_file(rt, NAME).is_ok();
    Ok(is_right && is_gone && disk.save("no-such-folder/file", b"").is_err())
}

// The file is known by its name and another spelling of it, and by no other name.
fn is_known<F: Files>(files: &F) -> bool {
    files.is_same(NAME, NAME)
        && files.is_same(NAME, "./saved-by-a-call.csv")
        && !files.is_same(NAME, ".")
        && !files.is_same(NAME, "no-such-file")
}

// The file has what was saved.
fn is_kept<F: Files>(alloc: Global, files: &mut F) -> bool {
    let mut bytes = Vec::new(alloc);
    match files.open(NAME) {
        Ok(mut file) => {
            file.read_to_end(&mut bytes).is_ok() && bytes.as_slice() == b"kind,unit\n".as_slice()
        }
        Err(_) => false,
    }
}
