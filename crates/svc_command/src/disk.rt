//! The files of the disk.

use std::os::unix::fs::MetadataExt;
use std::{fs, rt};
use svc_program::{FileFault, Files};

/// The files of the disk. A name is a path.
#[derive(Drop)]
pub struct Disk<'a, R> {
    pub rt: &'a R,
}

impl<R: rt::Files + AllocGlobal> Files for Disk<'_, R> {
    type Reader = R::File;

    fn open(&self, name: &str) -> Result<R::File, FileFault> {
        fs::open(self.rt, name).map_err(|_| FileFault)
    }

    fn save(&mut self, name: &str, bytes: &[u8]) -> Result<(), FileFault> {
        fs::write(self.rt, name, bytes).map_err(|_| FileFault)
    }

    // Two names lead to one file if the disk's number and the file's number on it are the same.
    fn is_same(&self, one: &str, other: &str) -> bool {
        if one == other {
            return true;
        }
        match (fs::metadata(self.rt, one), fs::metadata(self.rt, other)) {
            (Ok(one), Ok(other)) => one.dev() == other.dev() && one.ino() == other.ino(),
            _ => false,
        }
    }
}
