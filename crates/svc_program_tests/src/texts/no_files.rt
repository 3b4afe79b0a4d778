// A disk without files.

use std::io::Empty;
use svc_program::{FileFault, Files};

/// No file is there, and none may be saved.
#[derive(Drop)]
pub struct NoFiles;

impl Files for NoFiles {
    type Reader = Empty;

    fn open(&self, _name: &str) -> Result<Empty, FileFault> {
        Err(FileFault)
    }

    fn save(&mut self, _name: &str, _bytes: &[u8]) -> Result<(), FileFault> {
        Err(FileFault)
    }

    fn is_same(&self, one: &str, other: &str) -> bool {
        one == other
    }
}
