//! The files of a case: those of the folder, which are only read, and what the run saves, which stays in memory.

use crate::images::image;
use csv::StringRecord;
use std::io::Cursor;
use std::rt;
use svc_program::{FileFault, Files};

/// The files of one run.
#[derive(Drop)]
pub struct Folder<'a, R> {
    rt: &'a R,
    images: &'a [StringRecord],
    saved: Vec<u8>,
}

impl<'a, R: AllocGlobal> Folder<'a, R> {
    /// The files of the folder and the images of this list, with nothing saved yet.
    pub fn new(rt: &'a R, images: &'a [StringRecord]) -> Folder<'a, R> {
        Folder {
            rt,
            images,
            saved: Vec::new(rt.alloc()),
        }
    }

    /// What was saved: each file's name as a line, and then its text.
    pub fn saved(self) -> Vec<u8> {
        let Folder { saved, .. } = self;
        saved
    }
}

impl<R: rt::Files + AllocGlobal> Files for Folder<'_, R> {
    type Reader = Cursor<Vec<u8>>;

    fn open(&self, name: &str) -> Result<Cursor<Vec<u8>>, FileFault> {
        match image(self.rt, self.images, name) {
            Ok(bytes) => Ok(Cursor::new(bytes)),
            Err(_) => Err(FileFault),
        }
    }

    fn save(&mut self, name: &str, bytes: &[u8]) -> Result<(), FileFault> {
        // A folder that doesn't exist holds no file.
        if name.contains('/') {
            return Err(FileFault);
        }
        self.saved
            .extend_from_slice(name.as_bytes())
            .map_err(|_| FileFault)?;
        self.saved.push(b'\n').map_err(|_| FileFault)?;
        self.saved.extend_from_slice(bytes).map_err(|_| FileFault)
    }

    fn is_same(&self, one: &str, other: &str) -> bool {
        one == other
    }
}
