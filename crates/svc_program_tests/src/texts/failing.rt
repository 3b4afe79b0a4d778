// A writer and a reader that fail once.

use std::io::{self, ErrorKind, Read, Write};

/// A writer that should be given a text: it takes a byte at a time, and fails once, after this many bytes.
#[derive(Drop)]
pub struct FailingWriter<'a> {
    // What is still to come of the text.
    rest: &'a [u8],
    // How many bytes are taken before the failure.
    left: usize,
    failed: bool,
    // Whether each byte that was taken is the text's, and none came after the failure.
    as_wanted: bool,
}

impl FailingWriter<'_> {
    /// A writer that should be given this text, and fails after this many bytes.
    pub fn after(text: &[u8], left: usize) -> FailingWriter<'_> {
        FailingWriter {
            rest: text,
            left,
            failed: false,
            as_wanted: true,
        }
    }

    /// Whether it has failed, and was given the text up to there, and no more.
    pub fn is_broken(&self) -> bool {
        self.failed && self.as_wanted
    }

    /// Whether it was given the whole text, and no more.
    pub fn is_whole(&self) -> bool {
        !self.failed && self.as_wanted && self.rest.is_empty()
    }
}

impl Write for FailingWriter<'_> {
    fn write(&mut self, buf: &[u8]) -> io::Result<usize> {
        if self.left == 0 && !self.failed {
            self.failed = true;
            return Err(io::Error::from(ErrorKind::Other));
        }
        self.left = self.left.saturating_sub(1);
        match (self.rest.split_first(), buf.first()) {
            (_, None) => Ok(0),
            (Some((wanted, rest)), Some(byte)) => {
                self.as_wanted &= *wanted == *byte && !self.failed;
                self.rest = rest;
                Ok(1)
            }
            (None, Some(_)) => {
                self.as_wanted = false;
                Ok(1)
            }
        }
    }

    fn flush(&mut self) -> io::Result<()> {
        Ok(())
    }
}

/// A reader that gives a text byte by byte, and fails once, after this many bytes.
#[derive(Drop)]
pub struct FailingReader<'a> {
    text: &'a [u8],
    left: usize,
    failed: bool,
}

impl FailingReader<'_> {
    /// A reader that gives this text, and fails after this many bytes.
    pub fn after(text: &[u8], left: usize) -> FailingReader<'_> {
        FailingReader {
            text,
            left,
            failed: false,
        }
    }
}

impl Read for FailingReader<'_> {
    fn read(&mut self, buf: &mut [u8]) -> io::Result<usize> {
        if self.left == 0 && !self.failed {
            self.failed = true;
            return Err(io::Error::from(ErrorKind::Other));
        }
        self.left = self.left.saturating_sub(1);
        match (self.text.split_first(), buf.first_mut()) {
            (Some((byte, rest)), Some(place)) => {
                *place = *byte;
                self.text = rest;
                Ok(1)
            }
            _ => Ok(0),
        }
    }
}
