// Reads a text no further than into its first record that is too long.

ghost use Rattle.std.specs.Prelude.{◌≡◌, option_map};
ghost use Rattle.csv.specs.Reading.{strip_bom};
ghost use Rattle.svc_record_limit.specs.Limit.{readable};
ghost use Rattle.svc_record_limit.specs.Places.{known_through};

use crate::gauge::Gauge;
use std::io::{Read, Result};

/// A reader that ends within the first record that is too long, after 4,096 bytes of it, not counting its line end. It
/// gives what comes before unchanged, including a byte order mark at the text's start.
///
/// A reader that fails stays where it was: the next read continues there.
#[derive(Drop)]
pub struct Limited<R> {
    reader: R,
    // None once it has ended there.
    gauge: Option<Gauge>,
}

impl<R: Read> Limited<R> {
    /// Over a reader that gives a text from its start.
    pub fn new(reader: R) -> Limited<R>
        // After a byte order mark it gives what is readable of the text.
        ensures { option_map strip_bom (known_through R.remaining result) ≡ option_map readable (R.remaining reader) }
    {
        Limited {
            reader,
            gauge: Some(Gauge::new()),
        }
    }
}

impl<R: Read> Read for Limited<R> {
    ghost remaining = { known_through R.remaining };

    fn read(&mut self, buffer: &mut [u8]) -> Result<usize> {
        let Some(mut gauge) = self.gauge else {
            return Ok(0);
        };
        let count = self.reader.read(buffer)?;
        let passed = gauge.pass_all(&buffer[..count]);
        self.gauge = if passed < count { None } else { Some(gauge) };
        Ok(passed)
    }
}
