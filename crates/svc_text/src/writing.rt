// How texts are written.

ghost use Rattle.std.specs.Prelude.{◌≡◌, [], OnOk, OnErr};
ghost use Rattle.std.specs.Io.KnownBytes.{Appends, Keeps, append_known};

use std::io;
use std::io::Write;

/// This many bytes are gathered before they are written, since a writer's call costs more than a row.
pub const ENOUGH: usize = 4096;

/// Writes a text.
pub fn write_text<W: Write>(text: &[u8], w: &mut W) -> io::Result<()>
    ensures { OnOk result (Appends (W.contents w.old) (W.contents w.new) text.now) }
{
    w.write_all(text)
}

/// Writes a gathered text once it is long enough, which leaves it empty.
pub fn write_if_long<W: Write>(text: &mut Vec<u8>, w: &mut W) -> io::Result<()>
    ensures { OnOk result (Keeps (append_known (W.contents w.old) text.old.items)
        (append_known (W.contents w.new) text.new.items)) }
{
    if text.len() >= ENOUGH {
        w.write_all(text)?;
        text.clear();
    }
    Ok(())
}
