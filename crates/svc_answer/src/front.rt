//! The beginning of a file that may have no end.

ghost use Rattle.std.specs.Prelude.{◌≡◌, ◌≤◌, IfOk, IfErr, IfSome, length};
ghost use Rattle.svc_request.specs.Faults.{IsEarly};

use std::alloc::Global;
use std::io::Read;
use svc_request::Fault;

/// What a reader gives, up to one byte more than `most`. If there are at most `most` bytes, they
/// are the whole file.
pub fn front_of<R: Read + Drop>(alloc: Global, reader: R, most: u32) -> Result<Vec<u8>, Fault>
    ensures whole { IfOk result (λ bytes. length bytes.items ≤ most
        → IfSome (R.remaining reader) (λ known. bytes.items ≡ known)) }
    ensures early { IfErr result IsEarly }
{
    let mut bytes = Vec::new(alloc);
    let mut front = reader.take(u64::from(most) + 1);
    match front.read_to_end(&mut bytes) {
        Ok(_) => Ok(bytes),
        Err(_) => Err(Fault::File),
    }
}
