//! What is handed over in buffers.

ghost use Rattle.std.specs.Prelude.{◌≡◌, ◌≢◌, ◌≤◌, IsTrue, length, take};

use svc_desk::{Answer, FileSize};

/// How many bytes, and of `files` how many sizes, each buffer was given, or is wanted to hold.
#[repr(C)]
#[derive(Drop)]
pub struct Lengths {
    pub out: u64,
    pub err: u64,
    pub files: u64,
    pub saved: u64,
}

/// Copies an answer into buffers. It returns the exit status, or 3 where one of them is too short.
pub fn hand_over(
    answer: &Answer,
    out: &mut [u8],
    err: &mut [u8],
    files: &mut [FileSize],
    saved: &mut [u8],
    lengths: &mut Lengths,
) -> u32
    requires known { answer.now.status ≤ 2 }
    ensures status { result ≢ 3 → result ≡ answer.now.status }
    ensures out { result ≢ 3 → take lengths.new.out out.new ≡ answer.now.out.items }
    ensures files { result ≢ 3 → take lengths.new.files files.new ≡ answer.now.saved.sizes.items }
    ensures saved { result ≢ 3 → take lengths.new.saved saved.new ≡ answer.now.saved.contents.items }
    ensures few { result ≤ 3 }
{
    *lengths = Lengths {
        out: answer.out.len() as u64,
        err: answer.err.len() as u64,
        files: answer.saved.sizes.len() as u64,
        saved: answer.saved.contents.len() as u64,
    };
    if put(&answer.out, out)
        && put(&answer.err, err)
        && put(&answer.saved.sizes, files)
        && put(&answer.saved.contents, saved)
    {
        return u32::from(answer.status);
    }
    3
}

// Copies these to the buffer's beginning, if they fit.
fn put<T: Copy>(these: &[T], buffer: &mut [T]) -> bool
    ensures { IsTrue result → take (length these.now) buffer.new ≡ these.now }
{
    if these.len() > buffer.len() {
        return false;
    }
    buffer[..these.len()].copy_from_slice(these);
    true
}
