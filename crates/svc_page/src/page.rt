//! The call of a page.

ghost use Rattle.std.specs.Prelude.{◌≢◌, ◌≤◌, [], Some, take};
ghost use Rattle.svc_request.specs.declared.request.Request.{Request};
ghost use Rattle.svc_answer.specs.Requests.{Does};
ghost use Rattle.svc_command.specs.Asked.{MayAsk};
ghost use Rattle.svc_desk.specs.Held.{held_by, held_over, words_in};

use crate::buffers::{Lengths, hand_over};
use std::alloc::Global;
use svc_desk::{FileSize, Lent, answered};

/// Does what the lines of `words` ask for, which are the words of a command line without the program's name, over files
/// of the given `sizes`, whose names and bytes stand in `contents` one behind another. It returns the exit status, and
/// then `out` and `err` hold what was printed, `files` and `saved` the files that were saved, as do `sizes` and
/// `contents`; or 3 where the words are not UTF-8, memory was refused before the program began, or a buffer is too
/// short for what it was to hold; `lengths` says how much that is.
#[unsafe(no_mangle)]
pub extern "C" fn svc_page_answer(
    alloc: Global,
    words: &[u8],
    sizes: &[FileSize],
    contents: &[u8],
    out: &mut [u8],
    err: &mut [u8],
    files: &mut [FileSize],
    saved: &mut [u8],
    lengths: &mut Lengths,
) -> u32
    ensures done { result ≢ 1 → result ≢ 3 → (request : Request) × MayAsk (words_in words.now) request
        × Does request (held_by sizes.now contents.now)
        (held_over (take lengths.new.files files.new) (take lengths.new.saved saved.new) sizes.now contents.now)
        (Some []) (Some (take lengths.new.out out.new)) result }
    ensures status { result ≤ 3 }
{
    let Ok(line) = std::str::from_utf8(words) else {
        return 3;
    };
    let Some(answer) = answered(alloc, line, Lent { sizes, contents }) else {
        return 3;
    };
    hand_over(&answer, out, err, files, saved, lengths)
}
