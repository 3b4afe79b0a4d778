//! What the program answers at a desk.

ghost use Rattle.std.specs.Prelude.{◌≢◌, ◌≤◌, [], Some, IfSome};
ghost use Rattle.svc_request.specs.declared.request.Request.{Request};
ghost use Rattle.svc_answer.specs.Requests.{Does};
ghost use Rattle.svc_command.specs.Asked.{KeepsAsked, MayAsk};
ghost use Rattle.svc_desk.specs.Held.{held_by, held_over, words_in};

use crate::desk::Desk;
use crate::line::words_of;
use crate::packed::{Lent, Packed};
use std::alloc::Global;
use svc_command::execute_alone;

/// What the program printed, told and saved, and its exit status.
#[derive(Drop)]
pub struct Answer {
    pub status: u8,
    pub out: Vec<u8>,
    pub err: Vec<u8>,
    pub saved: Packed,
}

/// Does what the lines of a text ask for, which are the words of a command line without the program's name, over these
/// files. None where memory was refused before the program began, or where the files that it read are others now, which
/// its contract can't exclude.
pub fn answered(alloc: Global, line: &str, files: Lent<'_>) -> Option<Answer>
    ensures done { IfSome result (λ it. it.status ≢ 1 → (request : Request) × MayAsk (words_in line.now) request
        × Does request (held_by files.entry.sizes.now files.entry.contents.now)
        (held_over it.saved.sizes.items it.saved.contents.items files.entry.sizes.now files.entry.contents.now)
        (Some []) (Some it.out.items) it.status) }
    ensures status { IfSome result (λ it. it.status ≤ 2) }
    ensures kept { IfSome result (λ it. KeepsAsked (words_in line.now)
        (held_by files.entry.sizes.now files.entry.contents.now)
        (held_over it.saved.sizes.items it.saved.contents.items files.entry.sizes.now files.entry.contents.now)) }
{
    let Ok(words) = words_of(alloc, line) else {
        return None;
    };
    let mut desk = Desk::new(alloc, files);
    let mut out = Vec::new(alloc);
    let mut err = Vec::new(alloc);
    let status = execute_alone(alloc, &words, &mut desk, &mut out, &mut err);
    if !desk.lent.is_same(&files) {
        return None;
    }
    Some(Answer {
        status,
        out,
        err,
        saved: desk.saved,
    })
}
