//! The calls, by their names.

use crate::{help, program, system};
use std::rt::Files;
use std::sync::Wait;
use std::thread::Threads;
use svc_library_calls::attempt::{Attempt, Refused, Seen};
use svc_library_calls::{images, machines, reasons, texts, threads};

// Makes the call of this name; none if no call has it. Each name belongs to one call.
fn attempt<R: Files + Threads + Wait + Sync + AllocGlobal>(rt: &R, name: &str) -> Option<Attempt> {
    let alloc = rt.alloc();
    images::attempt(alloc, name)
        .or(machines::attempt(alloc, name))
        .or(reasons::attempt(alloc, name))
        .or(texts::attempt(alloc, name))
        .or(threads::attempt(rt, alloc, name))
        .or(program::attempt(rt, name))
        .or(system::attempt(rt, name))
        .or(help::attempt(rt, name))
}

/// Makes the call of this name, and makes it again if it reported that memory was refused.
pub fn seen<R: Files + Threads + Wait + Sync + AllocGlobal>(rt: &R, name: &str) -> Seen {
    match attempt(rt, name) {
        None => Seen::Unknown,
        Some(Ok(true)) => Seen::Ample,
        Some(Ok(false)) => Seen::Wrong,
        Some(Err(Refused::Before)) => Seen::Before,
        Some(Err(Refused::Told)) => match attempt(rt, name) {
            Some(Ok(true)) => Seen::Told,
            _ => Seen::Wrong,
        },
    }
}
