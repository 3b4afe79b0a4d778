//! What calls answer, even if one of their requests for memory is refused. Which one is up to whoever runs this: `rt
//! try --fail-alloc N` refuses the Nth of all requests, and a line of standard input names a call and how many requests
//! are made before it. After a name alone memory is taken to be ample.
#![tactic(auto)]

mod call;
mod help;
mod program;
mod requests;
mod samples;
mod system;
mod wanted;

use call::seen;
use requests::refused_within;
use std::rt::Files;
use std::sync::Wait;
use std::thread::Threads;
use svc_library_calls::attempt::Seen;

/// More requests than are made before any call.
const AFTER: u32 = 2_000;

/// What the call that a line names does.
pub fn answer<R: Files + Threads + Wait + Sync + AllocGlobal>(rt: &R, line: &str) -> &'static str {
    let (name, before) = match line.split_once(' ') {
        Some((name, before)) => (name, before.parse::<u32>().ok()),
        None => (line, None),
    };
    match before {
        Some(before) => seen_after(rt, name, before).word(),
        None => seen(rt, name).word(),
    }
}

// What a call does after this many other requests for memory, if one of all requests is refused.
fn seen_after<R: Files + Threads + Wait + Sync + AllocGlobal>(
    rt: &R,
    name: &str,
    before: u32,
) -> Seen {
    if refused_within(rt.alloc(), before) {
        return Seen::Before;
    }
    match seen(rt, name) {
        Seen::Ample if !refused_within(rt.alloc(), AFTER) => Seen::Untold,
        other => other,
    }
}
