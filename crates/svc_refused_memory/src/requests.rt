//! Requests for memory that serve nothing, so that a later one is the one refused.

use std::alloc::Global;

/// Makes this many requests for memory, one after another, up to one that is refused. It says whether one was.
pub fn refused_within(alloc: Global, requests: u32) -> bool {
    for number in 0..requests {
        if Box::new(alloc, number).is_err() {
            return true;
        }
    }
    false
}
