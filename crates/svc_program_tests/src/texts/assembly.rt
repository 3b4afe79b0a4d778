// A text with one word more than an image may have, which is too long for a case.

use std::alloc::{AllocError, Global};
use svc_asm::assemble;

// Whether a text makes no image, and this is reported of it.
fn is_told(alloc: Global, text: &str, wanted: &str) -> bool {
    match assemble(alloc, text.as_bytes()) {
        Ok(_) => false,
        Err(error) => match format!(in alloc; "{error}") {
            Ok(told) => told.as_str() == wanted,
            Err(_) => false,
        },
    }
}

// A line of this many words 0 and one more.
fn words_line(alloc: Global, count: usize) -> Result<String, AllocError> {
    let mut line = String::new(alloc);
    line.push_str(".word 0")?;
    for _ in 0..count {
        line.push_str(",0")?;
    }
    Ok(line)
}

// Whether this is reported of such a line.
fn is_told_of_words(alloc: Global, count: usize, wanted: &str) -> bool {
    match words_line(alloc, count) {
        Ok(line) => is_told(alloc, line.as_str(), wanted),
        Err(_) => false,
    }
}

#[test]
fn a_word_too_many_is_told(rt: HostRuntime) {
    let wanted = "1:131079: found `0`, expected no more than 65536 words of text";
    assert!(rt; is_told_of_words(rt.alloc(), 65_536, wanted));
}
