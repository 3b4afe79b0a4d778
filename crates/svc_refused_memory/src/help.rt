//! The help, which is the parser's text: each subcommand explains its options. And too many words.

use crate::program::line;
use crate::samples::Samples;
use std::str;
use std::sync::Wait;
use std::thread::Threads;
use svc_command::execute;
use svc_library_calls::attempt::{Attempt, Refused, ready};

/// Makes the call of this name, if it is one of these.
pub fn attempt<R: Threads + Wait + Sync + AllocGlobal>(rt: &R, name: &str) -> Option<Attempt> {
    match name {
        "help_explains_each_option" => Some(explains_each_option(rt)),
        "each_help_has_an_example" => Some(has_an_example(rt)),
        "help_ends_with_the_faults" => Some(ends_with_the_faults(rt)),
        "ten_thousand_words" => Some(ten_thousand_words(rt)),
        _ => None,
    }
}

// What these words, which ask for help, print.
fn help<R: Threads + Wait + Sync + AllocGlobal>(
    rt: &R,
    words: &[&str],
) -> Result<Vec<u8>, Refused> {
    let alloc = rt.alloc();
    let words = ready(line(alloc, words))?;
    let mut out = Vec::new(alloc);
    let mut err = Vec::new(alloc);
    match execute(rt, alloc, &words, &mut Samples, &mut out, &mut err) {
        0 if err.is_empty() => Ok(out),
        _ => Err(Refused::Told),
    }
}

// A text has each of these parts.
fn has_all(text: &[u8], parts: &[&str]) -> bool {
    let Ok(text) = str::from_utf8(text) else {
        return false;
    };
    for part in parts {
        if !text.contains(*part) {
            return false;
        }
    }
    true
}

// The help of a subcommand has each of these parts.
fn explains<R: Threads + Wait + Sync + AllocGlobal>(
    rt: &R,
    subcommand: &str,
    parts: &[&str],
) -> Attempt {
    let text = help(rt, &["svcsim", subcommand, "--help"])?;
    Ok(has_all(&text, parts))
}

const OPTIONS: [&str; 12] = [
    "Usage: svcsim",
    "--units <N>",
    "[default: 4]",
    "--sets <N>",
    "[default: 16]",
    "--ways <N>",
    "[default: 2]",
    "--events <N>",
    "[default: 100000]",
    "--turns <N>",
    "[default: 1000000]",
    "--explain",
];

/// The help of each subcommand that opens a machine explains the numbers of its configuration.
fn explains_each_option<R: Threads + Wait + Sync + AllocGlobal>(rt: &R) -> Attempt {
    for subcommand in [
        "run", "explore", "script", "check", "profile", "show", "draw",
    ] {
        if !explains(rt, subcommand, &OPTIONS)? {
            return Ok(false);
        }
    }
    Ok(true)
}

const EXAMPLES: [(&str, &str); 11] = [
    ("run", "Example: svcsim run "),
    ("seq", "Example: svcsim seq "),
    ("depend", "Example: svcsim depend "),
    ("explore", "Example: svcsim explore "),
    ("script", "Example: svcsim script "),
    ("check", "Example: svcsim check "),
    ("profile", "Example: svcsim profile "),
    ("show", "Example: svcsim show "),
    ("draw", "Example: svcsim draw "),
    ("assemble", "Example: svcsim assemble "),
    ("list", "Example: svcsim list "),
];

/// The help of each subcommand has an example.
fn has_an_example<R: Threads + Wait + Sync + AllocGlobal>(rt: &R) -> Attempt {
    for (subcommand, example) in EXAMPLES {
        if !explains(rt, subcommand, &[example])? {
            return Ok(false);
        }
    }
    Ok(true)
}

const FAULTS: [&str; 8] = [
    "image fault 9 ",
    "config fault 5 ",
    "plain fault 1 ",
    "open fault 1 ",
    "run fault 3, 4 ",
    "report fault 4 row R column C",
    "script fault row R column C",
    "trace fault 3 at entry I",
];

// The last of them.
const FILE_FAULT: &[u8] = b"entries than --at or --from says, or memory was refused elsewhere\n";

/// The program's help ends with the faults.
fn ends_with_the_faults<R: Threads + Wait + Sync + AllocGlobal>(rt: &R) -> Attempt {
    let text = help(rt, &["svcsim", "--help"])?;
    Ok(has_all(&text, &FAULTS) && text.ends_with(FILE_FAULT))
}

/// Ten thousand words are too many, and nothing is done.
fn ten_thousand_words<R: Threads + Wait + Sync + AllocGlobal>(rt: &R) -> Attempt {
    let alloc = rt.alloc();
    let mut words = ready(line(alloc, &["svcsim", "seq"]))?;
    for _ in 0..10_000 {
        ready(words.push(ready(String::from_str(alloc, "image"))?))?;
    }
    let mut out = Vec::new(alloc);
    let mut err = Vec::new(alloc);
    let status = execute(rt, alloc, &words, &mut Samples, &mut out, &mut err);
    Ok(status == 1 && out.is_empty() && err.starts_with(b"error: "))
}
