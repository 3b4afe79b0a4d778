//! `svcsim`: the program over the words of its command line, the disk and the standard streams.
#![tactic(auto)]

use std::process::ExitCode;
use svc_command::{Disk, execute, words_of};
use svc_program::tell;

fn main(rt: HostRuntime) -> ExitCode {
    let mut err = rt.stderr();
    let status = match words_of(&rt) {
        Ok(words) => execute(
            &rt,
            rt.alloc(),
            &words,
            &mut Disk { rt: &rt },
            &mut rt.stdout(),
            &mut err,
        ),
        Err(fault) => tell(&fault, &mut err),
    };
    ExitCode::from(status)
}
