//! The words of the command line, as the system gives them.

ghost use Rattle.std.specs.Prelude.{◌≡◌, IfErr};
ghost use Rattle.svc_request.specs.declared.faults.Fault.TheVariants.{File};

use std::env;
use std::rt::Env;
use svc_program::Fault;

/// The words of the command line, the program's name first.
///
/// Errors: [`Fault::File`], if a word isn't UTF-8 or memory was refused.
pub fn words_of<R: Env + AllocGlobal>(rt: &R) -> Result<Vec<String>, Fault>
    ensures { IfErr result (λ fault. fault ≡ File) }
{
    let Ok(given) = env::args(rt) else {
        return Err(Fault::File);
    };
    let mut words = Vec::new(rt.alloc());
    for word in given {
        words.push(word)?;
    }
    Ok(words)
}
