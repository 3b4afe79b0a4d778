//! The program over any words, files and streams.

ghost use Rattle.std.specs.Prelude.{◌≡◌, ◌≢◌, ◌⊎◌, ◌≤◌, IfOk, IfErr, OnOk};
ghost use Rattle.svc_answer.specs.Requests.{Does, IsQuiet};
ghost use Rattle.svc_command.specs.Asked.{KeepsAsked, MayAsk};
ghost use Rattle.svc_command.specs.Line.{texts};
ghost use Rattle.svc_command.specs.Reasons.{IsReasonFor, TellsReason};

use crate::line::has_word;
use crate::reading::request_of;
use std::alloc::Global;
use std::io::Write;
use std::sync::Wait;
use std::thread::Threads;
use svc_explain::{explain, explain_alone};
use svc_program::{Fault, Files, Request, perform, perform_alone, tell};

/// Does what the words of a command line ask for; the first word is the program's name. It answers the exit status: 0
/// if the run reached the program's exit, a trace was sound, or help or the version was asked for; 1 at a fault, which
/// is printed on `err`, with what explains it where a word is `--explain`; and 2 at any other ending. The fault is the
/// first, looked for in this order: the words, the configuration, the image, the script or trace, the opening of the
/// machine, the run, the output.
pub fn execute<R: Threads + Wait + Sync, F: Files, O: Write, E: Write>(
    rt: &R,
    alloc: Global,
    words: &[String],
    files: &mut F,
    out: &mut O,
    err: &mut E,
) -> u8
    ensures done { result ≢ 1 → (request : Request) × MayAsk (texts words.now) request
        × Does request (F.held files.old) (F.held files.new) (O.contents out.old) (O.contents out.new) result }
    ensures status { result ≤ 2 }
    ensures kept { KeepsAsked (texts words.now) (F.held files.old) (F.held files.new) }
{
    match answer(rt, alloc, words, files, out) {
        Ok(status) => status,
        Err(fault) => give_up(alloc, words, &fault, files, err),
    }
}

/// Does what the words of a command line ask for where there are no threads: as [`execute`], but a run without a
/// schedule is run fault 2.
pub fn execute_alone<F: Files, O: Write, E: Write>(
    alloc: Global,
    words: &[String],
    files: &mut F,
    out: &mut O,
    err: &mut E,
) -> u8
    ensures done { result ≢ 1 → (request : Request) × MayAsk (texts words.now) request
        × Does request (F.held files.old) (F.held files.new) (O.contents out.old) (O.contents out.new) result }
    ensures status { result ≤ 2 }
    ensures kept { KeepsAsked (texts words.now) (F.held files.old) (F.held files.new) }
{
    match answer_alone(alloc, words, files, out) {
        Ok(status) => status,
        Err(why) => give_up(alloc, words, &why, files, err),
    }
}

// Does what the words ask for where there are no threads.
fn answer_alone<F: Files, O: Write>(
    alloc: Global,
    words: &[String],
    files: &mut F,
    out: &mut O,
) -> Result<u8, Fault>
    ensures done { IfOk result (λ status. (request : Request) × MayAsk (texts words.now) request
        × Does request (F.held files.old) (F.held files.new) (O.contents out.old) (O.contents out.new) status) }
    ensures silent { IfErr result (IsQuiet out.old out.new) }
    ensures kept { KeepsAsked (texts words.now) (F.held files.old) (F.held files.new) }
{
    let request = request_of(alloc, words)?;
    perform_alone(alloc, request, files, out)
}

// Does what the words ask for.
fn answer<R: Threads + Wait + Sync, F: Files, O: Write>(
    rt: &R,
    alloc: Global,
    words: &[String],
    files: &mut F,
    out: &mut O,
) -> Result<u8, Fault>
    ensures done { IfOk result (λ status. (request : Request) × MayAsk (texts words.now) request
        × Does request (F.held files.old) (F.held files.new) (O.contents out.old) (O.contents out.new) status) }
    ensures silent { IfErr result (IsQuiet out.old out.new) }
    ensures kept { KeepsAsked (texts words.now) (F.held files.old) (F.held files.new) }
{
    let request = request_of(alloc, words)?;
    perform(rt, alloc, request, files, out)
}

// Reports a fault in one line, and what explains it where a word asks for that. It returns the exit status. What the
// reasons are looked up in may have changed since, and may fail as it did then: nothing is told then.
fn give_up<F: Files, E: Write>(
    alloc: Global,
    words: &[String],
    fault: &Fault,
    files: &F,
    err: &mut E,
) -> u8
    ensures { result ≡ 1 }
{
    let status = tell(fault, err);
    if has_word(words, "--explain") {
        let _told = tell_why(alloc, words, fault, files, err);
    }
    status
}

// Prints what explains a fault of these words.
fn tell_why<F: Files, E: Write>(
    alloc: Global,
    words: &[String],
    fault: &Fault,
    files: &F,
    err: &mut E,
) -> Result<(), Fault>
    ensures { OnOk result (TellsReason (texts words.now) (F.held files.now) fault.now (E.contents err.old)
        (E.contents err.new)) }
{
    let text = why(alloc, words, fault, files)?;
    err.write_all(&text)?;
    Ok(())
}

// What explains a fault of these words.
fn why<F: Files>(
    alloc: Global,
    words: &[String],
    fault: &Fault,
    files: &F,
) -> Result<Vec<u8>, Fault>
    ensures { IfOk result (λ text. IsReasonFor (texts words.now) (F.held files.now) fault.now text.items) }
{
    match request_of(alloc, words) {
        Ok(request) => explain(alloc, &request, fault, files),
        Err(_) => Ok(explain_alone(alloc, fault)?),
    }
}
