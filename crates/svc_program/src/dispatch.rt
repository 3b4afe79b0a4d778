//! Does what is asked for, over any files and streams.

ghost use Rattle.std.specs.Prelude.{◌≡◌, ◌⊎◌, Err, IfOk, IfErr, IfSome};
ghost use Rattle.svc_request.specs.declared.request.Request.TheVariants as request;
ghost use Rattle.svc_request.specs.Faults.{IsOutputFault};
ghost use Rattle.svc_request.specs.Names.{IsOverItself};
ghost use Rattle.svc_answer.specs.Requests.{IsAnswered, Shows, version_row};

use crate::assembly::{assemble, list};
use crate::depend::depend;
use crate::explore::explore;
use crate::find::find;
use crate::run::{run, run_alone};
use crate::script::script;
use crate::sequential::sequential;
use std::alloc::Global;
use std::io::Write;
use std::sync::Wait;
use std::thread::Threads;
use svc_replay::check::check;
use svc_replay::draw::draw;
use svc_replay::export::export;
use svc_replay::observe::observe;
use svc_replay::profile::profile;
use svc_replay::show::show;
use svc_request::{Fault, Files, Request, Run, VERSION};

/// Does what is asked for. It returns the exit status: 0 if the run reached the program's exit, a trace was sound, an
/// image was assembled or listed, an exploration was whole or found what was looked for, or help or the version was
/// asked for, and 2 otherwise.
///
/// Errors: the first fault, looked for in this order: a file that would be written over one that is read, the image,
/// the script or trace, the opening of the machine, the run, the output. Nothing is printed before a fault, unless it
/// is one of the output.
pub fn perform<R: Threads + Wait + Sync, F: Files, O: Write>(
    rt: &R,
    alloc: Global,
    request: Request<'_>,
    files: &mut F,
    out: &mut O,
) -> Result<u8, Fault>
    ensures answered { IsAnswered O.contents request.entry (F.held files.old) (F.held files.new) out.old out.new
        result }

    // Reads or writes nothing if that would lose a file.
    ensures apart { IsOverItself request.entry → (result ≡ Err Fault.File) × (F.held files.new ≡ F.held files.old)
        × (out.new ≡ out.old) }
{
    if request.is_over_itself(files) {
        return Err(Fault::File);
    }
    match run_of(&request) {
        Some(asked) => run(rt, alloc, asked, files, out),
        None => dispatch(alloc, request, files, out),
    }
}

// The run that is asked for, if one is.
fn run_of<'a>(asked: &Request<'a>) -> Option<Run<'a>>
    ensures { IfSome result (λ run. asked.now ≡ request.Run run) }
{
    match asked {
        Request::Run(run) => Some(*run),
        _ => None,
    }
}

/// Does what is asked for where there are no threads: as [`perform`], but a run without a schedule is run fault 2.
///
/// Errors: as [`perform`].
pub fn perform_alone<F: Files, O: Write>(
    alloc: Global,
    request: Request<'_>,
    files: &mut F,
    out: &mut O,
) -> Result<u8, Fault>
    ensures answered { IsAnswered O.contents request.entry (F.held files.old) (F.held files.new) out.old out.new
        result }
    ensures apart { IsOverItself request.entry → (result ≡ Err Fault.File) × (F.held files.new ≡ F.held files.old)
        × (out.new ≡ out.old) }
{
    let is_over = request.is_over_itself(files);
    if is_over {
        return Err(Fault::File);
    }
    dispatch(alloc, request, files, out)
}

// Does what is asked for without threads, with one function per subcommand.
fn dispatch<F: Files, O: Write>(
    alloc: Global,
    asked: Request<'_>,
    files: &mut F,
    out: &mut O,
) -> Result<u8, Fault>
    requires apart { IsOverItself asked → ⊥ }
    ensures { IsAnswered O.contents asked.entry (F.held files.old) (F.held files.new) out.old out.new result }
{
    match asked {
        Request::Help(text) => show_help(&text, out),
        Request::Version => show_version(out),
        Request::Run(run) => run_alone(alloc, run, files, out),
        Request::Sequential(tasks) => sequential(alloc, tasks, files, out),
        Request::Depend(depended) => depend(alloc, depended, files, out),
        Request::Explore(explored) => explore(alloc, explored, files, out),
        Request::Find(explored, sought, trace) => {
            find(alloc, explored, sought, trace, files, out)
        }
        Request::Observe(traced, names) => observe(alloc, traced, names, files, out),
        Request::Script(scripted) => script(alloc, scripted, files, out),
        Request::Check(traced, compared, script) => {
            check(alloc, traced, compared, script, files, out)
        }
        Request::Profile(traced, to, by, names) => profile(
            alloc, traced, to, by, names, files, out,
        ),
        Request::Show(traced, shown) => show(alloc, traced, shown, files, out),
        Request::Draw(traced, picture) => draw(alloc, traced, picture, files, out),
        Request::Export(traced, exported) => export(alloc, traced, exported, files, out),
        Request::Assemble(assembly) => assemble(alloc, &assembly, files, out),
        Request::List(image, names) => list(alloc, image, names, files, out),
    }
}

// Prints the help.
fn show_help<O: Write>(text: &str, out: &mut O) -> Result<u8, Fault>
    ensures shown { IfOk result (Shows text.now (O.contents out.old) (O.contents out.new)) }
    ensures fault { IfErr result IsOutputFault }
{
    out.write_all(text.as_bytes())?;
    out.flush()?;
    Ok(0)
}

// Prints the program's name and version.
fn show_version<O: Write>(out: &mut O) -> Result<u8, Fault>
    ensures shown { IfOk result (Shows version_row (O.contents out.old) (O.contents out.new)) }
    ensures fault { IfErr result IsOutputFault }
{
    writeln!(out, "svcsim {VERSION}")?;
    out.flush()?;
    Ok(0)
}
