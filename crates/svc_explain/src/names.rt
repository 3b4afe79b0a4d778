// The files of a request.

ghost use Rattle.std.specs.Prelude.{◌≡◌, option_map};
ghost use Rattle.svc_request.specs.Names.{also_written_by, written_by};
ghost use Rattle.svc_explain.specs.Explanations.{name_of, others_read_by, read_by, script_of};

use svc_request::{Request, Schedule, Source};

// The name of an image's file.
fn name_of(image: Source<'_>) -> Option<&str>
    ensures { result ≡ name_of image.entry }
{
    match image {
        Source::BuiltIn => None,
        Source::File(name) => Some(name),
    }
}

// The script that comes before a schedule.
fn script_of(schedule: Option<Schedule<'_>>) -> Option<&str>
    ensures { result ≡ script_of schedule.entry }
{
    match schedule {
        None => None,
        Some(schedule) => schedule.after,
    }
}

/// The files that a request reads, in this order; of texts the first.
pub(crate) fn read_by<'a>(request: &Request<'a>) -> [Option<&'a str>; 3]
    ensures { result ≡ read_by request.now }
{
    match request {
        Request::Run(run) => [name_of(run.image), script_of(run.schedule), None],
        Request::Sequential(tasks) => [name_of(tasks.image), None, None],
        Request::Depend(depended) => [name_of(depended.image), depended.names, None],
        Request::Explore(explored) | Request::Find(explored, _, _) => {
            [name_of(explored.image), explored.names, None]
        }
        Request::Script(scripted) => [name_of(scripted.image), Some(scripted.events), None],
        Request::Check(traced, _, _) | Request::Export(traced, _) => {
            [name_of(traced.image), Some(traced.trace), None]
        }
        Request::Observe(traced, names) | Request::Profile(traced, _, _, names) => {
            [name_of(traced.image), Some(traced.trace), *names]
        }
        Request::Show(traced, shown) => [name_of(traced.image), Some(traced.trace), shown.names],
        Request::Draw(traced, picture) => {
            [name_of(traced.image), Some(traced.trace), picture.names]
        }
        Request::Assemble(assembly) => [Some(assembly.text), None, None],
        Request::List(image, names) => [name_of(*image), *names, None],
        Request::Help(_) | Request::Version => [None, None, None],
    }
}

/// The texts that a request reads behind the first one.
pub(crate) fn others_read_by<'r, 'a>(request: &'r Request<'a>) -> &'r [&'a str]
    ensures { result.now ≡ others_read_by request.now }
{
    match request {
        Request::Assemble(assembly) => assembly.others.as_slice(),
        _ => &[],
    }
}

/// The file that a request writes, or the first of two, if it writes one.
pub(crate) fn written_by<'a>(request: &Request<'a>) -> Option<&'a str>
    ensures { option_map (λ name. name.now) result ≡ written_by request.now }
{
    match request {
        Request::Run(run) => run.trace,
        Request::Find(_, _, trace) => *trace,
        Request::Script(scripted) => scripted.trace,
        Request::Check(_, _, script) => *script,
        Request::Draw(_, picture) => Some(picture.file),
        Request::Export(_, exported) => Some(exported.file),
        Request::Assemble(assembly) => Some(assembly.image),
        Request::Sequential(_) | Request::Depend(_) | Request::Explore(_) => None,
        Request::Observe(_, _) | Request::Profile(_, _, _, _) | Request::Show(_, _) => None,
        Request::List(_, _) | Request::Help(_) | Request::Version => None,
    }
}

/// The second file that a request writes, if it writes two.
pub(crate) fn also_written_by<'a>(request: &Request<'a>) -> Option<&'a str>
    ensures { option_map (λ name. name.now) result ≡ also_written_by request.now }
{
    match request {
        Request::Assemble(assembly) => assembly.names,
        _ => None,
    }
}
