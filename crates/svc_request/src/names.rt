// Files that would be written over files that are read.

ghost use Rattle.std.specs.Prelude.{IsTrue};
ghost use Rattle.svc_request.specs.Names.{IsAmong, IsNameOf, IsOverItself, IsOverText, IsScriptOf, IsTableOf};
ghost use Rattle.svc_request.specs.Names.{IsTextOf};

use crate::files::Files;
use crate::request::{Assembly, Request, Schedule, Source};

impl Request<'_> {
    /// Whether a file that would be written is one that is read, or would be written twice, as far as `files` can tell
    /// from the names. Files of one name are the same.
    pub fn is_over_itself<F: Files>(&self, files: &F) -> bool
        ensures { IsOverItself self.now → IsTrue result }
    {
        match self {
            Request::Run(run) => match run.trace {
                Some(trace) => {
                    is_script(run.schedule, trace, files) || is_source(run.image, trace, files)
                }
                None => false,
            },
            Request::Find(explored, _, trace) => match *trace {
                Some(trace) => {
                    is_table(explored.names, trace, files)
                        || is_source(explored.image, trace, files)
                }
                None => false,
            },
            Request::Script(scripted) => match scripted.trace {
                Some(trace) => {
                    files.is_same(scripted.events, trace) || is_source(scripted.image, trace, files)
                }
                None => false,
            },
            Request::Check(traced, _, script) => match script {
                Some(script) => {
                    files.is_same(traced.trace, script) || is_source(traced.image, script, files)
                }
                None => false,
            },
            Request::Draw(traced, picture) => {
                files.is_same(traced.trace, picture.file)
                    || is_table(picture.names, picture.file, files)
                    || is_source(traced.image, picture.file, files)
            }
            Request::Export(traced, exported) => {
                files.is_same(traced.trace, exported.file)
                    || is_source(traced.image, exported.file, files)
            }
            Request::Assemble(assembly) => is_over_text(assembly, files),
            _ => false,
        }
    }
}

// Whether the image or the table of names would be written over a text, or both into one file, as far as `files` can
// tell.
fn is_over_text<F: Files>(assembly: &Assembly<'_>, files: &F) -> bool
    ensures { IsOverText assembly.now → IsTrue result }
{
    if is_text(assembly, assembly.image, files) {
        return true;
    }
    match assembly.names {
        Some(table) => files.is_same(table, assembly.image) || is_text(assembly, table, files),
        None => false,
    }
}

// Whether the file of this name is one of the texts, as far as `files` can tell.
fn is_text<F: Files>(assembly: &Assembly<'_>, name: &str, files: &F) -> bool
    ensures { IsTextOf name.now assembly.now → IsTrue result }
{
    files.is_same(assembly.text, name) || is_among(&assembly.others, name, files)
}

// Whether the file of this name is one of these, as far as `files` can tell.
fn is_among<F: Files>(names: &[&str], name: &str, files: &F) -> bool
    ensures { IsAmong name.now names.now → IsTrue result }
{
    for other in names {
        if files.is_same(other, name) {
            return true;
        }
    }
    false
}

// Whether the file of this name is the image's, as far as `files` can tell.
fn is_source<F: Files>(image: Source<'_>, name: &str, files: &F) -> bool
    ensures { IsNameOf name.now image.entry → IsTrue result }
{
    match image {
        Source::BuiltIn => false,
        Source::File(file) => files.is_same(file, name),
    }
}

// Whether the file of this name is the table of names, as far as `files` can tell.
fn is_table<F: Files>(names: Option<&str>, name: &str, files: &F) -> bool
    ensures { IsTableOf name.now names.entry → IsTrue result }
{
    match names {
        Some(table) => files.is_same(table, name),
        None => false,
    }
}

// Whether the file of this name is the script that comes before the schedule, as far as `files` can tell.
fn is_script<F: Files>(schedule: Option<Schedule<'_>>, name: &str, files: &F) -> bool
    ensures { IsScriptOf name.now schedule.entry → IsTrue result }
{
    match schedule {
        Some(schedule) => match schedule.after {
            Some(script) => files.is_same(script, name),
            None => false,
        },
        None => false,
    }
}
