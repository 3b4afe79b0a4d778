// What cases over text can't say: streams that fail.

use crate::texts::failing::{FailingReader, FailingWriter};
use crate::texts::no_files::NoFiles;
use std::io::{self, ErrorKind, Write};
use std::sync::Wait;
use std::thread::Threads;
use svc_base::Config;
use svc_program::{
    Assembly, Compared, Extras, Fault, FileFault, Files, Request, Run, Scripted, Shown, Source,
    Table, Tasks, Traced, perform, tell,
};
use svc_report::ReportError;
use svc_samples::P;

// A writer that takes some bytes, and then fails.
#[derive(Drop)]
struct Narrow {
    room: usize,
    flushes: bool,
}

impl Write for Narrow {
    fn write(&mut self, buf: &[u8]) -> io::Result<usize> {
        let taken = self.room.min(buf.len());
        if taken < buf.len() && taken == 0 {
            return Err(io::Error::from(ErrorKind::BrokenPipe));
        }
        self.room -= taken;
        Ok(taken)
    }

    fn flush(&mut self) -> io::Result<()> {
        if self.flushes {
            Ok(())
        } else {
            Err(io::Error::from(ErrorKind::BrokenPipe))
        }
    }
}

// The run of the built-in image, by one unit.
fn built_in<'a>() -> Option<Request<'a>> {
    let config = Config::new(1, 16, 2, 1000, 1000).ok()?;
    Some(Request::Run(Run {
        image: Source::BuiltIn,
        config,
        schedule: None,
        trace: None,
        row: None,
    }))
}

// The status of an answer, whose fault, if any, is reported.
fn status_of<E: Write>(answer: Result<u8, Fault>, err: &mut E) -> u8 {
    match answer {
        Ok(status) => status,
        Err(fault) => tell(&fault, err),
    }
}

// Whether that run over such a writer ends with this status, and reports this.
fn ends_so<R: Threads + Wait + Sync + AllocGlobal>(
    rt: &R,
    mut out: Narrow,
    wanted: u8,
    told: &str,
) -> Option<bool> {
    let request = built_in()?;
    let mut err = Vec::new(rt.alloc());
    let answer = perform(rt, rt.alloc(), request, &mut NoFiles, &mut out);
    let status = status_of(answer, &mut err);
    Some(status == wanted && err.as_slice() == told.as_bytes())
}

// For how many bytes there is room, whether the writer can be flushed, and the status and the report with which that
// ends.
const ENDS: [(usize, bool, u8, &str); 4] = [
    (0, true, 1, "svcsim: report fault 2\n"),
    (7, true, 1, "svcsim: report fault 2\n"),
    (1000, false, 1, "svcsim: report fault 2\n"),
    (1000, true, 0, ""),
];

#[test]
fn output_that_fails_is_told(rt: HostRuntime) {
    for (room, flushes, status, told) in ENDS {
        let ends_so = ends_so(&rt, Narrow { room, flushes }, status, told);
        assert!(rt; ends_so == Some(true), "room {room}");
    }
}

// Two files: a script of three events, the last of which is refused, and a trace of an assignment and a store.
#[derive(Drop)]
struct TwoFiles;

impl Files for TwoFiles {
    type Reader = &'static [u8];

    fn open(&self, name: &str) -> Result<&'static [u8], FileFault> {
        let text = match name {
            "events" => "kind,unit,arg\nassign,0,0\nsubmit,0,63\ncommit,0,\n",
            "trace" => "kind,unit,arg,local,ask,reply,addr,word,served,from,cause,first,squashed\n\
                assign,0,0,,,assigned,,0,,,,,\nsubmit,0,,2,1,stored,0,5,,,,,\n",
            _ => return Err(FileFault),
        };
        Ok(text.as_bytes())
    }

    fn save(&mut self, _name: &str, _bytes: &[u8]) -> Result<(), FileFault> {
        Err(FileFault)
    }

    fn is_same(&self, one: &str, other: &str) -> bool {
        one == other
    }
}

// A request that prints each kind of text.
#[derive(Clone, Copy)]
enum Printing {
    Summary,
    Script,
    Check,
    Profile,
    Tasks,
    Show,
    List,
    Version,
}

const KINDS: [Printing; 8] = [
    Printing::Summary,
    Printing::Script,
    Printing::Check,
    Printing::Profile,
    Printing::Tasks,
    Printing::Show,
    Printing::List,
    Printing::Version,
];

// A show of all entries, with nothing beside its rows.
const SHOWN: Shown<'static> = Shown {
    at: None,
    extras: Extras {
        detail: false,
        moves: false,
        memory: None,
    },
    names: None,
};

fn request_of<'a>(kind: Printing, config: Config) -> Request<'a> {
    let image = Source::BuiltIn;
    let traced = Traced {
        image,
        config,
        trace: "trace",
    };
    match kind {
        Printing::Summary => Request::Sequential(Tasks { image, most: 1 }),
        Printing::Script => Request::Script(Scripted {
            image,
            config,
            events: "events",
            trace: None,
        }),
        Printing::Check => Request::Check(traced, Compared::All, None),
        Printing::Profile => Request::Profile(traced, None, None, None),
        Printing::Tasks => Request::Profile(traced, None, Some(Table::Tasks), None),
        Printing::Show => Request::Show(traced, SHOWN),
        Printing::List => Request::List(image, None),
        Printing::Version => Request::Version,
    }
}

// Does a request over a writer, and answers what is reported.
fn print<R: Threads + Wait + Sync + AllocGlobal, O: Write>(
    rt: &R,
    kind: Printing,
    out: &mut O,
) -> Option<Result<u8, Fault>> {
    let config = Config::new(1, 16, 2, 10, 1).ok()?;
    let request = request_of(kind, config);
    let mut files = TwoFiles;
    Some(perform(rt, rt.alloc(), request, &mut files, out))
}

// The whole text that is printed.
fn whole<R: Threads + Wait + Sync + AllocGlobal>(rt: &R, kind: Printing) -> Option<Vec<u8>> {
    let mut text = Vec::new(rt.alloc());
    match print(rt, kind, &mut text) {
        Some(Ok(_)) => Some(text),
        _ => None,
    }
}

// The rows of the script's two accepted events.
const ACCEPTED: &str = "assign,0,0,,,assigned,,0,,,,,\nsubmit,0,,2,1,stored,0,5,,,,,\n";

// The line of its refused one.
const REFUSED: &str = "refused,12\n";

// Whether the byte at this place of a kind's text belongs to a line of the program's own: that of a check, of the
// version or of a refused event.
fn is_of_a_line(kind: Printing, place: usize) -> bool {
    match kind {
        Printing::Check | Printing::Version => true,
        Printing::Script => place >= ACCEPTED.len() && place < ACCEPTED.len() + REFUSED.len(),
        _ => false,
    }
}

// Whether that fault of output is reported: as a file fault if it is in a line of the program's own.
fn is_told(answer: Option<Result<u8, Fault>>, is_line: bool) -> bool {
    match answer {
        Some(Err(Fault::Output)) => is_line,
        Some(Err(Fault::Report(ReportError::Write))) => !is_line,
        _ => false,
    }
}

// Whether the failure of a writer after this many bytes of the whole text is reported, and nothing follows it.
fn failure_is_told<R: Threads + Wait + Sync + AllocGlobal>(
    rt: &R,
    kind: Printing,
    whole: &[u8],
    left: usize,
) -> bool {
    let mut out = FailingWriter::after(whole, left);
    let answer = print(rt, kind, &mut out);
    is_told(answer, is_of_a_line(kind, left)) && out.is_broken()
}

// The same for each number of bytes before the failure.
fn failures_are_told<R: Threads + Wait + Sync + AllocGlobal>(rt: &R, kind: Printing) -> bool {
    match whole(rt, kind) {
        Some(whole) => {
            let mut told = !whole.is_empty();
            for left in 0..whole.len() {
                told &= failure_is_told(rt, kind, &whole, left);
            }
            told
        }
        None => false,
    }
}

#[test]
fn output_that_fails_once_is_told(rt: HostRuntime) {
    for kind in KINDS {
        assert!(rt; failures_are_told(&rt, kind));
    }
}

// A writer that takes all bytes, and can't be flushed.
#[derive(Drop)]
struct Unflushed;

impl Write for Unflushed {
    fn write(&mut self, buf: &[u8]) -> io::Result<usize> {
        Ok(buf.len())
    }

    fn flush(&mut self) -> io::Result<()> {
        Err(io::Error::from(ErrorKind::BrokenPipe))
    }
}

// Whether that is reported.
fn flush_is_told<R: Threads + Wait + Sync + AllocGlobal>(rt: &R, kind: Printing) -> bool {
    let answer = print(rt, kind, &mut Unflushed);
    is_told(answer, matches!(kind, Printing::Check | Printing::Version))
}

#[test]
fn output_that_is_not_flushed_is_told(rt: HostRuntime) {
    for kind in KINDS {
        assert!(rt; flush_is_told(&rt, kind));
    }
}

static IMAGE: [u8; 200] = P;

const TEXT: &[u8] = b".data\n";

// Files that fail once while they are read, after this many bytes.
#[derive(Drop)]
struct FailingFiles {
    left: usize,
}

impl Files for FailingFiles {
    type Reader = FailingReader<'static>;

    fn open(&self, name: &str) -> Result<FailingReader<'static>, FileFault> {
        match name {
            "image" => Ok(FailingReader::after(&IMAGE, self.left)),
            "text" => Ok(FailingReader::after(TEXT, self.left)),
            _ => Err(FileFault),
        }
    }

    fn save(&mut self, _name: &str, _bytes: &[u8]) -> Result<(), FileFault> {
        Ok(())
    }

    fn is_same(&self, one: &str, other: &str) -> bool {
        one == other
    }
}

// Whether a request reports a fault of its file, which fails after this many bytes.
fn file_fails<R: Threads + Wait + Sync + AllocGlobal>(
    rt: &R,
    request: Request<'_>,
    left: usize,
) -> bool {
    let mut files = FailingFiles { left };
    let mut out = Vec::new(rt.alloc());
    let answer = perform(rt, rt.alloc(), request, &mut files, &mut out);
    matches!(answer, Err(Fault::File)) && out.is_empty()
}

#[test]
fn an_image_over_a_reader_that_fails(rt: HostRuntime) {
    for left in 0..IMAGE.len() + 1 {
        let image = Source::File("image");
        assert!(rt; file_fails(&rt, Request::Sequential(Tasks { image, most: 1 }), left));
    }
}

#[test]
fn a_program_text_over_a_reader_that_fails(rt: HostRuntime) {
    for left in 0..TEXT.len() + 1 {
        let assembly = Assembly {
            text: "text",
            others: Vec::new(rt.alloc()),
            image: "saved",
            names: None,
        };
        assert!(rt; file_fails(&rt, Request::Assemble(assembly), left));
    }
}
