// Why the program gives up, and the words in which it says so.

ghost use Rattle.std.specs.Prelude.{◌≡◌};
ghost use Rattle.svc_request.specs.declared.faults.Fault.TheVariants.{File, Image, Open, Output, Run, Trace};
ghost use Rattle.svc_request.specs.Faults.{told_as, trace_fault_number};

use crate::files::FileFault;
use std::alloc::{AllocError, AllocFailed};
use std::io;
use svc_base::{ConfigError, OpenError};
use svc_history::{TraceFault, TraceFaultKind};
use svc_image::ImageError;
use svc_plain::PlainError;
use svc_report::ReportError;
use svc_threads::RunError;
use thiserror::Error;

/// Why the program gives up.
#[derive(Debug, Drop, Error)]
pub enum Fault {
    /// The command line isn't understood; the text of its parser says why.
    #[error("{0}")]
    CommandLine(String),
    /// A number of the configuration is out of its range.
    #[error("config fault {}", .0.number())]
    Config(#[from] ConfigError),
    /// The bytes of the image's file are not an image.
    #[error("image fault {}", .0.number())]
    Image(ImageError),
    /// A script has a bad record: the first one, counted from 1, and its first bad column.
    #[error("script fault row {row} column {column}")]
    BadScript { row: u64, column: u8 },
    /// A trace has a bad record: the first one, counted from 1, and its first bad column.
    #[error("report fault 4 row {row} column {column}")]
    BadTrace { row: u64, column: u8 },
    /// A table of names has a bad record: the first one, counted from 1, and its first bad column.
    #[error("names fault row {row} column {column}")]
    BadNames { row: u64, column: u8 },
    /// A text makes no image: its name, and where and why.
    #[error("{0}")]
    Assembly(String),
    /// The plain runner gave up.
    #[error("plain fault {}", .0.number())]
    Plain(#[from] PlainError),
    /// The machine couldn't be opened.
    #[error("open fault {}", .0.number())]
    Open(OpenError),
    /// The unit threads gave no outcome.
    #[error("run fault {}", .0.number())]
    Run(RunError),
    /// A trace isn't a history of the machine: its first faulty entry, counted from 0.
    #[error("trace fault {} at entry {}", number_of(.0.kind), .0.index)]
    Trace(TraceFault),
    /// An exploration met a limit before it found what was looked for.
    #[error("explore limit")]
    Limit,
    /// A text couldn't be read or written.
    #[error("report fault {}", .0.number())]
    Report(ReportError),
    /// A line of the program's own couldn't be printed.
    #[error("file fault")]
    Output,
    /// A file failed, or memory ran out and no other fault says so.
    #[error("file fault")]
    File,
}

// The number by which the program reports a faulty entry.
fn number_of(kind: TraceFaultKind) -> u8
    ensures { result ≡ trace_fault_number kind }
{
    match kind {
        TraceFaultKind::Memory => 1,
        TraceFaultKind::Refused => 2,
        TraceFaultKind::Differs => 3,
    }
}

impl From<ImageError> for Fault {
    ghost from_gives = { λ given fault. fault ≡ Image given };

    fn from(given: ImageError) -> Fault {
        Fault::Image(given)
    }
}

impl From<OpenError> for Fault {
    ghost from_gives = { λ given fault. fault ≡ Open given };

    fn from(given: OpenError) -> Fault {
        Fault::Open(given)
    }
}

impl From<RunError> for Fault {
    ghost from_gives = { λ given fault. fault ≡ Run given };

    fn from(given: RunError) -> Fault {
        Fault::Run(given)
    }
}

impl From<TraceFault> for Fault {
    ghost from_gives = { λ given fault. fault ≡ Trace given };

    fn from(given: TraceFault) -> Fault {
        Fault::Trace(given)
    }
}

impl From<FileFault> for Fault {
    ghost from_gives = { λ _ fault. fault ≡ File };

    fn from(_fault: FileFault) -> Fault {
        Fault::File
    }
}

impl From<ReportError> for Fault {
    ghost from_gives = { λ error fault. fault ≡ told_as error };

    fn from(error: ReportError) -> Fault {
        match error {
            ReportError::Row { row, column } => Fault::BadTrace { row, column },
            other => Fault::Report(other),
        }
    }
}

// Only lines of the program's own are written directly.
impl From<io::Error> for Fault {
    ghost from_gives = { λ _ fault. fault ≡ Output };

    fn from(_error: io::Error) -> Fault {
        Fault::Output
    }
}

impl From<AllocError> for Fault {
    ghost from_gives = { λ _ fault. fault ≡ File };

    fn from(_error: AllocError) -> Fault {
        Fault::File
    }
}

impl<T: Drop> From<AllocFailed<T>> for Fault {
    ghost from_gives = { λ _ fault. fault ≡ File };

    fn from(_error: AllocFailed<T>) -> Fault {
        Fault::File
    }
}

// The exit status of a fault.
const FAULT_STATUS: u8 = 1;

/// Reports a fault in one line, or in the text of the command line's parser. It returns the exit status. A failure to
/// write to `err` is ignored: there is nowhere else to report it.
pub fn tell<E: io::Write>(fault: &Fault, err: &mut E) -> u8
    ensures { result ≡ 1 }
{
    let _told = match fault {
        Fault::CommandLine(text) => write!(err, "{text}"),
        other => writeln!(err, "svcsim: {other}"),
    };
    FAULT_STATUS
}
