//! The program, by its words and by what is asked of it, over files in memory.

ghost use Rattle.std.specs.Prelude.{◌≡◌, nat_eq, true, Ok, IfErr};
ghost use Rattle.std.specs.List.{starts_with};

use crate::samples::Samples;
use crate::wanted::{
    CHECK, DEPEND, DEPEND_AS_GRAPH, DEPEND_BY_PAIR, DEPEND_BY_TASK, DEPEND_BY_WORD, DEPEND_NAMED,
    EXPLORE, FIND, LIST, LIST_NAMED, PROFILE, PROFILE_BY_PAIR, PROFILE_BY_PC, PROFILE_BY_SUPPLIER,
    PROFILE_BY_TASK, PROFILE_BY_UNIT, PROFILE_BY_WORD, PROFILE_NAMED, PROFILE_ROW, RUN, RUN_ROW,
    SCHEDULE, SCHEDULE_AFTER, SCRIPT, SEQ, SHOW, SHOW_AT, SHOW_IN_DETAIL, SHOW_NAMED,
};
use std::alloc::{AllocError, Global};
use std::sync::Wait;
use std::thread::Threads;
use svc_base::Config;
use svc_base::limits::MAX_BURST_TURNS;
use svc_command::execute;
use svc_library_calls::attempt::{Attempt, Refused, ready};
use svc_program::{
    Assembly, Choice, Compared, Depended, Explored, Exported, Extras, Format, NeedsTable, Order,
    Picture, Request, Run, Schedule, Scripted, Shown, Source, Span, Style, Table, TableRow, Traced,
    Values, View, perform, tell,
};

/// Makes the call of this name, if it is one of these.
pub fn attempt<R: Threads + Wait + Sync + AllocGlobal>(rt: &R, name: &str) -> Option<Attempt> {
    attempt_image(rt, name).or(attempt_trace(rt, name))
}

// The calls that read no trace.
fn attempt_image<R: Threads + Wait + Sync + AllocGlobal>(rt: &R, name: &str) -> Option<Attempt> {
    match name {
        "seq" => Some(seq(rt)),
        "depend" => Some(depend(rt, None, None, DEPEND)),
        "depend_by_task" => Some(depend(rt, Some(NeedsTable::Tasks), None, DEPEND_BY_TASK)),
        "depend_by_word" => Some(depend(rt, Some(NeedsTable::Words), None, DEPEND_BY_WORD)),
        "depend_by_pair" => Some(depend(rt, Some(NeedsTable::Pairs), None, DEPEND_BY_PAIR)),
        "depend_as_graph" => Some(depend(rt, Some(NeedsTable::Graph), None, DEPEND_AS_GRAPH)),
        "depend_named" => Some(depend(rt, Some(NeedsTable::Graph), NAMED, DEPEND_NAMED)),
        "explore" => Some(explore(rt)),
        "find_line" => Some(find_line(rt)),
        "script" => Some(script(rt, None)),
        "script_saved" => Some(script(rt, Some("saved"))),
        "script_line" => Some(script_line(rt)),
        "run" => Some(run(rt)),
        "schedule" => Some(schedule(rt, None, Some("saved"), None, SCHEDULE)),
        "schedule_after" => Some(schedule(rt, Some("events"), None, None, SCHEDULE_AFTER)),
        "run_row" => Some(schedule(rt, None, None, Some(HEADED), RUN_ROW)),
        "assemble" => Some(assemble(rt, None)),
        "assemble_named" => Some(assemble(rt, Some("table"))),
        "list" => Some(list(rt, None, LIST)),
        "list_named" => Some(list(rt, NAMED, LIST_NAMED)),
        _ => None,
    }
}

// The calls that read one.
fn attempt_trace<R: Threads + Wait + Sync + AllocGlobal>(rt: &R, name: &str) -> Option<Attempt> {
    match name {
        "check" => Some(check(rt, Compared::All, None)),
        "check_saved" => Some(check(rt, Compared::All, Some("saved"))),
        "check_but_suppliers" => Some(check(rt, Compared::ButSuppliers, None)),
        "profile" => Some(profile(rt, None, None, PROFILE)),
        "profile_by_task" => Some(profile(rt, Some(Table::Tasks), None, PROFILE_BY_TASK)),
        "profile_by_unit" => Some(profile(rt, Some(Table::Units), None, PROFILE_BY_UNIT)),
        "profile_by_word" => Some(profile(rt, Some(Table::Words), None, PROFILE_BY_WORD)),
        "profile_by_pair" => Some(profile(rt, Some(Table::Pairs), None, PROFILE_BY_PAIR)),
        "profile_by_supplier" => Some(profile(
            rt,
            Some(Table::Suppliers),
            None,
            PROFILE_BY_SUPPLIER,
        )),
        "profile_by_pc" => Some(profile(rt, Some(Table::Instructions), None, PROFILE_BY_PC)),
        "profile_row" => Some(profile(rt, Some(Table::Row(HEADED)), None, PROFILE_ROW)),
        "profile_named" => Some(profile(rt, Some(Table::Words), NAMED, PROFILE_NAMED)),
        "show" => Some(show(rt, None, PLAIN, None, SHOW)),
        "show_at" => Some(show(rt, Some(4), PLAIN, None, SHOW_AT)),
        "show_named" => Some(show(rt, Some(4), PLAIN, NAMED, SHOW_NAMED)),
        "show_in_detail" => Some(show(rt, Some(4), DETAILED, None, SHOW_IN_DETAIL)),
        "draw" => Some(draw(rt)),
        "export_chrome" => Some(export(rt, Format::Chrome)),
        "export_vcd" => Some(export(rt, Format::Vcd)),
        _ => None,
    }
}

// A show with nothing beside its rows, and one with all.
const PLAIN: Extras = Extras {
    detail: false,
    moves: false,
    memory: None,
};

const DETAILED: Extras = Extras {
    detail: true,
    moves: true,
    memory: Some(WORDS),
};

const WORDS: Span = Span { first: 0, last: 1 };

// The table of names, as it is named.
const NAMED: Option<&str> = Some("names");

// What the program reports if memory was refused: the last comes from the parser of its words, and the one before it if
// memory was refused to the vector that stands for standard output.
const TOLD: [&str; 9] = [
    "svcsim: file fault\n",
    "svcsim: image fault 9\n",
    "svcsim: plain fault 1\n",
    "svcsim: open fault 1\n",
    "svcsim: run fault 1\n",
    "svcsim: report fault 1\n",
    "svcsim: trace fault 1 at entry 0\n",
    "svcsim: report fault 2\n",
    "error: out of memory\n",
];

// Whether this is what the program reports if memory was refused.
fn is_told(err: &[u8]) -> bool {
    for fault in TOLD {
        if err == fault.as_bytes() {
            return true;
        }
    }
    false
}

// What the program printed and ended with is right, or it reported a fault and printed a beginning of that.
fn judged(status: u8, out: &[u8], err: &[u8], wanted: &str) -> Attempt
    ensures right { result ≡ Ok true → (status ≡ 0) × (out.now ≡ wanted.now) }
    ensures told { IfErr result (λ _. (status ≡ 1) × (starts_with nat_eq wanted.now out.now ≡ true)) }
{
    if status == 0 {
        Ok(err.is_empty() && out == wanted.as_bytes())
    } else if status == 1 && is_told(err) && wanted.as_bytes().starts_with(out) {
        Err(Refused::Told)
    } else {
        Ok(false)
    }
}

/// These words of a command line.
pub fn line(alloc: Global, words: &[&str]) -> Result<Vec<String>, AllocError> {
    let mut line = Vec::new(alloc);
    for word in words {
        line.push(String::from_str(alloc, word)?)?;
    }
    Ok(line)
}

// Does what the words of a command line say, which should print this.
fn told_by<R: Threads + Wait + Sync + AllocGlobal>(
    rt: &R,
    words: &[&str],
    wanted: &str,
) -> Attempt {
    let alloc = rt.alloc();
    let words = ready(line(alloc, words))?;
    let mut out = Vec::new(alloc);
    let mut err = Vec::new(alloc);
    let status = execute(rt, alloc, &words, &mut Samples, &mut out, &mut err);
    judged(status, &out, &err, wanted)
}

/// Both tasks are run in order, as the words of a command line say.
fn seq<R: Threads + Wait + Sync + AllocGlobal>(rt: &R) -> Attempt {
    told_by(rt, &["svcsim", "seq", "p", "--tasks", "2"], SEQ)
}

// Does what is asked for, which should print this.
fn asked<R: Threads + Wait + Sync + AllocGlobal>(
    rt: &R,
    request: Request<'_>,
    wanted: &str,
) -> Attempt {
    let alloc = rt.alloc();
    let mut out = Vec::new(alloc);
    let mut err = Vec::new(alloc);
    let status = match perform(rt, alloc, request, &mut Samples, &mut out) {
        Ok(status) => status,
        Err(fault) => tell(&fault, &mut err),
    };
    judged(status, &out, &err, wanted)
}

/// What both tasks need of one another is printed, by this table or in total, and with names if a table is named.
fn depend<R: Threads + Wait + Sync + AllocGlobal>(
    rt: &R,
    by: Option<NeedsTable>,
    names: Option<&str>,
    wanted: &str,
) -> Attempt {
    match Depended::new(Source::File("p"), 2, by, names) {
        Some(depended) => asked(rt, Request::Depend(depended), wanted),
        None => Ok(false),
    }
}

/// All schedules of one unit are followed.
fn explore<R: Threads + Wait + Sync + AllocGlobal>(rt: &R) -> Attempt {
    let explored = Explored {
        image: Source::File("p"),
        config: ready(Config::new(1, 16, 2, 100, 1000))?,
        burst: MAX_BURST_TURNS,
        states: 100,
        names: None,
    };
    asked(rt, Request::Explore(explored), EXPLORE)
}

/// The commit of the second task is looked for, as the words of a command line say.
fn find_line<R: Threads + Wait + Sync + AllocGlobal>(rt: &R) -> Attempt {
    let words = [
        "svcsim",
        "explore",
        "p",
        "--units=1",
        "--find",
        "commit,1",
        "--trace=saved",
    ];
    told_by(rt, &words, FIND)
}

/// Ten events are done, and their trace is saved where a file is named for it.
fn script<R: Threads + Wait + Sync + AllocGlobal>(rt: &R, trace: Option<&str>) -> Attempt {
    let scripted = Scripted {
        image: Source::File("p"),
        config: ready(Config::new(4, 16, 2, 10, 1))?,
        events: "events",
        trace,
    };
    asked(rt, Request::Script(scripted), SCRIPT)
}

/// The ten events are done, as the words of a command line say.
fn script_line<R: Threads + Wait + Sync + AllocGlobal>(rt: &R) -> Attempt {
    let words = [
        "svcsim",
        "script",
        "p",
        "events",
        "--events",
        "10",
        "--turns=1",
    ];
    told_by(rt, &words, SCRIPT)
}

/// The trace of ten events, on the machine that has room for them.
fn ten_entries() -> Result<Traced<'static>, Refused> {
    Ok(Traced {
        image: Source::File("p"),
        config: ready(Config::new(4, 16, 2, 10, 1))?,
        trace: "trace",
    })
}

/// The trace of ten events is checked in these columns, and its script is saved where a file is named for it.
fn check<R: Threads + Wait + Sync + AllocGlobal>(
    rt: &R,
    compared: Compared,
    script: Option<&str>,
) -> Attempt {
    asked(rt, Request::Check(ten_entries()?, compared, script), CHECK)
}

/// One task is run by a unit in a thread, and its trace is saved.
fn run<R: Threads + Wait + Sync + AllocGlobal>(rt: &R) -> Attempt {
    let run = Run {
        image: Source::BuiltIn,
        config: ready(Config::new(1, 16, 2, 100, 1000))?,
        schedule: None,
        trace: Some("saved"),
        row: None,
    };
    asked(rt, Request::Run(run), RUN)
}

/// Two tasks are run by four units in one thread, the youngest task first, after the events of a script if one is
/// named.
fn schedule<'a, R: Threads + Wait + Sync + AllocGlobal>(
    rt: &R,
    after: Option<&'a str>,
    trace: Option<&'a str>,
    row: Option<TableRow<'a>>,
    wanted: &str,
) -> Attempt {
    let run = Run {
        image: Source::File("p"),
        config: ready(Config::new(4, 16, 2, 100, 1000))?,
        schedule: Schedule::new(Order::Youngest, MAX_BURST_TURNS, after),
        trace,
        row,
    };
    asked(rt, Request::Run(run), wanted)
}

/// A row of a table after the names of the columns.
const HEADED: TableRow<'static> = TableRow {
    label: "a",
    header: true,
};

/// What the trace of ten events cost is printed, by this table or in total, and with names if a table is named.
fn profile<R: Threads + Wait + Sync + AllocGlobal>(
    rt: &R,
    by: Option<Table<'_>>,
    names: Option<&str>,
    wanted: &str,
) -> Attempt {
    asked(
        rt,
        Request::Profile(ten_entries()?, None, by, names),
        wanted,
    )
}

/// The machine to which the trace of ten events leads is shown, after this many of them or after all, with this beside
/// its rows, and with names if a table is named.
fn show<R: Threads + Wait + Sync + AllocGlobal>(
    rt: &R,
    at: Option<u64>,
    extras: Extras,
    names: Option<&str>,
    wanted: &str,
) -> Attempt {
    let shown = Shown { at, extras, names };
    asked(rt, Request::Show(ten_entries()?, shown), wanted)
}

/// A picture of the ten events is made, and saved.
fn draw<R: Threads + Wait + Sync + AllocGlobal>(rt: &R) -> Attempt {
    let picture = Picture {
        file: "saved",
        view: View {
            from: 0,
            count: None,
            choice: Choice {
                units: None,
                tasks: None,
                words: None,
            },
        },
        style: Style {
            values: Values::WithRoom,
            is_compact: false,
        },
        rows: false,
        names: None,
    };
    asked(rt, Request::Draw(ten_entries()?, picture), "")
}

/// The trace of ten events is saved for another viewer.
fn export<R: Threads + Wait + Sync + AllocGlobal>(rt: &R, format: Format) -> Attempt {
    let exported = Exported {
        file: "saved",
        format,
        words: Some(WORDS),
    };
    asked(rt, Request::Export(ten_entries()?, exported), "")
}

/// A text is assembled, and its image is saved, and its names if a file is named for them.
fn assemble<R: Threads + Wait + Sync + AllocGlobal>(rt: &R, names: Option<&str>) -> Attempt {
    let assembly = Assembly {
        text: "text",
        others: Vec::new(rt.alloc()),
        image: "saved",
        names,
    };
    asked(rt, Request::Assemble(assembly), "")
}

/// An image is listed, with names if a table is named.
fn list<R: Threads + Wait + Sync + AllocGlobal>(
    rt: &R,
    names: Option<&str>,
    wanted: &str,
) -> Attempt {
    asked(rt, Request::List(Source::File("p"), names), wanted)
}
