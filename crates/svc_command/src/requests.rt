//! The request of each subcommand, by the words of its line.

ghost use Rattle.std.specs.Prelude.{IfOk, codes};
ghost use Rattle.svc_command.specs.Asked.{Names};
ghost use Rattle.svc_command.specs.Given.{Gives, GivesTraced};
ghost use Rattle.svc_command.specs.Line.{IsNamed, texts};

use crate::line::Line;
use crate::options::{
    compared, configuration, extras, format, image, needs_table, row, schedule, sought, span,
    style, table, view,
};
use std::alloc::Global;
use svc_core::MAX_BURST_TURNS;
use svc_program::{
    Assembly, Depended, Explored, Exported, Fault, Picture, Request, Run, Scripted, Shown, Tasks,
    Traced,
};

/// The run that `run` asks for. A mistake of the line is told before one of the configuration.
pub(crate) fn run<'a>(alloc: Global, line: Line<'_, 'a>) -> Result<Request<'a>, Fault>
    ensures named { IsNamed (codes "run") (texts line.entry.words.now)
        → IfOk result (Names (texts line.entry.words.now)) }
    ensures gives { IfOk result (Gives (texts line.entry.words.now)) }
{
    let image = image(line)?;
    let schedule = schedule(alloc, line)?;
    Ok(Request::Run(Run {
        image,
        config: configuration(line)?,
        schedule,
        trace: line.option("trace")?,
        row: row(line)?,
    }))
}

/// The tasks that `seq` asks for.
pub(crate) fn sequential<'a>(line: Line<'_, 'a>) -> Result<Request<'a>, Fault>
    ensures named { IsNamed (codes "seq") (texts line.entry.words.now)
        → IfOk result (Names (texts line.entry.words.now)) }
    ensures gives { IfOk result (Gives (texts line.entry.words.now)) }
{
    Ok(Request::Sequential(Tasks {
        image: image(line)?,
        most: line.given_number("tasks")?,
    }))
}

/// The needs of tasks that `depend` asks for.
pub(crate) fn depend<'a>(line: Line<'_, 'a>) -> Result<Request<'a>, Fault>
    ensures named { IsNamed (codes "depend") (texts line.entry.words.now)
        → IfOk result (Names (texts line.entry.words.now)) }
    ensures gives { IfOk result (Gives (texts line.entry.words.now)) }
{
    let image = image(line)?;
    let most = line.number("tasks", 1_000_000)?;
    let by = needs_table(line)?;
    // The parser accepts no greater number.
    let depended = Depended::new(image, most, by, line.option("names")?).ok_or(Fault::File)?;
    Ok(Request::Depend(depended))
}

/// The schedules that `explore` asks for, and what is looked for.
pub(crate) fn explore<'a>(alloc: Global, line: Line<'_, 'a>) -> Result<Request<'a>, Fault>
    ensures named { IsNamed (codes "explore") (texts line.entry.words.now)
        → IfOk result (Names (texts line.entry.words.now)) }
    ensures gives { IfOk result (Gives (texts line.entry.words.now)) }
{
    let image = image(line)?;
    let config = configuration(line)?;
    if let Some(trace) = line.option("of")? {
        let traced = Traced {
            image,
            config,
            trace,
        };
        return Ok(Request::Observe(traced, line.option("names")?));
    }
    let explored = Explored {
        image,
        config,
        burst: line.number("burst", MAX_BURST_TURNS)?,
        states: line.number("states", 1_000_000)?,
        names: line.option("names")?,
    };
    match sought(alloc, line)? {
        Some(sought) => Ok(Request::Find(explored, sought, line.option("trace")?)),
        None => Ok(Request::Explore(explored)),
    }
}

/// The script that `script` asks for.
pub(crate) fn script<'a>(line: Line<'_, 'a>) -> Result<Request<'a>, Fault>
    ensures named { IsNamed (codes "script") (texts line.entry.words.now)
        → IfOk result (Names (texts line.entry.words.now)) }
    ensures gives { IfOk result (Gives (texts line.entry.words.now)) }
{
    Ok(Request::Script(Scripted {
        image: image(line)?,
        config: configuration(line)?,
        events: line.file("EVENTS")?,
        trace: line.option("trace")?,
    }))
}

/// The trace that `check` asks for, the columns that are compared, and the script's file.
pub(crate) fn check<'a>(line: Line<'_, 'a>) -> Result<Request<'a>, Fault>
    ensures named { IsNamed (codes "check") (texts line.entry.words.now)
        → IfOk result (Names (texts line.entry.words.now)) }
    ensures gives { IfOk result (Gives (texts line.entry.words.now)) }
{
    let traced = traced(line)?;
    let compared = compared(line)?;
    Ok(Request::Check(traced, compared, line.option("script")?))
}

/// The trace that `profile` asks for, how many of its entries, the table, and the names.
pub(crate) fn profile<'a>(line: Line<'_, 'a>) -> Result<Request<'a>, Fault>
    ensures named { IsNamed (codes "profile") (texts line.entry.words.now)
        → IfOk result (Names (texts line.entry.words.now)) }
    ensures gives { IfOk result (Gives (texts line.entry.words.now)) }
{
    let traced = traced(line)?;
    let to = line.index("to")?;
    let by = table(line)?;
    Ok(Request::Profile(traced, to, by, line.option("names")?))
}

/// The trace that `show` asks for, and what of it is shown.
pub(crate) fn show<'a>(alloc: Global, line: Line<'_, 'a>) -> Result<Request<'a>, Fault>
    ensures named { IsNamed (codes "show") (texts line.entry.words.now)
        → IfOk result (Names (texts line.entry.words.now)) }
    ensures gives { IfOk result (Gives (texts line.entry.words.now)) }
{
    let traced = traced(line)?;
    let at = line.index("at")?;
    let extras = extras(alloc, line)?;
    let names = line.option("names")?;
    Ok(Request::Show(traced, Shown { at, extras, names }))
}

/// The trace that `draw` asks for, and the picture.
pub(crate) fn draw<'a>(alloc: Global, line: Line<'_, 'a>) -> Result<Request<'a>, Fault>
    ensures named { IsNamed (codes "draw") (texts line.entry.words.now)
        → IfOk result (Names (texts line.entry.words.now)) }
    ensures gives { IfOk result (Gives (texts line.entry.words.now)) }
{
    let traced = traced(line)?;
    let picture = Picture {
        file: line.file("FILE.svg")?,
        view: view(alloc, line)?,
        style: style(line)?,
        rows: line.flag("rows"),
        names: line.option("names")?,
    };
    Ok(Request::Draw(traced, picture))
}

/// The trace that `export` asks for, and how it is saved.
pub(crate) fn export<'a>(alloc: Global, line: Line<'_, 'a>) -> Result<Request<'a>, Fault>
    ensures named { IsNamed (codes "export") (texts line.entry.words.now)
        → IfOk result (Names (texts line.entry.words.now)) }
    ensures gives { IfOk result (Gives (texts line.entry.words.now)) }
{
    let traced = traced(line)?;
    let exported = Exported {
        file: line.file("FILE")?,
        format: format(line)?,
        words: span(alloc, line, "words")?,
    };
    Ok(Request::Export(traced, exported))
}

/// The texts that `assemble` asks for, and the files of their image and of their names.
pub(crate) fn assemble<'a>(alloc: Global, line: Line<'_, 'a>) -> Result<Request<'a>, Fault>
    ensures named { IsNamed (codes "assemble") (texts line.entry.words.now)
        → IfOk result (Names (texts line.entry.words.now)) }
    ensures gives { IfOk result (Gives (texts line.entry.words.now)) }
{
    // Behind the first text the parser takes the others and the image as one.
    let (image, others) = line.last_file("IMAGE")?;
    Ok(Request::Assemble(Assembly {
        text: line.file_before("FILE", others)?,
        others: others.to_vec(alloc)?,
        image,
        names: line.option("names")?,
    }))
}

/// The image that `list` asks for, and the names.
pub(crate) fn list<'a>(line: Line<'_, 'a>) -> Result<Request<'a>, Fault>
    ensures named { IsNamed (codes "list") (texts line.entry.words.now)
        → IfOk result (Names (texts line.entry.words.now)) }
    ensures gives { IfOk result (Gives (texts line.entry.words.now)) }
{
    let image = image(line)?;
    Ok(Request::List(image, line.option("names")?))
}

// The trace that a subcommand replays.
fn traced<'a>(line: Line<'_, 'a>) -> Result<Traced<'a>, Fault>
    ensures { IfOk result (GivesTraced (texts line.entry.words.now)) }
{
    Ok(Traced {
        image: image(line)?,
        config: configuration(line)?,
        trace: line.file("TRACE")?,
    })
}
