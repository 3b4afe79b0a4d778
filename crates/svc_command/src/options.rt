//! What the options of several subcommands give.

ghost use Rattle.std.specs.Prelude.{◌≡◌, ◌++◌, IfOk, IfSome, codes};
ghost use Rattle.svc_command.specs.Given.{GivesChoice, GivesCompared, GivesConfig, GivesExtras, GivesFormat};
ghost use Rattle.svc_command.specs.Given.{GivesNeedsTable, GivesOrder, GivesRow, GivesSchedule, GivesSought, GivesSpan};
ghost use Rattle.svc_command.specs.Given.{GivesImage, GivesStyle, GivesTable, GivesValues, GivesView};
ghost use Rattle.svc_command.specs.Line.{IsValueOf, ReadsAs, ReadsSpan, texts};

use crate::line::{Line, number_of};
use std::alloc::{AllocError, Global};
use svc_base::Config;
use svc_core::MAX_BURST_TURNS;
use svc_program::{
    Choice, Compared, Extras, Fault, Format, NeedsTable, Order, Schedule, Sought, Source, Span,
    Style, Table, TableRow, Values, View,
};

const SEED_ALONE: &str = "error: the argument '--seed <N>' is of '--schedule random' alone

For more information, try '--help'.
";

const NOT_SOUGHT: &str = "error: the value of '--find' is not WHAT, WHAT,TASK or WHAT,TASK,WORD

For more information, try '--help'.
";

/// The image's file.
pub(crate) fn image<'a>(line: Line<'_, 'a>) -> Result<Source<'a>, Fault>
    ensures { IfOk result (GivesImage (texts line.entry.words.now)) }
{
    let name = line.file("IMAGE")?;
    Ok(Source::File(name))
}

/// The row of a table that the options ask for, if any.
pub(crate) fn row<'a>(line: Line<'_, 'a>) -> Result<Option<TableRow<'a>>, Fault>
    ensures { IfOk result (λ row. IfSome row (GivesRow (texts line.entry.words.now))) }
{
    match line.option("row")? {
        Some(label) => Ok(Some(TableRow {
            label,
            header: line.flag("header"),
        })),
        None => Ok(None),
    }
}

/// The table of a profile that the options name, if any.
pub(crate) fn table<'a>(line: Line<'_, 'a>) -> Result<Option<Table<'a>>, Fault>
    ensures { IfOk result (λ table. IfSome table (GivesTable (texts line.entry.words.now))) }
{
    match line.option("by")? {
        None => Ok(row(line)?.map(Table::Row)),
        Some("task") => Ok(Some(Table::Tasks)),
        Some("unit") => Ok(Some(Table::Units)),
        Some("word") => Ok(Some(Table::Words)),
        Some("pair") => Ok(Some(Table::Pairs)),
        Some("supplier") => Ok(Some(Table::Suppliers)),
        Some("pc") => Ok(Some(Table::Instructions)),
        // The parser accepts no other name.
        Some(_) => Err(Fault::File),
    }
}

/// The table of needs that the options name, if any.
pub(crate) fn needs_table(line: Line<'_, '_>) -> Result<Option<NeedsTable>, Fault>
    ensures { IfOk result (λ table. IfSome table (GivesNeedsTable (texts line.entry.words.now))) }
{
    match line.option("by")? {
        None => Ok(graph(line)),
        Some("task") => Ok(Some(NeedsTable::Tasks)),
        Some("pair") => Ok(Some(NeedsTable::Pairs)),
        Some("word") => Ok(Some(NeedsTable::Words)),
        // The parser accepts no other name.
        Some(_) => Err(Fault::File),
    }
}

// The graph of needs, if it is asked for.
fn graph(line: Line<'_, '_>) -> Option<NeedsTable>
    ensures { IfSome result (GivesNeedsTable (texts line.entry.words.now)) }
{
    if line.flag("dot") {
        Some(NeedsTable::Graph)
    } else {
        None
    }
}

/// The schedule that the options give, if any.
pub(crate) fn schedule<'a>(alloc: Global, line: Line<'_, 'a>) -> Result<Option<Schedule<'a>>, Fault>
    ensures { IfOk result (λ schedule. IfSome schedule (GivesSchedule (texts line.entry.words.now))) }
{
    let Some(name) = line.option("schedule")? else {
        return Ok(None);
    };
    let order = order(alloc, name, line)?;
    let burst = line.number("burst", MAX_BURST_TURNS)?;
    // The parser accepts no other burst.
    let schedule = Schedule::new(order, burst, line.option("after")?).ok_or(Fault::File)?;
    Ok(Some(schedule))
}

/// The columns that are compared: all, unless the options name some to ignore.
pub(crate) fn compared(line: Line<'_, '_>) -> Result<Compared, Fault>
    ensures { IfOk result (GivesCompared (texts line.entry.words.now)) }
{
    match line.option("ignore")? {
        None => Ok(Compared::All),
        Some("served") => Ok(Compared::ButSuppliers),
        // The parser accepts no other name.
        Some(_) => Err(Fault::File),
    }
}

// The order of this name. A seed is that of a random order alone.
fn order(alloc: Global, name: &str, line: Line<'_, '_>) -> Result<Order, Fault>
    ensures { IsValueOf (codes "schedule") name.now (texts line.entry.words.now)
        → IfOk result (GivesOrder (texts line.entry.words.now)) }
{
    if name == "random" {
        return Ok(Order::Random {
            seed: line.number("seed", 0)?,
        });
    }
    if line.given.contains_id("seed") {
        return Err(Fault::CommandLine(String::from_str(alloc, SEED_ALONE)?));
    }
    match name {
        "rotate" => Ok(Order::Rotate),
        "oldest" => Ok(Order::Oldest),
        "youngest" => Ok(Order::Youngest),
        // The parser accepts no other name.
        _ => Err(Fault::File),
    }
}

/// What is looked for, if anything is.
pub(crate) fn sought(alloc: Global, line: Line<'_, '_>) -> Result<Option<Sought>, Fault>
    ensures { IfOk result (λ given. IfSome given (GivesSought (texts line.entry.words.now))) }
{
    let Some(text) = line.option("find")? else {
        return Ok(None);
    };
    match Sought::read(alloc, text)? {
        Some(sought) => Ok(Some(sought)),
        None => Err(Fault::CommandLine(String::from_str(alloc, NOT_SOUGHT)?)),
    }
}

// The parts of a text before and behind its first dash.
fn dashed(text: &str) -> Option<(&str, &str)>
    ensures { IfSome result (λ parts. text.now ≡ parts.0.now ++ (codes "-" ++ parts.1.now)) }
{
    text.split_once("-")
}

// The words from a first number to a last one.
fn span_between(first: &str, last: &str) -> Option<Span>
    ensures { IfSome result (λ span. ReadsAs first.now span.first × ReadsAs last.now span.last) }
{
    let first = number_of::<u32>(first)?;
    let last = number_of::<u32>(last)?;
    if first <= last {
        Some(Span { first, last })
    } else {
        None
    }
}

// One word, by its number.
fn single(text: &str) -> Option<Span>
    ensures { IfSome result (λ span. ReadsAs text.now span.first × (span.last ≡ span.first)) }
{
    let word = number_of::<u32>(text)?;
    Some(Span {
        first: word,
        last: word,
    })
}

// The words that a text names: those from a first to a last one, or one.
fn span_of(text: &str) -> Option<Span>
    ensures { IfSome result (ReadsSpan text.now) }
{
    match dashed(text) {
        Some((first, last)) => span_between(first, last),
        None => single(text),
    }
}

/// The words that the option of this name gives, if it is given.
pub(crate) fn span(alloc: Global, line: Line<'_, '_>, name: &str) -> Result<Option<Span>, Fault>
    ensures { IfOk result (λ span. IfSome span (GivesSpan (texts line.entry.words.now) name.now)) }
{
    let Some(text) = line.option(name)? else {
        return Ok(None);
    };
    match span_of(text) {
        Some(span) => Ok(Some(span)),
        None => Err(not_a_span(alloc, name)?),
    }
}

// The option of this name has a value that is no span.
fn not_a_span(alloc: Global, name: &str) -> Result<Fault, AllocError> {
    let text = format!(in alloc;
        "error: the value of '--{name}' is not A or A-B, where A is at most B\n\nFor more information, try '--help'.\n"
    )?;
    Ok(Fault::CommandLine(text))
}

// Which bars and marks a picture shows.
fn choice(alloc: Global, line: Line<'_, '_>) -> Result<Choice, Fault>
    ensures { IfOk result (GivesChoice (texts line.entry.words.now)) }
{
    Ok(Choice {
        units: span(alloc, line, "unit")?,
        tasks: span(alloc, line, "task")?,
        words: span(alloc, line, "word")?,
    })
}

/// What a picture shows of a trace.
pub(crate) fn view(alloc: Global, line: Line<'_, '_>) -> Result<View, Fault>
    ensures { IfOk result (GivesView (texts line.entry.words.now)) }
{
    Ok(View {
        from: line.number("from", 0)?,
        count: line.number_if_given("count")?,
        choice: choice(alloc, line)?,
    })
}

// Beside which marks values stand.
fn values(line: Line<'_, '_>) -> Result<Values, Fault>
    ensures { IfOk result (GivesValues (texts line.entry.words.now)) }
{
    match line.option("values")? {
        None => Ok(Values::WithRoom),
        Some("auto") => Ok(Values::WithRoom),
        Some("all") => Ok(Values::All),
        Some("none") => Ok(Values::Nowhere),
        // The parser accepts no other name.
        Some(_) => Err(Fault::File),
    }
}

/// How a picture is drawn.
pub(crate) fn style(line: Line<'_, '_>) -> Result<Style, Fault>
    ensures { IfOk result (GivesStyle (texts line.entry.words.now)) }
{
    Ok(Style {
        values: values(line)?,
        is_compact: line.flag("compact"),
    })
}

/// What is shown beside the rows of every show.
pub(crate) fn extras(alloc: Global, line: Line<'_, '_>) -> Result<Extras, Fault>
    ensures { IfOk result (GivesExtras (texts line.entry.words.now)) }
{
    Ok(Extras {
        detail: line.flag("detail"),
        moves: line.flag("moves"),
        memory: span(alloc, line, "memory")?,
    })
}

/// What the viewer reads for whom a trace is saved.
pub(crate) fn format(line: Line<'_, '_>) -> Result<Format, Fault>
    ensures { IfOk result (GivesFormat (texts line.entry.words.now)) }
{
    match line.option("format")? {
        Some("chrome") => Ok(Format::Chrome),
        Some("vcd") => Ok(Format::Vcd),
        // The parser reads no line without it, and accepts no other name.
        _ => Err(Fault::File),
    }
}

/// The configuration that the options give.
pub(crate) fn configuration(line: Line<'_, '_>) -> Result<Config, Fault>
    ensures { IfOk result (GivesConfig (texts line.entry.words.now)) }
{
    let config = Config::new(
        line.number("units", 4)?,
        line.number("sets", 16)?,
        line.number("ways", 2)?,
        line.number("events", 100_000)?,
        line.number("turns", 1_000_000)?,
    )?;
    Ok(config)
}
