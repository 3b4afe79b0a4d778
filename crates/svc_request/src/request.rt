// What may be asked of the program.

ghost use Rattle.std.specs.Prelude.{◌≡◌, ◌<◌, ◌≤◌, ◌↔◌, IfSome, IsSome};
ghost use Rattle.svc_base.specs.declared.limits.TheConstants.{MAX_BURST_TURNS};

use svc_base::Config;
use svc_core::MAX_BURST_TURNS;
use svc_depend::MAX_TASKS;
use svc_export::Format;
use svc_marks::View;
use svc_observations::Sought;
use svc_report::TableRow;
use svc_sheet::Style;
use svc_show::Extras;
use svc_span::Span;

/// The program's version.
pub const VERSION: &str = "0.1.0";

/// Where the bytes of an image come from.
#[derive(Clone, Copy)]
pub enum Source<'a> {
    /// The program's built-in image.
    BuiltIn,
    /// The file of this name.
    File(&'a str),
}

/// In which order the steps of a scheduled run ask the units for their moves.
#[derive(Clone, Copy)]
pub enum Order {
    /// By number, from the unit after the one that moved last.
    Rotate,
    /// Those with tasks first, the oldest task first.
    Oldest,
    /// The idle ones first, and then those with tasks, the youngest task first.
    Youngest,
    /// By number, from a unit that is drawn; the draws come from this seed.
    Random { seed: u32 },
}

/// How a run in one host thread goes.
#[derive(Clone, Copy)]
pub struct Schedule<'a> {
    /// In which order the units are asked.
    pub order: Order,
    /// The most turns in a burst, 1 to [`MAX_BURST_TURNS`].
    pub burst: u32,
    /// The script's file whose events come before the first step.
    pub after: Option<&'a str>,
    pub ghost some: { 0 < burst },
    pub ghost few: { burst ≤ MAX_BURST_TURNS },
}

impl<'a> Schedule<'a> {
    /// The schedule of these, after the script of this file; none if the turns of a burst are not 1 to
    /// [`MAX_BURST_TURNS`].
    pub fn new(order: Order, burst: u32, after: Option<&'a str>) -> Option<Schedule<'a>>
        ensures given { IsSome result ↔ ((0 < burst) × (burst ≤ MAX_BURST_TURNS)) }
        ensures order { IfSome result (λ s. s.order ≡ order) }
        ensures burst { IfSome result (λ s. s.burst ≡ burst) }
        ensures after { IfSome result (λ s. s.after ≡ after.entry) }
    {
        if burst == 0 || burst > MAX_BURST_TURNS {
            return None;
        }
        Some(Schedule {
            order,
            burst,
            after,
        })
    }
}

/// A table of what speculation cost.
#[derive(Clone, Copy)]
pub enum Table<'a> {
    /// A row for each task that was begun.
    Tasks,
    /// A row for each unit of the configuration.
    Units,
    /// A row for each word that was touched.
    Words,
    /// A row for each task that squashed another, that task and the word.
    Pairs,
    /// A row for each task whose version another read, that task and the word.
    Suppliers,
    /// A row for each instruction that asked for a load, a store or an output.
    Instructions,
    /// All counts, as one row of a table of many traces.
    Row(TableRow<'a>),
}

/// A run of an image on a machine of a configuration.
#[derive(Clone, Copy)]
pub struct Run<'a> {
    pub image: Source<'a>,
    pub config: Config,
    /// The order of its steps; without one each unit has a thread of its own.
    pub schedule: Option<Schedule<'a>>,
    /// The file in which its trace is saved.
    pub trace: Option<&'a str>,
    /// The row of a table that is printed instead of the summary.
    pub row: Option<TableRow<'a>>,
}

/// The first tasks of an image, in order on one flat memory.
#[derive(Clone, Copy)]
pub struct Tasks<'a> {
    pub image: Source<'a>,
    /// How many tasks to run at most.
    pub most: u32,
}

/// A table of what tasks need of one another.
#[derive(Clone, Copy)]
pub enum NeedsTable {
    /// A row for each task.
    Tasks,
    /// A row for each word that a task needs or writes.
    Words,
    /// A row for each task and each other one that it needs.
    Pairs,
    /// A graph of these, for Graphviz.
    Graph,
}

/// What the first tasks of an image need of one another.
#[derive(Clone, Copy)]
pub struct Depended<'a> {
    pub image: Source<'a>,
    /// How many tasks to follow at most, 0 to [`MAX_TASKS`].
    pub most: u32,
    /// The table that is printed instead of the totals.
    pub by: Option<NeedsTable>,
    /// The table of names by which entries and words are told, too.
    pub names: Option<&'a str>,
    pub ghost few: { most ≤ 1000000 },
}

impl<'a> Depended<'a> {
    /// The needs of an image's first tasks, by this table and with these names; none if more than [`MAX_TASKS`] are
    /// asked for.
    pub fn new(
        image: Source<'a>,
        most: u32,
        by: Option<NeedsTable>,
        names: Option<&'a str>,
    ) -> Option<Depended<'a>>
        ensures given { IsSome result ↔ (most ≤ 1000000) }
        ensures image { IfSome result (λ it. it.image ≡ image.entry) }
        ensures most { IfSome result (λ it. it.most ≡ most) }
        ensures by { IfSome result (λ it. it.by ≡ by) }
        ensures names { IfSome result (λ it. it.names ≡ names.entry) }
    {
        if u64::from(most) > MAX_TASKS {
            return None;
        }
        Some(Depended {
            image,
            most,
            by,
            names,
        })
    }
}

/// All schedules of an image, on a machine of a configuration.
#[derive(Clone, Copy)]
pub struct Explored<'a> {
    pub image: Source<'a>,
    pub config: Config,
    /// The most turns in a burst.
    pub burst: u32,
    /// How many standings to explore at most.
    pub states: u32,
    /// The table of names by which words and entries are told, too.
    pub names: Option<&'a str>,
}

/// The events of a script, on a machine of a configuration.
#[derive(Clone, Copy)]
pub struct Scripted<'a> {
    pub image: Source<'a>,
    pub config: Config,
    /// The script's file.
    pub events: &'a str,
    /// The file that the trace of what it led to is saved in.
    pub trace: Option<&'a str>,
}

/// A trace of an image, which is replayed on a machine of a configuration.
#[derive(Clone, Copy)]
pub struct Traced<'a> {
    pub image: Source<'a>,
    pub config: Config,
    /// The trace's file.
    pub trace: &'a str,
}

/// Which columns of a trace are compared with what the machine answers.
#[derive(Clone, Copy)]
pub enum Compared {
    /// All of them.
    All,
    /// All but those that name the supplier of a read.
    ButSuppliers,
}

/// A picture of a trace.
#[derive(Clone, Copy)]
pub struct Picture<'a> {
    /// The file in which it is saved.
    pub file: &'a str,
    /// What of the trace it shows.
    pub view: View,
    /// How it is drawn.
    pub style: Style,
    /// Whether what it shows is saved as rows.
    pub rows: bool,
    /// The table of names by which addresses and words are told, too.
    pub names: Option<&'a str>,
}

/// What is shown of the machine to which a trace leads.
#[derive(Clone, Copy)]
pub struct Shown<'a> {
    /// After how many of the entries; without it, after all.
    pub at: Option<u64>,
    /// What is shown beside the rows of every show.
    pub extras: Extras,
    /// The table of names by which addresses and words are told, too.
    pub names: Option<&'a str>,
}

/// A trace for another viewer.
#[derive(Clone, Copy)]
pub struct Exported<'a> {
    /// The file in which it is saved.
    pub file: &'a str,
    /// What the viewer reads.
    pub format: Format,
    /// The words whose committed values are told, where the format tells them.
    pub words: Option<Span>,
}

/// Texts that are assembled, one behind another, to one image.
#[derive(Drop)]
pub struct Assembly<'a> {
    /// The first text's file.
    pub text: &'a str,
    /// The files of the others, in their order.
    pub others: Vec<&'a str>,
    /// The file in which the image is saved.
    pub image: &'a str,
    /// The file in which the table of its names is saved, if one is.
    pub names: Option<&'a str>,
}

/// What is asked of the program. Files are known by their names.
#[derive(Drop)]
pub enum Request<'a> {
    /// To print this text, the help.
    Help(String),
    /// To print the program's name and version.
    Version,
    /// To run an image, to save the trace if a file is named for it, and to print the summary.
    Run(Run<'a>),
    /// To run tasks in order, and to print the summary.
    Sequential(Tasks<'a>),
    /// To run tasks in order, and to print what they need of one another, in total or by a table.
    Depend(Depended<'a>),
    /// To follow all schedules of an image, and to print what can be seen.
    Explore(Explored<'a>),
    /// To follow all schedules of an image, to save the trace of one that shows what is looked for if a file is named
    /// for it, and to print what it shows.
    Find(Explored<'a>, Sought, Option<&'a str>),
    /// To replay a trace, and to print what it shows, with the names of this table.
    Observe(Traced<'a>, Option<&'a str>),
    /// To do the events of a script, and to print a line for each, and the summary.
    Script(Scripted<'a>),
    /// To replay a trace, to compare these columns of it, to save the script that leads to it if a file is named for
    /// it, and to print whether it is sound.
    Check(Traced<'a>, Compared, Option<&'a str>),
    /// To replay this many entries of a trace, or all, and to print what their speculation cost, in total or by a
    /// table, with the names of this table.
    Profile(Traced<'a>, Option<u64>, Option<Table<'a>>, Option<&'a str>),
    /// To replay a trace, or its first entries, and to print the machine to which they lead.
    Show(Traced<'a>, Shown<'a>),
    /// To replay a trace up to the last entry that is shown, and to save a picture of it.
    Draw(Traced<'a>, Picture<'a>),
    /// To replay a trace, and to save it for another viewer.
    Export(Traced<'a>, Exported<'a>),
    /// To assemble texts, and to save their image, and their names if a file is named for them.
    Assemble(Assembly<'a>),
    /// To print an image as a text that assembles to it, with the names of this table.
    List(Source<'a>, Option<&'a str>),
}
