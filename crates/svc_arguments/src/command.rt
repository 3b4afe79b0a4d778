//! The command line, as `clap` reads it: its subcommands and their arguments.

ghost use Rattle.std.specs.Prelude.{◌≡◌, ◌++◌, IfOk, false, map};
ghost use Rattle.clap.specs.Words.{rule_of, shape_of};
ghost use Rattle.clap.specs.declared.builder.command.Command.TheViews.{out-Command as fields_of};
ghost use Rattle.svc_arguments.specs.Grammar.{grammar};
ghost use Rattle.svc_arguments.specs.Told.{IsNamed, IsSame, TakesMore, all_told, described, is_told};
ghost use Rattle.svc_arguments.specs.Told.{tells, told, with_default};

use crate::argument::{Argument, Takes};
use crate::arguments::{
    AFTER, AT, BURST, BURST_OF_MOVES, BY, BY_OF_NEEDS, DETAIL, DOT, EVENTS, EVENTS_FILE, EXPLAIN,
    EXPORTED, FIND, FORMAT, HEADER, IDLE_TURNS, IGNORE, IMAGE, MADE_IMAGE, MEMORY, MOVES, NAMES,
    NAMES_OF_LISTING, NAMES_OF_PROFILE, NAMES_OF_TEXT, OF, ROW, ROW_OF_PROFILE, SCHEDULE,
    SCRIPT_FILE, SEED, SETS, STATES, TASKS, TASKS_FOLLOWED, TEXT, TO, TRACE, TRACE_FILE,
    TRACE_OF_FINDING, TURNS, UNITS, WAYS, WORDS,
};
use crate::drawing::{
    COMPACT, COUNT, FROM, NAMES_OF_PICTURE, PICTURE, ROWS, TASK, UNIT, VALUES, WORD,
};
use crate::helps::{
    ABOUT, ASSEMBLE, CHECK, DEPEND, DRAW, EXPLORE, EXPORT, FAULTS, LIST, PROFILE, RUN, SCRIPT, SEQ,
    SHOW, STATUSES, STATUSES_OF_ASSEMBLE, STATUSES_OF_EXPLORE, STATUSES_OF_LIST,
};
use clap::{Arg, ArgAction, Command};
use std::alloc::{AllocError, Global};
use svc_request::VERSION;

// A subcommand.
#[derive(Clone, Copy)]
struct Subcommand {
    name: &'static str,
    // What it does, in a line.
    about: &'static str,
    // Its help.
    help: &'static str,
    // The end of its help: the statuses.
    statuses: &'static str,
    // How a line of it is written, where the parser would say that otherwise.
    usage: Option<&'static str>,
    arguments: &'static [Argument],
}

const SUBCOMMANDS: [Subcommand; 12] = [
    Subcommand {
        name: "run",
        about: "Runs an image on the simulated machine, and prints the summary",
        help: RUN,
        statuses: STATUSES,
        usage: None,
        arguments: &[
            IMAGE, TRACE, ROW, HEADER, SCHEDULE, SEED, BURST, AFTER, UNITS, SETS, WAYS, EVENTS,
            TURNS,
        ],
    },
    Subcommand {
        name: "seq",
        about: "Runs an image's tasks one after another on plain memory, and prints the summary",
        help: SEQ,
        statuses: STATUSES,
        usage: None,
        arguments: &[IMAGE, TASKS],
    },
    Subcommand {
        name: "depend",
        about: "Runs an image's tasks one after another, and prints what they need of one another",
        help: DEPEND,
        statuses: STATUSES,
        usage: None,
        arguments: &[IMAGE, TASKS_FOLLOWED, BY_OF_NEEDS, DOT, NAMES],
    },
    Subcommand {
        name: "explore",
        about: "Follows every schedule of a small image, and prints what can be seen in any of them",
        help: EXPLORE,
        statuses: STATUSES_OF_EXPLORE,
        usage: None,
        arguments: &[
            IMAGE,
            BURST_OF_MOVES,
            STATES,
            FIND,
            TRACE_OF_FINDING,
            OF,
            NAMES,
            UNITS,
            SETS,
            WAYS,
            EVENTS,
            IDLE_TURNS,
        ],
    },
    Subcommand {
        name: "script",
        about: "Applies the events of a script, and prints a line for each, and the summary",
        help: SCRIPT,
        statuses: STATUSES,
        usage: None,
        arguments: &[
            IMAGE,
            EVENTS_FILE,
            UNITS,
            SETS,
            WAYS,
            EVENTS,
            IDLE_TURNS,
            TRACE,
        ],
    },
    Subcommand {
        name: "check",
        about: "Replays a trace, and says whether it is sound",
        help: CHECK,
        statuses: STATUSES,
        usage: None,
        arguments: &[
            IMAGE,
            TRACE_FILE,
            UNITS,
            SETS,
            WAYS,
            EVENTS,
            IDLE_TURNS,
            IGNORE,
            SCRIPT_FILE,
        ],
    },
    Subcommand {
        name: "profile",
        about: "Replays a trace, and counts what its speculation cost",
        help: PROFILE,
        statuses: STATUSES,
        usage: None,
        arguments: &[
            IMAGE,
            TRACE_FILE,
            TO,
            BY,
            ROW_OF_PROFILE,
            HEADER,
            NAMES_OF_PROFILE,
            UNITS,
            SETS,
            WAYS,
            EVENTS,
            IDLE_TURNS,
        ],
    },
    Subcommand {
        name: "show",
        about: "Replays a trace, and shows the machine to which it leads",
        help: SHOW,
        statuses: STATUSES,
        usage: None,
        arguments: &[
            IMAGE, TRACE_FILE, AT, DETAIL, MOVES, MEMORY, NAMES, UNITS, SETS, WAYS, EVENTS,
            IDLE_TURNS,
        ],
    },
    Subcommand {
        name: "draw",
        about: "Replays a trace, and saves a picture of it",
        help: DRAW,
        statuses: STATUSES,
        usage: None,
        arguments: &[
            IMAGE,
            TRACE_FILE,
            PICTURE,
            FROM,
            COUNT,
            UNIT,
            TASK,
            WORD,
            VALUES,
            COMPACT,
            ROWS,
            NAMES_OF_PICTURE,
            UNITS,
            SETS,
            WAYS,
            EVENTS,
            IDLE_TURNS,
        ],
    },
    Subcommand {
        name: "export",
        about: "Replays a trace, and saves it for another viewer",
        help: EXPORT,
        statuses: STATUSES,
        usage: None,
        arguments: &[
            IMAGE, TRACE_FILE, EXPORTED, FORMAT, WORDS, UNITS, SETS, WAYS, EVENTS, IDLE_TURNS,
        ],
    },
    Subcommand {
        name: "assemble",
        about: "Assembles texts, and saves the image",
        help: ASSEMBLE,
        statuses: STATUSES_OF_ASSEMBLE,
        usage: Some("svcsim assemble [OPTIONS] <FILE>... <IMAGE>"),
        arguments: &[TEXT, MADE_IMAGE, NAMES_OF_TEXT],
    },
    Subcommand {
        name: "list",
        about: "Prints an image as assembly",
        help: LIST,
        statuses: STATUSES_OF_LIST,
        usage: None,
        arguments: &[IMAGE, NAMES_OF_LISTING],
    },
];

/// The whole command line: every subcommand, with its arguments in their order.
pub fn command<'a>(alloc: Global) -> Result<Command<'a>, AllocError>
    ensures { IfOk result (λ command. all_told command ≡ grammar) }
{
    let command = Command::new(alloc, "svcsim")
        .bin_name("svcsim")?
        .version(VERSION)
        .about("Simulates a multiprocessor with speculative versioning caches")
        .long_about(ABOUT)
        .after_help(STATUSES)
        .after_long_help(FAULTS)
        .subcommand_required(true);
    with_subcommands(alloc, command, &SUBCOMMANDS)
}

// The command with each of these subcommands.
fn with_subcommands<'a>(
    alloc: Global,
    mut command: Command<'a>,
    table: &[Subcommand],
) -> Result<Command<'a>, AllocError>
    ensures { IfOk result (λ new. all_told new ≡ all_told command.entry ++ map described table.now) }
{
    for subcommand in table {
        command = command.subcommand(described(alloc, subcommand)?)?;
    }
    Ok(command)
}

// The subcommand, as the parser has it.
fn described<'a>(alloc: Global, subcommand: &Subcommand) -> Result<Command<'a>, AllocError>
    ensures local { IfOk result (λ command. (fields_of command).has_globals ≡ false) }
    ensures told { IfOk result (λ command. told (shape_of command) ≡ described subcommand.now) }
{
    let command = Command::new(alloc, subcommand.name)
        .about(subcommand.about)
        .long_about(subcommand.help)
        .after_help(subcommand.statuses);
    let command = with_usage(command, subcommand.usage);
    let command = with_arguments(alloc, command, subcommand.arguments)?;
    command.arg(given(alloc, &EXPLAIN)?)
}

// The subcommand, whose lines are written so.
fn with_usage<'a>(command: Command<'a>, usage: Option<&'a str>) -> Command<'a>
    ensures local { (fields_of result).has_globals ≡ (fields_of command.entry).has_globals }
    ensures shape { shape_of result ≡ shape_of command.entry }
{
    match usage {
        Some(line) => command.override_usage(line),
        None => command,
    }
}

// The subcommand with each of these arguments.
fn with_arguments<'a>(
    alloc: Global,
    mut command: Command<'a>,
    arguments: &[Argument],
) -> Result<Command<'a>, AllocError>
    ensures { IfOk result (TakesMore command.entry (map tells arguments.now)) }
{
    for argument in arguments {
        command = command.arg(given(alloc, argument)?)?;
    }
    Ok(command)
}

// The argument, as the parser has it.
fn given<'a>(alloc: Global, argument: &Argument) -> Result<Arg<'a>, AllocError>
    ensures local { IfOk result (λ arg. arg.global ≡ false) }
    ensures told { IfOk result (λ arg. is_told (rule_of arg) ≡ tells argument.now) }
{
    let arg = by_default(taking(alloc, argument), argument.default).help(argument.help);
    match argument.needs {
        Some(name) => excluding(arg.requires_arg(name)?, argument.excludes),
        None => excluding(arg, argument.excludes),
    }
}

// The argument, with this value if it isn't given.
fn by_default<'a>(arg: Arg<'a>, default: Option<&'a str>) -> Arg<'a>
    ensures told { is_told (rule_of result) ≡ with_default default.entry (is_told (rule_of arg.entry)) }
    ensures local { result.global ≡ arg.entry.global }
{
    match default {
        Some(value) => arg.default_value(value),
        None => arg,
    }
}

// The argument, which is a mistake beside those of these names.
fn excluding<'a>(mut arg: Arg<'a>, names: &[&'a str]) -> Result<Arg<'a>, AllocError>
    ensures { IfOk result (IsSame arg.entry) }
{
    for name in names {
        arg = arg.conflicts_with(name)?;
    }
    Ok(arg)
}

// An argument that takes what this one takes.
fn taking<'a>(alloc: Global, argument: &Argument) -> Arg<'a>
    ensures { IsNamed result argument.now }
{
    match argument.takes {
        Takes::File => plain(alloc, argument).action(ArgAction::Set),
        Takes::Files => plain(alloc, argument)
            .num_args(1..)
            .action(ArgAction::Append),
        Takes::Nothing => plain(alloc, argument)
            .long(argument.name)
            .action(ArgAction::SetTrue),
        Takes::Word => option(alloc, argument),
        Takes::Name(names) => option(alloc, argument).value_parser(names),
        Takes::Number(least, most) => option(alloc, argument).value_parser(clap::value_parser!(
            u32
        ).range(i64::from(least)..=i64::from(most))),
        Takes::Index => option(alloc, argument).value_parser(clap::value_parser!(u64)),
    }
}

// An option that takes a value.
fn option<'a>(alloc: Global, argument: &Argument) -> Arg<'a>
    ensures { IsNamed result argument.now }
{
    plain(alloc, argument)
        .long(argument.name)
        .value_name(argument.value)
        .action(ArgAction::Set)
}

// An argument of this name, which has to be given if the other has to.
fn plain<'a>(alloc: Global, argument: &Argument) -> Arg<'a>
    ensures { IsNamed result argument.now }
{
    Arg::new(alloc, argument.name).required(argument.is_required)
}
