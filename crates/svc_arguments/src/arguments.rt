//! The arguments of the subcommands, by their names.

use crate::argument::{Argument, Takes};
use svc_base::limits::MAX_BURST_TURNS;

/// The greatest number of tasks that may be asked of the plain runner.
const MAX_TASKS: u32 = 1_000_000;

/// An option that takes a number, and may be left out.
pub(crate) const OPTION: Argument = Argument {
    name: "",
    takes: Takes::Number(0, u32::MAX),
    value: "N",
    default: None,
    is_required: false,
    needs: None,
    excludes: &[],
    help: "",
};

/// A file.
pub(crate) const FILE: Argument = Argument {
    takes: Takes::File,
    is_required: true,
    ..OPTION
};

pub(crate) const IMAGE: Argument = Argument {
    name: "IMAGE",
    help: "The image's file",
    ..FILE
};

pub(crate) const EVENTS_FILE: Argument = Argument {
    name: "EVENTS",
    help: "The script's file",
    ..FILE
};

pub(crate) const TRACE_FILE: Argument = Argument {
    name: "TRACE",
    help: "The trace's file",
    ..FILE
};

pub(crate) const TEXT: Argument = Argument {
    name: "FILE",
    help: "The first text's file",
    ..FILE
};

// Other texts, and the image last.
pub(crate) const MADE_IMAGE: Argument = Argument {
    name: "IMAGE",
    takes: Takes::Files,
    help: "The files of the other texts, if there are any, and last the file that the image is saved in",
    ..FILE
};

pub(crate) const EXPORTED: Argument = Argument {
    name: "FILE",
    help: "The file that is saved for the viewer",
    ..FILE
};

pub(crate) const TRACE: Argument = Argument {
    name: "trace",
    takes: Takes::Word,
    value: "FILE",
    help: "Saves the trace in this file: a CSV text with a row for each event",
    ..OPTION
};

pub(crate) const SCRIPT_FILE: Argument = Argument {
    name: "script",
    help: "Saves the script that leads to the trace in this file: a CSV text with a row for each step",
    ..TRACE
};

pub(crate) const IGNORE: Argument = Argument {
    name: "ignore",
    takes: Takes::Name(&["served"]),
    value: "COLUMNS",
    help: "Takes any supplier of a read, in the columns served and from, and compares the others",
    ..OPTION
};

pub(crate) const ROW: Argument = Argument {
    name: "row",
    takes: Takes::Word,
    value: "LABEL",
    help: "Prints one row of a table instead, beginning with this label",
    ..OPTION
};

// The same row, beside the tables of a profile.
pub(crate) const ROW_OF_PROFILE: Argument = Argument {
    excludes: &["by"],
    ..ROW
};

pub(crate) const HEADER: Argument = Argument {
    name: "header",
    takes: Takes::Nothing,
    needs: Some("row"),
    help: "Prints the names of the columns before the row",
    ..OPTION
};

pub(crate) const BY: Argument = Argument {
    name: "by",
    takes: Takes::Name(&["task", "unit", "word", "pair", "supplier", "pc"]),
    value: "TABLE",
    help: "Prints a table instead: by task, unit, word, pair of tasks, supplier or instruction",
    ..OPTION
};

pub(crate) const NAMES: Argument = Argument {
    name: "names",
    takes: Takes::Word,
    value: "FILE",
    help: "Puts the names of this table at the ends of rows, by the address that a row has",
    ..OPTION
};

// The names of a listing.
pub(crate) const NAMES_OF_LISTING: Argument = Argument {
    help: "Puts the names of this table into the comments, by their addresses",
    ..NAMES
};

// The names of a text.
pub(crate) const NAMES_OF_TEXT: Argument = Argument {
    help: "Saves the table of the texts' labels in this file: a CSV text with the header name,address",
    ..NAMES
};

// The same names, beside the row of a profile.
pub(crate) const NAMES_OF_PROFILE: Argument = Argument {
    excludes: &["row"],
    ..NAMES
};

pub(crate) const AT: Argument = Argument {
    name: "at",
    takes: Takes::Index,
    help: "Shows the machine after this many of the trace's entries; without it, after all",
    ..OPTION
};

pub(crate) const DETAIL: Argument = Argument {
    name: "detail",
    takes: Takes::Nothing,
    help: "Shows each task's place and registers, and the order of each word's versions",
    ..OPTION
};

pub(crate) const MOVES: Argument = Argument {
    name: "moves",
    takes: Takes::Nothing,
    help: "Shows what each unit can do next, and the number of the refusal where it can't",
    ..OPTION
};

pub(crate) const MEMORY: Argument = Argument {
    name: "memory",
    takes: Takes::Word,
    value: "A-B",
    help: "Shows the memory of the words A to B, or of A alone, also where no cache holds them",
    ..OPTION
};

pub(crate) const FORMAT: Argument = Argument {
    name: "format",
    takes: Takes::Name(&["chrome", "vcd"]),
    value: "FORMAT",
    is_required: true,
    help: "What the viewer reads: chrome for Perfetto and chrome://tracing, vcd for GTKWave and Surfer",
    ..OPTION
};

pub(crate) const WORDS: Argument = Argument {
    name: "words",
    takes: Takes::Word,
    value: "A-B",
    help: "Tells the committed values of the words A to B, or of A alone, in vcd",
    ..OPTION
};

pub(crate) const TO: Argument = Argument {
    name: "to",
    takes: Takes::Index,
    help: "Counts this many of the trace's entries; without it, all",
    ..OPTION
};

pub(crate) const TASKS: Argument = Argument {
    name: "tasks",
    takes: Takes::Number(0, MAX_TASKS),
    value: "K",
    is_required: true,
    help: "How many tasks to run at most, from the first on: 0 to 1000000",
    ..OPTION
};

// The same number, for tasks that are followed.
pub(crate) const TASKS_FOLLOWED: Argument = Argument {
    default: Some("1000000"),
    is_required: false,
    help: "How many tasks to follow at most, from the first on: 0 to 1000000",
    ..TASKS
};

// The tables of needs.
pub(crate) const BY_OF_NEEDS: Argument = Argument {
    takes: Takes::Name(&["task", "pair", "word"]),
    help: "Prints a table instead: by task, by task and one that it needs, or by word that is needed or written",
    ..BY
};

pub(crate) const DOT: Argument = Argument {
    name: "dot",
    takes: Takes::Nothing,
    excludes: &["by"],
    help: "Prints the graph of tasks instead, for Graphviz, with an edge for each task and one that it needs",
    ..OPTION
};

pub(crate) const EXPLAIN: Argument = Argument {
    name: "explain",
    takes: Takes::Nothing,
    help: "Says why, in lines behind the one that names a fault",
    ..OPTION
};

pub(crate) const SCHEDULE: Argument = Argument {
    name: "schedule",
    takes: Takes::Name(&["rotate", "oldest", "youngest", "random"]),
    value: "ORDER",
    help: "Runs all units in one thread, in this order, so that the run can be repeated",
    ..OPTION
};

pub(crate) const SEED: Argument = Argument {
    name: "seed",
    needs: Some("schedule"),
    help: "The seed of a random order: 0 to 4294967295; without it, 0",
    ..OPTION
};

pub(crate) const BURST: Argument = Argument {
    name: "burst",
    takes: Takes::Number(1, MAX_BURST_TURNS),
    needs: Some("schedule"),
    help: "The most turns of a unit in a step of a schedule: 1 to 63; without it, 63",
    ..OPTION
};

pub(crate) const AFTER: Argument = Argument {
    name: "after",
    takes: Takes::Word,
    value: "FILE",
    needs: Some("schedule"),
    help: "Does the events of this script first, and goes on by the schedule from there",
    ..OPTION
};

// The same number, for a unit's move in any schedule.
pub(crate) const BURST_OF_MOVES: Argument = Argument {
    needs: None,
    default: Some("63"),
    help: "The most turns of a unit in a move: 1 to 63",
    ..BURST
};

pub(crate) const STATES: Argument = Argument {
    name: "states",
    takes: Takes::Number(1, u32::MAX),
    default: Some("1000000"),
    help: "How many standings are followed at most: 1 to 4294967295",
    ..OPTION
};

pub(crate) const FIND: Argument = Argument {
    name: "find",
    takes: Takes::Word,
    value: "WHAT[,TASK[,WORD]]",
    help: "Looks for one observation instead, and prints its row",
    ..OPTION
};

pub(crate) const OF: Argument = Argument {
    name: "of",
    takes: Takes::Word,
    value: "TRACE",
    excludes: &["find", "states", "burst"],
    help: "Prints what this trace shows instead, with the number of the entry",
    ..OPTION
};

// The trace of a schedule that shows it.
pub(crate) const TRACE_OF_FINDING: Argument = Argument {
    needs: Some("find"),
    help: "Saves the trace of a schedule that shows it in this file",
    ..TRACE
};

pub(crate) const UNITS: Argument = Argument {
    name: "units",
    default: Some("4"),
    help: "How many processing units there are: 1 to 16",
    ..OPTION
};

pub(crate) const SETS: Argument = Argument {
    name: "sets",
    default: Some("16"),
    help: "How many sets each unit's cache has: a power of two, 1 to 256",
    ..OPTION
};

pub(crate) const WAYS: Argument = Argument {
    name: "ways",
    default: Some("2"),
    help: "How many lines a set holds: 1 to 4",
    ..OPTION
};

pub(crate) const EVENTS: Argument = Argument {
    name: "events",
    default: Some("100000"),
    help: "How many events are accepted at most: 1 to 1000000",
    ..OPTION
};

pub(crate) const TURNS: Argument = Argument {
    name: "turns",
    default: Some("1000000"),
    help: "How many turns each unit takes at most, with an event or two in each: 1 to 10000000",
    ..OPTION
};

// The same number, where nothing is run by it.
pub(crate) const IDLE_TURNS: Argument = Argument {
    help: "Taken as run takes it, and without effect here: 1 to 10000000",
    ..TURNS
};
