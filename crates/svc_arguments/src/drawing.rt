//! The arguments of `draw`, by their names.

use crate::argument::{Argument, Takes};
use crate::arguments::{FILE, NAMES, OPTION};

pub(crate) const PICTURE: Argument = Argument {
    name: "FILE.svg",
    help: "The file that the picture is saved in",
    ..FILE
};

pub(crate) const FROM: Argument = Argument {
    name: "from",
    default: Some("0"),
    help: "The first entry to show, counted from 0",
    ..OPTION
};

pub(crate) const COUNT: Argument = Argument {
    name: "count",
    takes: Takes::Number(1, u32::MAX),
    help: "How many entries to show at most: 1 to 4294967295; without it, all from the first one on",
    ..OPTION
};

pub(crate) const ROWS: Argument = Argument {
    name: "rows",
    takes: Takes::Nothing,
    help: "Saves what the picture shows as rows instead",
    ..OPTION
};

// The names of a picture.
pub(crate) const NAMES_OF_PICTURE: Argument = Argument {
    excludes: &["rows"],
    help: "Tells addresses and words by the names of this table, too",
    ..NAMES
};

pub(crate) const UNIT: Argument = Argument {
    name: "unit",
    takes: Takes::Word,
    value: "A-B",
    help: "Shows the bars and marks of the units A to B alone, or of A",
    ..OPTION
};

pub(crate) const TASK: Argument = Argument {
    name: "task",
    help: "Shows the bars and marks of the tasks A to B alone, or of A",
    ..UNIT
};

pub(crate) const WORD: Argument = Argument {
    name: "word",
    help: "Leaves out loads, stores, replacements and arrows of other words than A to B, or than A",
    ..UNIT
};

pub(crate) const VALUES: Argument = Argument {
    name: "values",
    takes: Takes::Name(&["auto", "all", "none"]),
    value: "WHICH",
    help: "Beside which marks values stand: those with room, all, or none; without it, those with room",
    ..OPTION
};

pub(crate) const COMPACT: Argument = Argument {
    name: "compact",
    takes: Takes::Nothing,
    excludes: &["values"],
    help: "Draws lanes a third as high, without names, values and other words",
    ..OPTION
};
