//! What the words of a command line ask for.

ghost use Rattle.std.specs.Prelude.{◌<◌, ◌⊎◌, length, IfOk, IsTrue};
ghost use Rattle.svc_command.specs.Asked.{IsBuiltInRun, IsHelpWord, IsVersionWord, MayAsk, Names};
ghost use Rattle.svc_command.specs.Given.{Gives};
ghost use Rattle.svc_command.specs.Line.{Has, IsNamed, texts};

use crate::line::Line;
use crate::requests::{
    assemble, check, depend, draw, explore, export, list, profile, run, script, sequential, show,
};
use clap::error::ErrorKind;
use clap::{ArgMatches, Error};
use std::alloc::Global;
use svc_arguments::command::command;
use svc_base::Config;
use svc_program::{Fault, Request, Run, Source};

/// What these words ask for; the first is the program's name.
///
/// Errors: a mistake in the words, with their parser's text, before one in the configuration.
pub fn request_of<'a>(alloc: Global, words: &'a [String]) -> Result<Request<'a>, Fault>
    ensures { IfOk result (MayAsk (texts words.now)) }
{
    if words.len() <= 1 {
        return built_in();
    }
    match command(alloc)?.try_get_matches_from(words) {
        Ok(matches) => asked(alloc, words, &matches),
        Err(error) => unread(alloc, words, &error),
    }
}

// The run of the built-in image, by one unit.
fn built_in<'a>() -> Result<Request<'a>, Fault>
    ensures { IfOk result IsBuiltInRun }
{
    Ok(Request::Run(Run {
        image: Source::BuiltIn,
        config: Config::new(1, 16, 2, 100_000, 1_000_000)?,
        schedule: None,
        trace: None,
        row: None,
    }))
}

// What the parser answers without a subcommand: help or the version, or a mistake.
fn unread<'a>(alloc: Global, words: &[String], error: &Error) -> Result<Request<'a>, Fault>
    ensures named { IfOk result (Names (texts words.now)) }
    ensures gives { IfOk result (Gives (texts words.now)) }
{
    let text = format!(in alloc; "{error}")?;
    match error.kind() {
        ErrorKind::DisplayHelp if asks_for_help(words) => Ok(Request::Help(text)),
        ErrorKind::DisplayVersion if asks_for_version(words) => Ok(Request::Version),
        _ => Err(Fault::CommandLine(text)),
    }
}

// One of the words asks for help.
fn asks_for_help(words: &[String]) -> bool
    ensures { IsTrue result → Has IsHelpWord (texts words.now) }
{
    for word in words {
        if matches!(word.as_str(), "help" | "-h" | "--help") {
            return true;
        }
    }
    false
}

// One of the words asks for the version.
fn asks_for_version(words: &[String]) -> bool
    ensures { IsTrue result → Has IsVersionWord (texts words.now) }
{
    for word in words {
        if matches!(word.as_str(), "-V" | "--version") {
            return true;
        }
    }
    false
}

// The first word after the program's name is this one.
fn is_named(words: &[String], name: &str) -> bool
    ensures { IsTrue result → IsNamed name.now (texts words.now) }
{
    match words.get(1) {
        Some(word) => word.as_str() == name,
        None => false,
    }
}

// What the subcommand asks for.
fn asked<'a>(
    alloc: Global,
    words: &[String],
    matches: &ArgMatches<'a>,
) -> Result<Request<'a>, Fault>
    ensures named { IfOk result (Names (texts words.now)) }
    ensures gives { IfOk result (Gives (texts words.now)) }
{
    match matches.subcommand() {
        Some((name, given)) if is_named(words, name) => {
            asked_by(alloc, name, Line { words, given })
        }
        // The parser accepts no line that begins otherwise.
        _ => Err(Fault::File),
    }
}

// What the subcommand of this name asks for. A match of all names in one function would cost several times as much to
// prove.
fn asked_by<'a>(alloc: Global, name: &str, line: Line<'_, 'a>) -> Result<Request<'a>, Fault>
    ensures named { IsNamed name.now (texts line.entry.words.now)
        → IfOk result (Names (texts line.entry.words.now)) }
    ensures gives { IfOk result (Gives (texts line.entry.words.now)) }
{
    match name {
        "run" => run(alloc, line),
        "seq" => sequential(line),
        "depend" => depend(line),
        "explore" => explore(alloc, line),
        _ => asked_by_files(alloc, name, line),
    }
}

// What a subcommand asks for that plays a script or replays a trace.
fn asked_by_files<'a>(alloc: Global, name: &str, line: Line<'_, 'a>) -> Result<Request<'a>, Fault>
    ensures named { IsNamed name.now (texts line.entry.words.now)
        → IfOk result (Names (texts line.entry.words.now)) }
    ensures gives { IfOk result (Gives (texts line.entry.words.now)) }
{
    match name {
        "script" => script(line),
        "check" => check(line),
        "profile" => profile(line),
        "show" => show(alloc, line),
        "draw" => draw(alloc, line),
        "export" => export(alloc, line),
        _ => asked_by_text(alloc, name, line),
    }
}

// What a subcommand asks for that makes an image or lists one.
fn asked_by_text<'a>(alloc: Global, name: &str, line: Line<'_, 'a>) -> Result<Request<'a>, Fault>
    ensures named { IsNamed name.now (texts line.entry.words.now)
        → IfOk result (Names (texts line.entry.words.now)) }
    ensures gives { IfOk result (Gives (texts line.entry.words.now)) }
{
    match name {
        "assemble" => assemble(alloc, line),
        "list" => list(line),
        // The parser accepts no other subcommand.
        _ => Err(Fault::File),
    }
}
