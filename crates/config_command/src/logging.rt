//! The options of `run` for its logs.

use clap::{Arg, ArgAction, ArgMatches, Command};
use std::alloc::{AllocError, Global};

/// The logs to write and their files: `-` is standard output for exchanges, and standard error for events.
#[derive(Debug, PartialEq, Eq, Drop)]
pub struct LogWords {
    /// The file with a line for each exchange.
    pub access: Option<String>,
    /// Each line is one JSON value.
    pub is_json: bool,
    /// The file with a line for each event.
    pub events: Option<String>,
}

const ACCESS: &str = "A line for each request, when it has ended; - is standard output";

const FORMAT: &str = "text, as HAProxy's option httplog, or json";

static FORMATS: [&str; 2] = ["text", "json"];

const EVENTS: &str = "A line when a server goes up or down, a queue fills, ..; - is standard error";

/// Adds the options for logs to the command `run`.
pub(crate) fn with_logs<'a>(
    alloc: Global,
    command: Command<'a>,
) -> Result<Command<'a>, AllocError> {
    let format = named(alloc, "access-log-format")
        .value_name("FORMAT")
        .default_value("text")
        .value_parser(FORMATS.as_slice())
        .help(FORMAT);
    command
        .arg(named(alloc, "access-log").value_name("FILE").help(ACCESS))?
        .arg(format)?
        .arg(named(alloc, "event-log").value_name("FILE").help(EVENTS))
}

fn named<'a>(alloc: Global, name: &'a str) -> Arg<'a> {
    Arg::new(alloc, name).long(name).action(ArgAction::Set)
}

/// Returns what the options of `run` say of the logs.
pub(crate) fn logs_of(alloc: Global, words: &ArgMatches) -> Result<LogWords, AllocError> {
    Ok(LogWords {
        access: file_of(alloc, words, "access-log")?,
        is_json: words.get_str("access-log-format") == Some("json"),
        events: file_of(alloc, words, "event-log")?,
    })
}

fn file_of(alloc: Global, words: &ArgMatches, name: &str) -> Result<Option<String>, AllocError> {
    match words.get_str(name) {
        None => Ok(None),
        Some(file) => Ok(Some(String::from_str(alloc, file)?)),
    }
}
