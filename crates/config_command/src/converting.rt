//! The arguments of `convert`.

use crate::commands::told;
use clap::{Arg, ArgAction, ArgMatches, Command};
use std::alloc::{AllocError, Global};

/// The configuration to convert, and the sections that the arguments name.
#[derive(Debug, PartialEq, Eq, Drop)]
pub struct Sections {
    pub file: String,
    pub frontend: Option<String>,
    pub backend: Option<String>,
}

const HELP: &str = "\
Makes of a configuration of HAProxy one that check takes, and writes it to standard
output: a frontend, the backend of its default_backend and their defaults become one
listen. A line that has no place becomes a comment, with the reason. On standard
error stands what changes for clients or servers, the gravest first.

Without --frontend the first frontend or listen of HTTP with servers is taken.

The statuses: 0 where nothing changes; 6 where something does; 3 where no listen comes
of it; 1 no memory, read fault, write fault; 2 these words.

For example, dueproxy convert /etc/haproxy/haproxy.cfg --frontend web > web.cfg";

/// Returns the command `convert`.
pub(crate) fn convert<'a>(alloc: Global, file: Arg<'a>) -> Result<Command<'a>, AllocError> {
    let about = "Makes of a configuration of HAProxy one that run takes, and says what changes";
    told(alloc, "convert", about, HELP)
        .arg(file)?
        .arg(section(alloc, "frontend").help("The frontend or listen where clients come in"))?
        .arg(section(alloc, "backend").help("The backend or listen with the servers"))
}

fn section<'a>(alloc: Global, name: &'a str) -> Arg<'a> {
    Arg::new(alloc, name)
        .long(name)
        .action(ArgAction::Set)
        .value_name("NAME")
}

/// Returns what the arguments of `convert` name.
pub(crate) fn sections_of(alloc: Global, words: &ArgMatches) -> Result<Sections, AllocError> {
    let file = String::from_str(alloc, words.get_str("FILE").unwrap_or_default())?;
    let frontend = name_of(alloc, words, "frontend")?;
    let backend = name_of(alloc, words, "backend")?;
    Ok(Sections {
        file,
        frontend,
        backend,
    })
}

fn name_of(alloc: Global, words: &ArgMatches, option: &str) -> Result<Option<String>, AllocError> {
    match words.get_str(option) {
        None => Ok(None),
        Some(name) => Ok(Some(String::from_str(alloc, name)?)),
    }
}
