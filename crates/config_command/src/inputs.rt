//! The argument FILE of commands that also read standard input.

use clap::{Arg, ArgAction, ArgMatches};
use std::alloc::{AllocError, Global};

/// The source of a script or a trace.
#[derive(Debug, PartialEq, Eq, Drop)]
pub enum Input {
    /// Standard input, since there is no argument.
    Unnamed,
    /// Standard input, which `-` names.
    Standard,
    /// The file with this name.
    File(String),
}

/// The optional argument FILE.
pub(crate) fn optional_file<'a>(alloc: Global) -> Arg<'a> {
    Arg::new(alloc, "FILE")
        .action(ArgAction::Set)
        .help("What is read; - or no word: standard input")
}

/// Returns the input that the argument FILE names.
pub(crate) fn input_of(alloc: Global, words: &ArgMatches) -> Result<Input, AllocError> {
    match words.get_str("FILE") {
        None => Ok(Input::Unnamed),
        Some("-") => Ok(Input::Standard),
        Some(name) => Ok(Input::File(String::from_str(alloc, name)?)),
    }
}
