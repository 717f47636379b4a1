use crate::commands::commands;
use crate::converting::{Sections, sections_of};
use crate::inputs::{Input, input_of};
use crate::logging::{LogWords, logs_of};
use crate::running::{RANGES, RunNumbers, numbers_of};
use crate::steering::{ControlWords, SentCommand, controls_of, order_of};
use crate::watching::{AdminWords, admin_of};
use clap::error::ErrorKind;
use clap::{ArgMatches, Command, Error};
use due_key::Class;
use proxy_words::{long_number, signed_long_number};
use std::alloc::{AllocError, Global};

/// The name of the queue and the class to which a picture is limited.
#[derive(Debug, PartialEq, Eq, Drop)]
pub struct DrawnQueue {
    pub queue: String,
    pub class: Class,
}

/// The parts of a proxy beside its clients and servers.
#[derive(Debug, PartialEq, Eq, Drop)]
pub struct ServiceWords {
    pub controls: ControlWords,
    pub logs: LogWords,
    pub admin: AdminWords,
}

/// What the command line asks for.
#[derive(Debug, PartialEq, Eq, Drop)]
pub enum Subcommand {
    /// Serve as the configuration in the file with this name says, with these sizes.
    Run(String, RunNumbers, ServiceWords),
    /// Run a script.
    Replay(Input),
    /// Show the proxy at work; the flag says whether it goes on afterwards.
    Demo(bool),
    /// Check the configuration in the file with this name.
    Check(String),
    /// Check it, and explain every faulty line and its replacement.
    Explain(String),
    /// Draw a script or a trace: all of it, or one queue and class.
    Draw(Input, Option<DrawnQueue>),
    /// Tell the story of this ticket.
    Tell(Input, u64),
    /// Convert a configuration of HAProxy to one of this proxy.
    Convert(Sections),
    /// Send a command to a running proxy.
    Control(SentCommand),
    /// Nothing more: help or an error was printed, and this is the exit status.
    Nothing(u8),
}

/// Reads the words of the command line, the program's name first, and prints help or what is wrong with them.
pub fn parse(rt: &(impl Print + Eprint + AllocGlobal), words: &[String]) -> Subcommand {
    match commands(rt.alloc()) {
        Ok(command) => asked_from(rt, command, words),
        Err(_) => no_memory(rt),
    }
}

fn asked_from<'a>(
    rt: &(impl Print + Eprint + AllocGlobal),
    command: Command<'a>,
    words: &'a [String],
) -> Subcommand {
    match command.try_get_matches_from(words) {
        Err(error) => refuse(rt, error),
        Ok(matches) => asked_by(rt, &matches),
    }
}

fn asked_by(rt: &(impl Eprint + AllocGlobal), matches: &ArgMatches) -> Subcommand {
    match matches.subcommand() {
        Some((name, words)) => asked_of(rt, name, words),
        // clap refuses a command line without a subcommand.
        None => Subcommand::Nothing(2),
    }
}

// Returns what the arguments of a subcommand ask for.
fn asked_of(rt: &(impl Eprint + AllocGlobal), name: &str, words: &ArgMatches) -> Subcommand {
    match name {
        "run" => run_of(rt, words),
        "replay" => replay_of(rt, words),
        "demo" => Subcommand::Demo(words.get_flag("keep")),
        "check" => check_of(rt, words),
        "draw" => draw_of(rt, words),
        "explain" => tell_of(rt, words),
        "convert" => convert_of(rt, words),
        "ctl" => order(rt, words),
        // clap refuses all other words.
        _ => Subcommand::Nothing(2),
    }
}

fn run_of(rt: &(impl Eprint + AllocGlobal), words: &ArgMatches) -> Subcommand {
    let Some(numbers) = numbers_of(words) else {
        let _ = rt.eprintln(RANGES);
        return Subcommand::Nothing(2);
    };
    let Ok(beside) = service_words_of(rt.alloc(), words) else {
        return no_memory(rt);
    };
    match String::from_str(rt.alloc(), words.get_str("FILE").unwrap_or_default()) {
        Ok(file) => Subcommand::Run(file, numbers, beside),
        Err(_) => no_memory(rt),
    }
}

fn service_words_of(alloc: Global, words: &ArgMatches) -> Result<ServiceWords, AllocError> {
    Ok(ServiceWords {
        controls: controls_of(alloc, words)?,
        logs: logs_of(alloc, words)?,
        admin: admin_of(alloc, words)?,
    })
}

fn order(rt: &(impl Eprint + AllocGlobal), words: &ArgMatches) -> Subcommand {
    match order_of(rt.alloc(), words) {
        Ok(order) => Subcommand::Control(order),
        Err(_) => no_memory(rt),
    }
}

fn replay_of(rt: &(impl Eprint + AllocGlobal), words: &ArgMatches) -> Subcommand {
    match input_of(rt.alloc(), words) {
        Ok(input) => Subcommand::Replay(input),
        Err(_) => no_memory(rt),
    }
}

fn convert_of(rt: &(impl Eprint + AllocGlobal), words: &ArgMatches) -> Subcommand {
    match sections_of(rt.alloc(), words) {
        Ok(sections) => Subcommand::Convert(sections),
        Err(_) => no_memory(rt),
    }
}

fn check_of(rt: &(impl Eprint + AllocGlobal), words: &ArgMatches) -> Subcommand {
    let explain = words.get_flag("explain");
    match String::from_str(rt.alloc(), words.get_str("FILE").unwrap_or_default()) {
        Ok(file) if explain => Subcommand::Explain(file),
        Ok(file) => Subcommand::Check(file),
        Err(_) => no_memory(rt),
    }
}

// A drawing of all, or of the queue and class after `--of`.
fn draw_of(rt: &(impl Eprint + AllocGlobal), words: &ArgMatches) -> Subcommand {
    let Ok(input) = input_of(rt.alloc(), words) else {
        return no_memory(rt);
    };
    let Some([queue, class, ..]) = words.get_strs("of") else {
        return Subcommand::Draw(input, None);
    };
    let Some(class) = signed_long_number(class.as_bytes()) else {
        let _ = rt.eprintln("the CLASS of --of is a number");
        return Subcommand::Nothing(2);
    };
    let Ok(queue) = String::from_str(rt.alloc(), queue) else {
        return no_memory(rt);
    };
    let class = Class::clamp(class);
    Subcommand::Draw(input, Some(DrawnQueue { queue, class }))
}

fn tell_of(rt: &(impl Eprint + AllocGlobal), words: &ArgMatches) -> Subcommand {
    let ticket = words.get_str("TICKET").unwrap_or_default();
    let Some(ticket) = long_number(ticket.as_bytes()) else {
        let _ = rt.eprintln("a TICKET is a number");
        return Subcommand::Nothing(2);
    };
    match input_of(rt.alloc(), words) {
        Ok(input) => Subcommand::Tell(input, ticket),
        Err(_) => no_memory(rt),
    }
}

// Prints help or the error.
fn refuse(rt: &(impl Print + Eprint + AllocGlobal), error: Error) -> Subcommand {
    if error.kind() == ErrorKind::OutOfMemory {
        return no_memory(rt);
    }
    let _ = error.print(rt);
    Subcommand::Nothing(if error.exit_code() == 0 { 0 } else { 2 })
}

// Says that memory is short.
fn no_memory(rt: &impl Eprint) -> Subcommand {
    let _ = rt.eprintln("no memory");
    Subcommand::Nothing(1)
}
