//! Dueproxy: a reverse proxy that queues requests by class and due date, with HAProxy's keywords.
//!
//! Exit statuses: 0; 1 no memory, or a read or a write failed; 2 a fault in the command line; 3 one
//! in the configuration; 5 one in the script; 6 a configuration was converted, and something
//! changes.
#![tactic(auto)]

mod admin;
mod controls;
mod converting;
mod inputs;
mod logs;
mod reasons;
mod replaying;
mod serve;
mod show;
mod viewing;

use config_command::{Subcommand, parse};
use config_files::{CheckOutput, check, check_in_full};
use converting::convert_file;
use demo::Looks;
use replaying::replay_input;
use run_control::ask as tell_proxy;
use serve::serve_file;
use show::show;
use std::env;
use std::io::IsTerminal;
use std::process::ExitCode;
use viewing::{draw_input, tell_input};

const NO_MEMORY: u8 = 1;

const USAGE: u8 = 2;

fn main(rt: HostRuntime) -> ExitCode {
    let Ok(words) = env::args(&rt) else {
        let _ = rt.eprintln("a word of the command line is no text");
        return ExitCode::from(USAGE);
    };
    let Ok(words) = words.collect::<Vec<String>>(rt.alloc()) else {
        let _ = rt.eprintln("no memory");
        return ExitCode::from(NO_MEMORY);
    };
    let status = match parse(&rt, &words) {
        Subcommand::Run(file, numbers, words) => serve_file(rt, &rt, &file, numbers, words),
        Subcommand::Demo(keep) => show(&rt, looks_of(&rt), keep),
        Subcommand::Replay(input) => replay_input(&rt, &input),
        Subcommand::Check(file) => check(&rt, &file, check_output_of(&rt)),
        Subcommand::Explain(file) => check_in_full(&rt, &file),
        Subcommand::Draw(input, only) => draw_input(&rt, &input, &only),
        Subcommand::Tell(input, ticket) => tell_input(&rt, &input, ticket),
        Subcommand::Convert(sections) => convert_file(&rt, &sections),
        Subcommand::Control(order) => tell_proxy(&rt, &order.path, &order.words),
        Subcommand::Nothing(status) => status,
    };
    ExitCode::from(status)
}

// At a terminal the advice is printed to standard error.
fn check_output_of(rt: &HostRuntime) -> CheckOutput {
    if rt.stderr().is_terminal() {
        CheckOutput::Advice
    } else {
        CheckOutput::Nothing
    }
}

// Uses colours where standard output is a terminal and the user hasn't refused them.
fn looks_of(rt: &HostRuntime) -> Looks {
    let refused = match env::var(rt, "NO_COLOR") {
        Ok(word) => !word.is_empty(),
        Err(_) => false,
    };
    if rt.stdout().is_terminal() && !refused {
        Looks::Coloured
    } else {
        Looks::Plain
    }
}
