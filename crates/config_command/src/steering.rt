//! The options that steer a proxy: those of `run`, and the arguments of `ctl`.

use crate::commands::told;
use clap::{Arg, ArgAction, ArgMatches, Command};
use std::alloc::{AllocError, Global};

/// The means by which a running proxy is steered.
#[derive(Debug, PartialEq, Eq, Drop)]
pub struct ControlWords {
    /// The path of the control socket. `None`: there is none.
    pub path: Option<String>,
    /// The proxy stops in an orderly way when standard input ends.
    pub ends_with_input: bool,
}

/// The command that a proxy is sent on its control socket.
#[derive(Debug, PartialEq, Eq, Drop)]
pub struct SentCommand {
    pub path: String,
    pub words: Vec<String>,
}

const CONTROL: &str = "A socket for dueproxy ctl: who runs the proxy may connect";

const STOP: &str = "Stops in an orderly way when standard input ends";

const HELP: &str = "\
The commands:
  state [--json]         how the servers and the clients stand
  limit SERVER N         SERVER serves at most N at once; 0: any number
  limit SERVER closed    SERVER takes nobody
  drain SERVER [--wait]  the same; with --wait answered once it serves nobody
  ready SERVER           SERVER takes as many as the configuration says
  pause                  no server takes anybody: requests wait, in their order
  resume                 those take as many again that took some before
  reports                the reports of the window up to now
  clients                how many clients there are
  reopen                 the files of the logs are opened anew by their names
  stop [--within MS]     nobody new comes; the proxy ends once who is there was
                         served, or after MS milliseconds; then ctl returns
  help                   the commands
HAProxy's show stat, show servers state, set maxconn server and set server .. state
are understood too.

The statuses: 0; 1 no proxy listens there, or the answer begins with error:; 2 these words.

For example, dueproxy ctl /run/dueproxy.sock drain a --wait";

/// Adds the options for steering to the command `run`.
pub(crate) fn with_controls<'a>(
    alloc: Global,
    command: Command<'a>,
) -> Result<Command<'a>, AllocError> {
    let control = Arg::new(alloc, "control")
        .long("control")
        .action(ArgAction::Set)
        .value_name("PATH")
        .help(CONTROL);
    let stop = Arg::new(alloc, "stop-with-stdin")
        .long("stop-with-stdin")
        .action(ArgAction::SetTrue)
        .help(STOP);
    command.arg(control)?.arg(stop)
}

/// Returns the command `ctl`.
pub(crate) fn ctl<'a>(alloc: Global) -> Result<Command<'a>, AllocError> {
    let about = "Tells a proxy that runs something, or asks it, on its control socket";
    let path = Arg::new(alloc, "PATH")
        .required(true)
        .action(ArgAction::Set)
        .help("The socket that run --control made");
    let command = Arg::new(alloc, "COMMAND")
        .required(true)
        .action(ArgAction::Set)
        .num_args(1..)
        .trailing_var_arg(true)
        .allow_hyphen_values(true)
        .help("What it is told or asked");
    told(alloc, "ctl", about, HELP).arg(path)?.arg(command)
}

/// Returns what the options of `run` say of its steering.
pub(crate) fn controls_of(alloc: Global, words: &ArgMatches) -> Result<ControlWords, AllocError> {
    let path = match words.get_str("control") {
        None => None,
        Some(path) => Some(String::from_str(alloc, path)?),
    };
    Ok(ControlWords {
        path,
        ends_with_input: words.get_flag("stop-with-stdin"),
    })
}

/// Returns what the arguments of `ctl` say.
pub(crate) fn order_of(alloc: Global, words: &ArgMatches) -> Result<SentCommand, AllocError> {
    let path = String::from_str(alloc, words.get_str("PATH").unwrap_or_default())?;
    let mut all = Vec::new(alloc);
    for word in words.get_strs("COMMAND").unwrap_or_default() {
        all.push(String::from_str(alloc, word)?)?;
    }
    Ok(SentCommand { path, words: all })
}
