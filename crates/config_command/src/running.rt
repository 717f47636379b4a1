//! The options of `run`.

use crate::commands::told;
use crate::logging::with_logs;
use crate::steering::with_controls;
use crate::watching::with_admin;
use clap::{Arg, ArgAction, ArgMatches, Command};
use proxy_words::number;
use std::alloc::{AllocError, Global};

/// The sizes of a proxy, as the options give them; they aren't checked yet.
#[derive(Clone, Copy, Debug, PartialEq, Eq)]
pub struct RunNumbers {
    pub workers: Option<u32>,
    pub loops: Option<u32>,
    pub waiting: Option<u32>,
    pub places: u32,
    pub requests: u32,
    /// The longest pause of a client between two requests, in milliseconds. `None`: a client's
    /// connection has one request.
    pub keeping: Option<u32>,
    /// The most unused connections of a server that stay open. `None`: a server's connection has one request.
    pub reusing: Option<u32>,
    /// The length of a window in milliseconds. `None`: a window ends once the log is full.
    pub window: Option<u32>,
    /// Whether servers are told the client's address (`option forwardfor`).
    pub forwarded_for: bool,
}

/// The longest pause of a client between two requests where no option says it, in milliseconds.
const KEEP_ALIVE_TIMEOUT: &str = "10000";

/// The number of unused connections of a server where no option says it.
const IDLE: &str = "32";

// The most unused connections: a server has no more than there may be requests.
const MOST_IDLE: u32 = 4096;

/// The message for a number that can't be read or is out of its range.
pub const RANGES: &str =
    "a number is out of its range: 1 to 256 workers, 1 to 64 loops, 1 to 65536 waiting, 1 to 4096 places or unused connections, 0 to 999999999 requests, 1 to 999999999 ms, and 100 ms at least of --window";

const HELP: &str = "\
Listens where the configuration says, and hands each request to a server, or lets it
wait until one has a slot: by class, and then by due date. On standard error stands
  listening at ADDRESS: servers S workers W places P
and where no server has a maxconn a second line, since then no request ever waits;
with --admin a last one, admin at http://ADDRESS/

Each loop is a thread for thousands of clients, from their first byte to their last.

On standard output, for each 262144 entries of the log, with --window MS also
whenever that time has passed, and at the end:
  window N [from T to T] the reports of a window that ended follow (FORMATS)
  server NAME up|down direct D granted G
                         at the end: what the server was given, at once and after
                         a wait, in all windows; the last window's reports follow

The statuses: 0; 1 no memory, read fault (also where the address can't be listened at),
write fault; 2 these words; 3 the configuration.

For example, dueproxy run examples/walk.cfg --requests 5
serves five clients, and prints what came of them.";

const WORKERS: &str = "Has no effect; 1 to 256, as earlier versions took it";

const LOOPS: &str = "Event loops, 1 to 64 [default: as many as there are processors]";

const PLACES: &str = "Requests that are served or wait, 1 to 4096";

const WAITING: &str =
    "While so many requests wait beyond the places, no client is accepted, 1 to 65536 [default: 65536]";

const KEEP: &str = "Lets a client stay for further requests on its connection";

const KEEP_ALIVE_HELP: &str =
    "A client that stays and asks for nothing is closed after so many ms, from 1 on";

const REUSE: &str =
    "Uses connections of servers for further requests: idempotent ones without a body";

const IDLE_HELP: &str =
    "So many unused connections of a server stay open at most, 1 to 4096, with --reuse";

const WINDOW: &str =
    "Ends a window of the log after so many ms, too, and prints its reports with the time, from 100 on";

// The shortest window in milliseconds: a reader of the log reads it about ten times in that time.
const SHORTEST_WINDOW: u32 = 100;

const FORWARDED: &str = "Adds a field X-Forwarded-For with its client's address to each request";

const REQUESTS: &str = "Ends after so many clients; 0: never";

/// Returns the command `run`.
pub(crate) fn run<'a>(alloc: Global, file: Arg<'a>) -> Result<Command<'a>, AllocError> {
    let command = told(alloc, "run", "Serves as a configuration says", HELP).arg(file)?;
    let command = with_threads(alloc, command)?;
    let command = with_bounds(alloc, command)?;
    let command = with_keeping(alloc, command)?;
    let command = command.arg(size(alloc, "window").value_name("MS").help(WINDOW))?;
    let command = command.arg(flag(alloc, "forwarded-for", FORWARDED))?;
    let command = with_controls(alloc, command)?;
    let command = with_logs(alloc, command)?;
    with_admin(alloc, command)
}

fn with_threads<'a>(alloc: Global, command: Command<'a>) -> Result<Command<'a>, AllocError> {
    command
        .arg(size(alloc, "workers").help(WORKERS))?
        .arg(size(alloc, "loops").help(LOOPS))
}

fn with_bounds<'a>(alloc: Global, command: Command<'a>) -> Result<Command<'a>, AllocError> {
    command
        .arg(bound(alloc, "places", "1024", PLACES))?
        .arg(size(alloc, "waiting").help(WAITING))?
        .arg(bound(alloc, "requests", "0", REQUESTS))
}

fn with_keeping<'a>(alloc: Global, command: Command<'a>) -> Result<Command<'a>, AllocError> {
    let keep = flag(alloc, "keep-alive", KEEP);
    let keep_alive = bound(
        alloc,
        "keep-alive-timeout",
        KEEP_ALIVE_TIMEOUT,
        KEEP_ALIVE_HELP,
    );
    let reuse = flag(alloc, "reuse", REUSE);
    let idle = bound(alloc, "reuse-idle", IDLE, IDLE_HELP);
    command.arg(keep)?.arg(keep_alive)?.arg(reuse)?.arg(idle)
}

fn flag<'a>(alloc: Global, name: &'a str, help: &'a str) -> Arg<'a> {
    Arg::new(alloc, name)
        .long(name)
        .action(ArgAction::SetTrue)
        .help(help)
}

fn bound<'a>(alloc: Global, name: &'a str, default: &'a str, help: &'a str) -> Arg<'a> {
    size(alloc, name).default_value(default).help(help)
}

fn size<'a>(alloc: Global, name: &'a str) -> Arg<'a> {
    Arg::new(alloc, name)
        .long(name)
        .action(ArgAction::Set)
        .value_name("N")
}

/// Returns the numbers of the options; `None` where one of them isn't a number.
pub(crate) fn numbers_of(words: &ArgMatches) -> Option<RunNumbers> {
    let workers = given(words, "workers").ok()?;
    let loops = given(words, "loops").ok()?;
    let waiting = given(words, "waiting").ok()?;
    let places = given(words, "places").ok()??;
    let requests = given(words, "requests").ok()??;
    let keep_alive = given(words, "keep-alive-timeout").ok()??;
    let idle = given(words, "reuse-idle").ok()??;
    let window = given(words, "window").ok()?;
    if keep_alive == 0
        || idle == 0
        || MOST_IDLE < idle
        || window.map_or(false, |window| window < SHORTEST_WINDOW)
    {
        return None;
    }
    Some(RunNumbers {
        workers,
        loops,
        waiting,
        places,
        requests,
        keeping: asked_for(words, "keep-alive", keep_alive),
        reusing: asked_for(words, "reuse", idle),
        window,
        forwarded_for: words.get_flag("forwarded-for"),
    })
}

// Returns the number that goes with a flag, where the flag is given.
fn asked_for(words: &ArgMatches, flag: &str, number: u32) -> Option<u32> {
    if words.get_flag(flag) {
        Some(number)
    } else {
        None
    }
}

/// An option's value isn't a number.
#[derive(Debug, Drop)]
struct NoNumber;

// Returns the number of an option, where it is given.
fn given(words: &ArgMatches, name: &str) -> Result<Option<u32>, NoNumber> {
    match words.get_str(name) {
        None => Ok(None),
        Some(word) => match number(word.as_bytes()) {
            None => Err(NoNumber),
            number => Ok(number),
        },
    }
}
