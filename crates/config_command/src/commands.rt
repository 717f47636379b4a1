use crate::converting::convert;
use crate::inputs::optional_file;
use crate::running::run;
use crate::steering::ctl;
use crate::version::VERSION;
use clap::{Arg, ArgAction, Command};
use std::alloc::{AllocError, Global};

const SCRIPT_HELP: &str = "\
A script may begin with header lines, and then has one event a line. A line that
begins with # is a comment. The header lines, and what stands without them:
  places N               the greatest number of live requests (64)
  log N                  the greatest number of log entries (262144)
  retries N              further tries where a connection fails (3)
  redispatch             the last try goes elsewhere, and so does the queue of a
                         server that goes down or is closed (off)
  queue-timeout N        the longest stay in a queue in ms, 0 for no limit (0)
  server NAME MAXCONN MAXQUEUE WEIGHT [RISE FALL]
                         one more server, checked where it has RISE and FALL
                         (server s1 1 0 1)
The events:
  M arrive C O [NAME]    at moment M (ms) a request of class C comes, due O ms
                         later, bound to the server NAME or to none
  M done T               the request with ticket T is over
  M fail T               a connection of ticket T, which has a slot, failed
  M abort T              the client of ticket T, which waits, gave up
  M tick                 time has passed: stays that lasted too long end
  M check NAME up|down   a check of the server was answered, or not
  M limit NAME MAXCONN   the server may serve so many at once from now on
  M limit NAME closed    the server takes nobody until its limit is set again
  roll                   the reports so far, and the next window of the log
An event that cannot be has the line refused N, and changes nothing. Of N:
  refused 2              as many requests are live as there are places
  refused 3              fewer than twice the places and 8 entries of the log are free
  refused 4              no live request has this ticket
  refused 5              done: the request still waits; fail: it has no slot; abort: it
                         does not wait; check: the server is not checked
  refused 6              no server has this name
  refused 14             the next ticket would be 2^40

For example, dueproxy replay examples/overtaking.script reads
  0 arrive 0 0
  1 arrive 0 0
  2 arrive 0 -5
  10 done 1
and grants the slot of ticket 1 to ticket 3, which is due before ticket 2.";

const CHECK_HELP: &str = "\
Prints one of
  ok servers N           the configuration is good and has N servers: status 0
  config line L: CAUSE   line L is the first faulty one: status 3
  read fault             the file can't be read: status 1

With --explain each faulty line is named, the word at fault marked, and it is said
what takes the place of a keyword of HAProxy that isn't there; at the end stands
  lines to change: N
and on standard error each kind of line that is taken and has no effect. Where standard
error is a terminal, check says all of that there.

For example, dueproxy check examples/shop.cfg";

const DRAW_HELP: &str = "\
Reads a script or a trace, and writes the picture to standard output: a lane for each
queue and for each server, a bar for each request that waits or is served, and for
each report the requests that prove its lateness.

For example, dueproxy draw examples/overtaking.script > overtaking.svg";

const TELL_HELP: &str = "\
Reads a script or a trace, and says when the request came, where it waited and for
whom, when it was served and how late.

For example, dueproxy explain 2 examples/overtaking.script";

const DEMO_HELP: &str = "\
Starts three small servers, the proxy before them at a free port of this machine, and
twelve requests with classes and due dates of their own; prints who comes, who waits
and who goes next and why, then who waited how long and what the proxy reports of it,
and writes dueproxy-demo.svg, the picture of it, in the working directory. It needs no
file, and takes some two seconds, ten at most.

The statuses: 0 where all twelve were answered, and of any two that waited together
the one with the smaller key (class, due date) got its slot first; else 1.

For example, dueproxy demo --keep
leaves the proxy and its servers running, and prints a line of curl to try.";

/// Returns the program's command line: it needs a subcommand.
pub(crate) fn commands<'a>(alloc: Global) -> Result<Command<'a>, AllocError> {
    let command = with(dueproxy(alloc), replay(alloc))?;
    let command = with(command, demo(alloc))?;
    let command = with(command, draw(alloc))?;
    let command = with(command, story_command(alloc))?;
    let command = with(command, check(alloc))?;
    let command = with(command, convert(alloc, file(alloc)))?;
    let command = with(command, ctl(alloc))?;
    with(command, run(alloc, file(alloc)))
}

fn with<'a>(
    command: Command<'a>,
    below: Result<Command<'a>, AllocError>,
) -> Result<Command<'a>, AllocError> {
    command.subcommand(below?)
}

/// Makes a command with this name, purpose and further help.
pub(crate) fn told<'a>(alloc: Global, name: &'a str, about: &'a str, help: &'a str) -> Command<'a> {
    Command::new(alloc, name).about(about).after_help(help)
}

fn dueproxy<'a>(alloc: Global) -> Command<'a> {
    let about = "Queues requests by class and due date";
    told(alloc, "dueproxy", about, SCRIPT_HELP)
        .version(VERSION)
        .subcommand_required(true)
}

fn replay<'a>(alloc: Global) -> Result<Command<'a>, AllocError> {
    let about = "Runs a script of events, and prints what the dispatcher did";
    told(alloc, "replay", about, SCRIPT_HELP).arg(optional_file(alloc))
}

fn demo<'a>(alloc: Global) -> Result<Command<'a>, AllocError> {
    let about = "Shows the proxy at work on three servers and twelve requests of its own";
    told(alloc, "demo", about, DEMO_HELP).arg(keep(alloc))
}

fn keep<'a>(alloc: Global) -> Arg<'a> {
    Arg::new(alloc, "keep")
        .long("keep")
        .action(ArgAction::SetTrue)
        .help("Leaves the proxy and its servers running")
}

fn draw<'a>(alloc: Global) -> Result<Command<'a>, AllocError> {
    let about = "Draws a script, or a trace that replay wrote, as a picture for a browser (SVG)";
    told(alloc, "draw", about, DRAW_HELP)
        .arg(optional_file(alloc))?
        .arg(of(alloc))
}

fn story_command<'a>(alloc: Global) -> Result<Command<'a>, AllocError> {
    let about = "Tells the story of one request of a script, or of a trace that replay wrote";
    told(alloc, "explain", about, TELL_HELP)
        .arg(ticket(alloc))?
        .arg(optional_file(alloc))
}

fn check<'a>(alloc: Global) -> Result<Command<'a>, AllocError> {
    let about =
        "Reads a configuration, and prints how many servers it has, or its first faulty line";
    told(alloc, "check", about, CHECK_HELP)
        .arg(explain(alloc))?
        .arg(file(alloc))
}

fn explain<'a>(alloc: Global) -> Arg<'a> {
    Arg::new(alloc, "explain")
        .long("explain")
        .action(ArgAction::SetTrue)
        .help("Names every faulty line, and what takes the place of HAProxy's keywords")
}

fn of<'a>(alloc: Global) -> Arg<'a> {
    Arg::new(alloc, "of")
        .long("of")
        .action(ArgAction::Set)
        .num_args(2)
        .allow_hyphen_values(true)
        .value_names(&["QUEUE", "CLASS"])
        .help(
            "Of the requests of one class alone that wait in one queue: a server's name, or * for the backend's",
        )
}

fn ticket<'a>(alloc: Global) -> Arg<'a> {
    Arg::new(alloc, "TICKET")
        .required(true)
        .action(ArgAction::Set)
        .help("The request: the first that came has ticket 1, the next 2")
}

/// The argument with the configuration's file name.
fn file<'a>(alloc: Global) -> Arg<'a> {
    Arg::new(alloc, "FILE")
        .required(true)
        .action(ArgAction::Set)
        .help("The configuration")
}
