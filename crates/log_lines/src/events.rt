//! The events of a proxy as a whole, one a line.

ghost use Rattle.std.specs.Prelude.{◌≡◌};
ghost use Rattle.log_lines.specs.LineTexts.{failure_words};
ghost use Rattle.log_texts.specs.Traces.{queue_name};

use crate::dates::{Dates, signed};
use log_entries::{Intake, Queue};
use log_texts::Names;
use std::alloc::AllocError;
use std::net::SocketAddr;

/// How a check failed. A check opens a connection.
#[derive(Clone, Copy, Debug, PartialEq, Eq)]
pub enum CheckFailure {
    /// The last look-up of the server's name found no address.
    NoAddress,
    /// The connection was refused.
    Refused,
    /// No connection was made within the time of a check.
    Late,
    /// The system reported another error.
    Failed,
}

/// An event of the proxy.
#[derive(Clone, Copy, Debug, PartialEq, Eq)]
pub enum ProxyEvent {
    /// The program started.
    Started,
    /// Clients may connect to this address.
    Listening(SocketAddr),
    /// A check decided that a server is up or down from now on: how many checks in a row had this
    /// result, and how the last one failed, where that is known.
    Health {
        server: usize,
        up: bool,
        checks: u32,
        failure: Option<CheckFailure>,
    },
    /// Requests wait in a queue in which none did.
    Fills(Queue),
    /// No request waits there any more.
    Empties(Queue),
    /// A server's limit was set.
    Limit {
        server: usize,
        intake: Intake,
    },
    /// The window with this number ended.
    Window(u64),
    /// Lines of this log were left out.
    Lost(u64),
    /// Entries of the dispatcher's log weren't read in time.
    Gap,
    /// No more clients are accepted.
    Stopping,
    /// The proxy has ended.
    Stopped,
}

/// Writes the line of an event, with its line feed.
pub fn push_event(
    text: &mut String,
    dates: &mut Dates,
    names: &Names,
    moment: u64,
    event: ProxyEvent,
) -> Result<(), AllocError> {
    dates.push_now(text, signed(moment))?;
    text.push_str(" dueproxy ")?;
    push_words(text, names, event)?;
    text.push('\n')
}

fn push_words(text: &mut String, names: &Names, event: ProxyEvent) -> Result<(), AllocError> {
    match event {
        ProxyEvent::Started => text.push_str("started"),
        ProxyEvent::Listening(address) => write!(text, "listening {address}"),
        ProxyEvent::Health {
            server,
            up: true,
            checks,
            ..
        } => {
            let name = names.of(server);
            write!(text, "server {name} up: {checks} checks answered in a row")
        }
        ProxyEvent::Health {
            server,
            up: false,
            checks,
            failure,
        } => push_down(text, names.of(server), checks, failure),
        ProxyEvent::Fills(queue) => write!(text, "queue {} fills", name_of(names, queue)),
        ProxyEvent::Empties(queue) => write!(text, "queue {} is empty", name_of(names, queue)),
        ProxyEvent::Limit { server, intake } => match intake {
            Intake::Open(limit) => write!(text, "limit {} {limit}", names.of(server)),
            Intake::Closed => write!(text, "limit {} closed", names.of(server)),
        },
        ProxyEvent::Window(number) => write!(text, "window {number} ended"),
        ProxyEvent::Lost(lines) => write!(text, "lost {lines}"),
        ProxyEvent::Gap => text.push_str("dispatcher's log: entries not read"),
        ProxyEvent::Stopping => text.push_str("stopping"),
        ProxyEvent::Stopped => text.push_str("stopped"),
    }
}

fn push_down(
    text: &mut String,
    name: &str,
    checks: u32,
    failure: Option<CheckFailure>,
) -> Result<(), AllocError> {
    write!(text, "server {name} down: {checks} checks failed in a row")?;
    match failure {
        None => Ok(()),
        Some(failure) => write!(text, ", the last: {}", words_of(failure)),
    }
}

fn words_of(failure: CheckFailure) -> &'static str
    ensures { result.now ≡ failure_words failure }
{
    match failure {
        CheckFailure::NoAddress => "its name has no address",
        CheckFailure::Refused => "connection refused",
        CheckFailure::Late => "no connection in time",
        CheckFailure::Failed => "no connection",
    }
}

fn name_of(names: &Names, queue: Queue) -> &str
    ensures { result.now ≡ queue_name names.now queue }
{
    match queue {
        Queue::Backend => "*",
        Queue::Server(server) => names.of(server),
    }
}
