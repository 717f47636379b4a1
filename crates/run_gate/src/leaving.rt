//! What the system tells of a connection without waiting.

ghost use Rattle.std.specs.Prelude.{◌≡◌, ◌||◌, ◌&&◌};
ghost use Rattle.run_gate.specs.Polls.{end_event, room_event, tells_failure, tells_end, tells_any};

use libc::net as c;
use libc::types::pollfd;
use proxy_config::Config;
use std::os::fd::RawFd;

/// What the system told of a connection. Only this file makes it.
#[derive(Clone, Copy)]
pub struct Told {
    connection: RawFd,
    asked: i16,
    bits: i16,
}

impl Told {
    /// Says whether it is a failure or, where a client's end counts, that the other end sends no
    /// more.
    pub fn is_end(self, config: &Config) -> bool
        ensures { result ≡ (tells_failure self.bits || (config.now.abortonclose && tells_end self.bits)) }
    {
        self.is_failure() || (config.abortonclose && self.bits & c::POLLRDHUP != 0)
    }

    /// Says whether it is a failure.
    pub(crate) fn is_failure(self) -> bool
        ensures { result ≡ tells_failure self.bits }
    {
        self.bits & (c::POLLERR | c::POLLHUP | c::POLLNVAL) != 0
    }

    /// Says whether it is anything.
    pub(crate) fn is_any(self) -> bool
        ensures { result ≡ tells_any self.bits }
    {
        self.bits != 0
    }
}

/// Returns what the system tells at once of a connection: a failure, and that the other end sends no
/// more, whether or not bytes are unread. No byte is read.
pub fn told_of(connection: RawFd) -> Told
    ensures { (result.connection ≡ connection) × (result.asked ≡ end_event) }
{
    ask(connection, c::POLLRDHUP)
}

/// Returns what the system tells at once of a connection that was begun: a failure, and that it
/// takes bytes.
pub(crate) fn told_of_begun(connection: RawFd) -> Told
    ensures { (result.connection ≡ connection) × (result.asked ≡ room_event) }
{
    ask(connection, c::POLLOUT)
}

fn ask(connection: RawFd, asked: i16) -> Told
    ensures { (result.connection ≡ connection) × (result.asked ≡ asked) }
{
    let mut question = [pollfd {
        fd: connection,
        events: asked,
        revents: 0,
    }];
    let bits = if c::poll(&mut question, 0) <= 0 {
        0
    } else {
        question[0].revents
    };
    Told {
        connection,
        asked,
        bits,
    }
}
