//! The end of an exchange, in the two letters of HAProxy's termination state.

ghost use Rattle.std.specs.Prelude.{◌≡◌};
ghost use Rattle.log_lines.specs.Letters as letters;

use base_verdict::Cause;

/// What ended an exchange early.
#[derive(Clone, Copy, Debug, PartialEq, Eq)]
pub enum EndedBy {
    /// Nothing: it came to its proper end.
    Nobody,
    /// Its client left, or its connection broke.
    Client,
    /// `timeout client` expired.
    ClientTime,
    /// Its server refused it, or its connection broke.
    Server,
    /// `timeout server`, `timeout connect` or `timeout queue` expired.
    ServerTime,
    /// The proxy refused it.
    Proxy,
    /// Memory, places or descriptors were short.
    Shortage,
}

/// What was under way then.
#[derive(Clone, Copy, Debug, PartialEq, Eq)]
pub enum During {
    /// Nothing: all was done.
    Nothing,
    /// The request was being read.
    Request,
    /// It waited.
    Queue,
    /// The server was being connected to.
    Connect,
    /// The answer's head was awaited.
    Head,
    /// The answer's body was being handed on.
    Data,
    /// The rest of the answer was being sent to the client, after the server's end.
    Last,
}

/// How an exchange ended.
#[derive(Clone, Copy, Debug, PartialEq, Eq)]
pub struct ExchangeEnd {
    pub by: EndedBy,
    pub during: During,
}

impl ExchangeEnd {
    /// Makes the proper end.
    pub fn well() -> ExchangeEnd
        ensures { result ≡ letters.well }
    {
        ExchangeEnd {
            by: EndedBy::Nobody,
            during: During::Nothing,
        }
    }

    /// Returns both letters.
    pub fn letters(self) -> (char, char)
        ensures { result ≡ (letters.by_letter self.by, letters.during_letter self.during) }
    {
        (by_letter(self.by), during_letter(self.during))
    }
}

/// Returns why a request wasn't served, where its exchange ended so. The loops abort a request
/// whose `timeout queue` expires and which began to wait before it had a place; it counts as timed
/// out.
pub fn cause_told(cause: Cause, ended: ExchangeEnd) -> Cause
    ensures { result ≡ letters.cause_told cause ended.by }
{
    if cause == Cause::Aborted && ended.by == EndedBy::ServerTime {
        Cause::Timeout
    } else {
        cause
    }
}

fn by_letter(by: EndedBy) -> char
    ensures { result ≡ letters.by_letter by }
{
    match by {
        EndedBy::Nobody => '-',
        EndedBy::Client => 'C',
        EndedBy::ClientTime => 'c',
        EndedBy::Server => 'S',
        EndedBy::ServerTime => 's',
        EndedBy::Proxy => 'P',
        EndedBy::Shortage => 'R',
    }
}

fn during_letter(during: During) -> char
    ensures { result ≡ letters.during_letter during }
{
    match during {
        During::Nothing => '-',
        During::Request => 'R',
        During::Queue => 'Q',
        During::Connect => 'C',
        During::Head => 'H',
        During::Data => 'D',
        During::Last => 'L',
    }
}
