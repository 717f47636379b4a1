//! The fields of a line.

ghost use Rattle.std.specs.Prelude.{◌≡◌, ◌-◌, false};
ghost use Rattle.std.specs.Option.{option_map_or};
ghost use Rattle.log_lines.specs.Escapes.{is_plain};
ghost use Rattle.log_lines.specs.Fields as fields;

use crate::account::Account;
use crate::numbers::Numbers;
use due_key::Moment;
use log_texts::Names;
use std::alloc::AllocError;

/// The number of requests at servers when a line was written.
#[derive(Clone, Copy, Debug, PartialEq, Eq)]
pub struct Load {
    pub all: usize,
    /// At the line's own server.
    pub own: usize,
}

/// The data of a line: the loop's record, and the numbers from the dispatcher's log; `None` where
/// these aren't known any more, or the request had no ticket.
#[derive(Clone, Copy)]
pub struct Line<'a> {
    pub account: &'a Account,
    pub numbers: Option<&'a Numbers>,
    pub names: &'a Names,
    pub load: Load,
}

/// The times of HAProxy's line, in milliseconds; `None` where the exchange didn't come to that step.
#[derive(Clone, Copy)]
pub(crate) struct Spans {
    pub(crate) request: Option<u64>,
    pub(crate) wait: Option<u64>,
    pub(crate) connect: Option<u64>,
    pub(crate) answer: Option<u64>,
    pub(crate) all: u64,
}

impl<'a> Line<'a> {
    pub(crate) fn spans(&self) -> Spans
        ensures { result ≡ fields.spans_of self.now.account.now.moments }
    {
        let moments = self.account.moments;
        Spans {
            request: between(Some(moments.began), moments.asked),
            wait: between(moments.asked, moments.granted),
            connect: between(moments.granted, moments.connected),
            answer: between(moments.connected, moments.answered),
            all: span(moments.began, moments.ended),
        }
    }

    /// Returns the name of its server; `<NOSRV>` where it was given to none.
    pub(crate) fn server(&self) -> &'a str
        ensures { result.now ≡ fields.server_name self.now.names.now self.now.account.now.server }
    {
        match self.account.server {
            None => "<NOSRV>",
            Some(server) => self.names.of(server),
        }
    }

    /// Returns how many of its connections failed and were followed by another try.
    pub(crate) fn retries(&self) -> u32
        ensures { result ≡ option_map_or (λ numbers. fields.retries numbers.now) self.now.numbers 0 }
    {
        match self.numbers {
            None => 0,
            Some(numbers) if numbers.cause.is_some() => numbers.failures.saturating_sub(1),
            Some(numbers) => numbers.failures,
        }
    }

    pub(crate) fn is_redispatched(&self) -> bool
        ensures { result ≡ option_map_or (λ numbers. fields.is_redispatched numbers.now) self.now.numbers false }
    {
        match self.numbers {
            None => false,
            Some(numbers) => 1 < numbers.slots,
        }
    }
}

fn between(from: Option<Moment>, to: Option<Moment>) -> Option<u64>
    ensures { result ≡ fields.between from to }
{
    Some(span(from?, to?))
}

fn span(from: Moment, to: Moment) -> u64
    ensures { result ≡ to - from }
{
    to.get().saturating_sub(from.get())
}

/// Writes bytes of a request: `#` and two digits stand for a byte that isn't printable, a blank, a
/// quote and a `#`.
pub(crate) fn push_escaped(text: &mut String, bytes: &[u8]) -> Result<(), AllocError> {
    for byte in bytes {
        push_byte(text, *byte)?;
    }
    Ok(())
}

fn push_byte(text: &mut String, byte: u8) -> Result<(), AllocError> {
    if is_plain(byte) {
        text.push(char::from(byte))
    } else {
        write!(text, "#{byte:02X}")
    }
}

// Says whether a byte stands for itself.
fn is_plain(byte: u8) -> bool
    ensures { result ≡ is_plain byte }
{
    32 < byte && byte < 127 && byte != b'"' && byte != b'#'
}
