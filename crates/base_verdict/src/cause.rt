ghost use Rattle.std.specs.Prelude.{Some};

use std::fmt;

/// Why a request leaves the dispatcher without being served.
#[derive(Clone, Copy, Debug, PartialEq, Eq)]
pub enum Cause {
    /// The client left while the request waited.
    Aborted,
    /// The request waited for the whole of `timeout queue`.
    Timeout,
    /// More tries failed than `retries` allows.
    Retries,
    /// No server is usable.
    NoServer,
}

/// The word of a trace's `left` line.
impl fmt::Display for Cause {
    ghost use Rattle.std.specs.Prelude.{Some};
    ghost use Rattle.base_verdict.specs.Cause.{word_of};

    ghost output = { λ cause. Some (word_of cause) };

    fn fmt<W: fmt::Write>(&self, f: &mut fmt::Formatter<W>) -> fmt::Result {
        f.write_str(match self {
            Cause::Aborted => "aborted",
            Cause::Timeout => "timeout",
            Cause::Retries => "retries",
            Cause::NoServer => "noserver",
        })
    }
}
