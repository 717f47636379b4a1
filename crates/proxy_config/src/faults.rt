//! Why a configuration is refused.

ghost use Rattle.std.specs.Prelude.{◌≡◌};

use std::alloc::{AllocError, AllocFailed};
use thiserror::Error;

/// The cause of a line's fault.
#[derive(Clone, Copy, Debug, PartialEq, Eq, Error)]
pub enum FaultCause {
    /// A quote or a backslash before the comment.
    #[error("quoting")]
    Quoting,
    /// A section that the profile leaves out, or a second `listen`.
    #[error("section")]
    Section,
    /// An unknown keyword, option, timeout, server setting or `http-request` action, or another `mode` or
    /// `balance`.
    #[error("keyword")]
    Keyword,
    /// A keyword in a section that doesn't take it.
    #[error("place")]
    Place,
    /// Too few words, or too many.
    #[error("words")]
    Words,
    /// A word that isn't a number or a time, or one out of range.
    #[error("number")]
    Number,
    /// A word that isn't an address.
    #[error("address")]
    Address,
    /// A word that isn't the name of a section, a server or an ACL.
    #[error("name")]
    Name,
    /// A second `bind`, or a server's name again.
    #[error("twice")]
    Twice,
    /// An ACL or a server that isn't declared.
    #[error("unknown")]
    Unknown,
    /// Words that aren't a condition, a test or an expression.
    #[error("condition")]
    Condition,
    /// No `listen`, or one without a `bind` or a server.
    #[error("missing")]
    Missing,
    /// One server, ACL line or rule too many, or a file that is too long.
    #[error("limit")]
    Limit,
}

/// The first faulty line, counted from 1. The line is 0 where a `listen` is missing.
#[derive(Clone, Copy, Debug, PartialEq, Eq, Error)]
#[error("line {line}: {cause}")]
pub struct ConfigFault {
    pub line: u64,
    pub cause: FaultCause,
}

/// Why a configuration wasn't read.
#[derive(Clone, Copy, Debug, PartialEq, Eq, Error)]
pub enum ReadError {
    /// The system refused memory.
    #[error("no memory")]
    NoMemory,
    #[error("{0}")]
    Fault(ConfigFault),
}

/// Why a line wasn't read.
#[derive(Clone, Copy)]
pub(crate) enum LineError {
    NoMemory,
    Fault(FaultCause),
}

impl From<AllocError> for ReadError {
    ghost use Rattle.proxy_config.specs.declared.faults.ReadError.TheVariants.{NoMemory};

    ghost from_gives = { λ _ e. e ≡ NoMemory };

    fn from(_: AllocError) -> ReadError {
        ReadError::NoMemory
    }
}

impl From<FaultCause> for LineError {
    ghost use Rattle.proxy_config.specs.declared.faults.LineError.TheVariants.{Fault};

    ghost from_gives = { λ cause e. e ≡ Fault cause };

    fn from(cause: FaultCause) -> LineError {
        LineError::Fault(cause)
    }
}

impl From<AllocError> for LineError {
    ghost use Rattle.proxy_config.specs.declared.faults.LineError.TheVariants.{NoMemory};

    ghost from_gives = { λ _ e. e ≡ NoMemory };

    fn from(_: AllocError) -> LineError {
        LineError::NoMemory
    }
}

impl<T: Drop> From<AllocFailed<T>> for LineError {
    ghost use Rattle.proxy_config.specs.declared.faults.LineError.TheVariants.{NoMemory};

    ghost from_gives = { λ _ e. e ≡ NoMemory };

    fn from(_: AllocFailed<T>) -> LineError {
        LineError::NoMemory
    }
}
