use thiserror::Error;

/// The cause of a fault in a trace.
#[derive(Clone, Copy, Debug, PartialEq, Eq, Error)]
pub enum TraceCause {
    /// The line has no form of a trace's lines.
    #[error("no line of a trace")]
    Form,
    /// A moment is earlier than that of the event before it.
    #[error("a moment before the last event's")]
    Moment,
    /// A decision or a report stands before the first event.
    #[error("no event stands before it")]
    Place,
    /// The line names one server more than there can be.
    #[error("a 65th server")]
    Servers,
    /// The trace has too many bytes.
    #[error("more than 67108864 bytes")]
    Length,
}

/// Why a trace wasn't read.
#[derive(Clone, Copy, Debug, PartialEq, Eq, Error)]
pub enum TraceError {
    /// The system refused memory.
    #[error("no memory")]
    NoMemory,
    /// The first faulty line, from 1, and the cause; line 0 where the trace is too long.
    #[error("trace line {line}: {cause}")]
    Fault { line: usize, cause: TraceCause },
}

impl TraceError {
    pub(crate) fn at(line: usize, cause: TraceCause) -> TraceError {
        TraceError::Fault { line, cause }
    }
}

/// Why one line wasn't read.
#[derive(Clone, Copy)]
pub(crate) enum LineError {
    NoMemory,
    Faulty(TraceCause),
}

impl LineError {
    /// Returns the same error for the line with this number.
    pub(crate) fn on(self, line: usize) -> TraceError {
        match self {
            LineError::NoMemory => TraceError::NoMemory,
            LineError::Faulty(cause) => TraceError::at(line, cause),
        }
    }
}
