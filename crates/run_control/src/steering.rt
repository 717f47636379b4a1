use std::alloc::AllocError;

/// What a client waits for whose answer comes later.
#[derive(Clone, Copy, Debug, PartialEq, Eq)]
pub enum Awaited {
    /// The server with this number serves no request.
    Drained(usize),
    /// The proxy has ended. The client isn't told so: its connection is closed then.
    End,
}

/// The answer to a line.
#[derive(Debug, Drop)]
pub enum Answer {
    /// A text at once.
    Now(String),
    /// An answer once something has happened.
    Later(Awaited),
    /// A text at once; the connection stays open until something has happened.
    Then(String, Awaited),
}

/// When there is more to do.
#[derive(Clone, Copy, Debug, PartialEq, Eq)]
pub enum Tended {
    /// Once something is reported.
    Rests,
    /// In a moment.
    Soon,
    /// Never: the proxy has ended.
    Over,
}

/// The executor of commands.
pub trait Steers {
    /// Executes a line's command, and returns the answer.
    fn obey(&mut self, line: &[u8]) -> Result<Answer, AllocError>;

    /// Returns the answer for a client that waits, once the event has happened; `None` before.
    fn look(&mut self, awaited: Awaited) -> Result<Option<String>, AllocError>;

    /// Is called when standard input has ended.
    fn end_of_input(&mut self);

    /// Does what is due.
    fn tend(&mut self) -> Tended;
}
