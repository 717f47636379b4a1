use thiserror::Error;

/// Why a body wasn't handed on whole.
#[derive(Clone, Copy, Debug, PartialEq, Eq, Error)]
pub enum Fault {
    /// The bytes can't be such a body, whatever follows them.
    #[error("bad framing")]
    Framing,
    /// A read failed, or the input ended before the body did.
    #[error("read fault")]
    Read,
    /// A write failed or took no byte.
    #[error("write fault")]
    Write,
    /// All turns were spent on reads and writes.
    #[error("turns spent")]
    Turns,
}
