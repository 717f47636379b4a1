ghost use Rattle.std.specs.Prelude.{◌≡◌};
ghost use Rattle.replay.specs.Statuses.{status_of};

use thiserror::Error;

/// Why a replay ended early.
#[derive(Clone, Copy, Debug, PartialEq, Eq, Error)]
pub enum Fault {
    /// The system refused memory. Nothing was written.
    #[error("no memory")]
    NoMemory,
    /// The first faulty line; 0 where the script is too long. Nothing was written.
    #[error("script line {line}")]
    Script { line: usize },
    /// A read failed. Nothing was written.
    #[error("read fault")]
    Read,
    /// A write failed or took no byte. What was written is a front of the text.
    #[error("write fault")]
    Write,
}

/// Returns the exit status of a program whose replay ended so: 0; 1 where memory is refused, or a
/// read or a write failed; 5 where the script is faulty.
pub fn status_of(ended: Result<(), Fault>) -> u8
    ensures { result ≡ status_of ended }
{
    match ended {
        Ok(()) => 0,
        Err(Fault::Script { .. }) => 5,
        Err(Fault::NoMemory | Fault::Read | Fault::Write) => 1,
    }
}
