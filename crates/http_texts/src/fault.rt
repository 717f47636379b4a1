ghost use Rattle.std.specs.Prelude.{◌≡◌};
ghost use Rattle.http_texts.specs.Faults.{of_refusal};

use http_bodies::Fault as BodyFault;
use req_view::HeadRefusal;
use thiserror::Error;

/// Why a message wasn't handed on whole.
#[derive(Clone, Copy, Debug, PartialEq, Eq, Error)]
pub enum Fault {
    /// The system refused memory.
    #[error("no memory")]
    NoMemory,
    /// The bytes are no head that the proxy accepts, whatever follows them.
    #[error("not a head")]
    Head,
    /// The head's framing is unsound, or the bytes after it can't be its body, whatever follows
    /// them; or too many interim heads came before the answer.
    #[error("bad framing")]
    Framing,
    /// A read failed, or the input ended too early.
    #[error("read fault")]
    Read,
    /// A write failed or took no byte.
    #[error("write fault")]
    Write,
    /// All turns were spent on reads and writes.
    #[error("turns spent")]
    Turns,
    /// A fault was met before.
    #[error("closed")]
    Closed,
}

impl From<BodyFault> for Fault {
    ghost use Rattle.std.specs.Prelude.{◌≡◌};
    ghost use Rattle.http_texts.specs.Faults.{relayed};

    ghost from_gives = { λ fault e. e ≡ relayed fault };

    fn from(fault: BodyFault) -> Fault {
        match fault {
            BodyFault::Framing => Fault::Framing,
            BodyFault::Read => Fault::Read,
            BodyFault::Write => Fault::Write,
            BodyFault::Turns => Fault::Turns,
        }
    }
}

/// Returns the fault of a head that is refused.
pub fn fault_of(refusal: HeadRefusal) -> Fault
    ensures { result ≡ of_refusal refusal }
{
    match refusal {
        HeadRefusal::HeadFault => Fault::Head,
        HeadRefusal::NoMemory => Fault::NoMemory,
    }
}
