ghost use Rattle.std.specs.Prelude.{◌≡◌};
ghost use Rattle.relay_http.specs.States.{closed_answer};

use http_texts::Fault;

/// The call of an exchange that met a fault, and the fault.
#[derive(Clone, Copy, Debug, PartialEq, Eq)]
pub enum Closing {
    /// The request's head wasn't read.
    Reading(Fault),
    /// The `100` wasn't sent.
    Leaving(Fault),
    /// The request wasn't handed on.
    Forwarding(Fault),
    /// The answer wasn't handed on, and no byte of it was written.
    Answering(Fault),
    /// The answer broke off.
    Breaking(Fault),
}

// Returns the closing of an answer, by whether a byte of it was written.
pub(crate) fn closed_answer(begun: bool, fault: Fault) -> Closing
    ensures { result ≡ closed_answer begun fault }
{
    if begun {
        Closing::Breaking(fault)
    } else {
        Closing::Answering(fault)
    }
}
