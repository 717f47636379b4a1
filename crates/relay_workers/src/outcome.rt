ghost use Rattle.std.specs.Prelude.{◌≡◌, ◌≢◌};
ghost use Rattle.relay_workers.specs.Outcomes as outcomes;
ghost use Rattle.relay_workers.specs.declared.outcome.Outcome.TheVariants.{Answered};

use base_verdict::Cause;
use relay_http::{Code, Fault};

/// The outcome for a client.
#[derive(Clone, Copy, Debug, PartialEq, Eq)]
pub enum Outcome {
    /// A server's answer was handed on whole.
    Answered,
    /// It was sent this refusal in place of an answer, if it was still there.
    Refused(Code),
    /// It was told nothing: it has left, or has a part of an answer.
    Cut,
}

impl Outcome {
    /// Returns the outcome for a client whose request's head wasn't read.
    pub fn after_reading(fault: Fault) -> Outcome
        ensures outcome { result ≡ outcomes.after_reading fault }
        ensures unanswered { result ≢ Answered }
    {
        match fault {
            Fault::Head | Fault::Framing => Outcome::Refused(Code::BadRequest),
            Fault::NoMemory => Outcome::Refused(Code::Unavailable),
            Fault::Read | Fault::Write | Fault::Turns | Fault::Closed => Outcome::Cut,
        }
    }

    /// Returns the outcome for a client whose request wasn't handed on.
    pub fn after_forwarding(fault: Fault) -> Outcome
        ensures outcome { result ≡ outcomes.after_forwarding fault }
        ensures unanswered { result ≢ Answered }
    {
        match fault {
            Fault::Framing => Outcome::Refused(Code::BadRequest),
            Fault::Read => Outcome::Cut,
            Fault::NoMemory | Fault::Head | Fault::Write | Fault::Turns | Fault::Closed => {
                Outcome::Refused(Code::BadGateway)
            }
        }
    }

    /// Returns the outcome for a client whose answer didn't begin.
    pub fn after_answering(fault: Fault) -> Outcome
        ensures outcome { result ≡ outcomes.after_answering fault }
        ensures unanswered { result ≢ Answered }
    {
        match fault {
            Fault::Write => Outcome::Cut,
            Fault::NoMemory => Outcome::Refused(Code::Unavailable),
            Fault::Head | Fault::Framing | Fault::Read | Fault::Turns | Fault::Closed => {
                Outcome::Refused(Code::BadGateway)
            }
        }
    }

    /// Returns the outcome for a client whose request was told why it has no slot.
    pub fn after_telling(cause: Cause) -> Outcome
        ensures outcome { result ≡ outcomes.after_telling cause }
        ensures unanswered { result ≢ Answered }
    {
        match cause {
            Cause::Aborted => Outcome::Cut,
            Cause::Timeout | Cause::Retries | Cause::NoServer => {
                Outcome::Refused(Code::Unavailable)
            }
        }
    }
}
