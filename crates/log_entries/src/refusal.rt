ghost use Rattle.std.specs.Prelude.{◌≡◌};
ghost use Rattle.log_entries.specs.Refusals.{refusal_number};

use thiserror::Error;

/// Why a call was refused. A refused call changes nothing.
#[derive(Clone, Copy, Debug, PartialEq, Eq, Error)]
pub enum Refusal {
    /// The system refused memory.
    #[error("no memory")]
    NoMemory,
    /// All places have live requests.
    #[error("all places are taken")]
    PlacesFull,
    /// Fewer than `2 * places + 8` entries of the log are free.
    #[error("the log is full")]
    LogFull,
    /// No live request has the ticket.
    #[error("no live request has this ticket")]
    NoSuchTicket,
    /// The request isn't in the phase that the call needs.
    #[error("the request is not in the phase that this call needs")]
    WrongPhase,
    /// No server has the number or name.
    #[error("no such server")]
    NoSuchServer,
    /// The next ticket would be 2^40.
    #[error("the tickets are spent")]
    TicketsSpent,
}

impl Refusal {
    /// Returns its number in a trace's `refused` line.
    pub fn number(self) -> u8
        ensures { result ≡ refusal_number self }
    {
        match self {
            Refusal::NoMemory => 1,
            Refusal::PlacesFull => 2,
            Refusal::LogFull => 3,
            Refusal::NoSuchTicket => 4,
            Refusal::WrongPhase => 5,
            Refusal::NoSuchServer => 6,
            Refusal::TicketsSpent => 14,
        }
    }
}
