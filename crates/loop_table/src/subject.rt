ghost use Rattle.std.specs.Prelude.{◌≡◌, ◌<◌, ◌≤◌, ◌^◌, ◌/◌, ◌%◌, IfNone, IfSome};
ghost use Rattle.loop_table.specs.Subjects.{subject_number, AreSame, IsPlaced, IsTooLarge, NamesNone};
ghost use Rattle.loop_table.specs.declared.subject.Subject.{Subject};

use crate::token::{MOST_CELLS, Token};

/// The subject of a poll's event. Its token may be gone by the time of the event: then the event concerns nothing.
#[derive(Clone, Copy)]
pub enum Subject {
    /// The listener: clients come.
    Listener,
    /// The mailbox: other loops wrote.
    Mailbox,
    /// The client's side of a connection.
    Client(Token),
    /// The server's side of it.
    Server(Token),
    /// The client of a request that waits at its place.
    Waiting { place: usize, ticket: u64 },
    /// The client of a request that waits for a place.
    Outside(Token),
}

const PLACES: usize = 4096;

const TICKETS: u64 = 1 << 40;

impl Subject {
    /// Returns its number for the poll; `None` where its place or its ticket is too large.
    pub fn number(self) -> Option<usize>
        ensures some { IfSome result (λ number. number ≡ subject_number self) }
        ensures none { IfNone result (IsTooLarge self) }
    {
        match self {
            Subject::Listener => Some(0),
            Subject::Mailbox => Some(1),
            Subject::Client(token) => Some(8 * token.number() + 2),
            Subject::Server(token) => Some(8 * token.number() + 3),
            Subject::Outside(token) => Some(8 * token.number() + 5),
            Subject::Waiting { place, ticket } => {
                if place < PLACES && ticket < TICKETS {
                    Some(8 * (PLACES * ticket as usize + place) + 4)
                } else {
                    None
                }
            }
        }
    }

    /// Returns the subject with this number, if any.
    pub fn of(number: usize) -> Option<Subject>
        ensures some { IfSome result (λ subject. subject_number subject ≡ number) }
        ensures placed { IfSome result IsPlaced }
        ensures none { IfNone result (NamesNone (number % 8) (number / 8)) }
    {
        let above = number / 8;
        match number % 8 {
            0 if above == 0 => Some(Subject::Listener),
            1 if above == 0 => Some(Subject::Mailbox),
            2 => Some(Subject::Client(Token::of(above)?)),
            3 => Some(Subject::Server(Token::of(above)?)),
            4 => Some(Subject::Waiting {
                place: above % PLACES,
                ticket: (above / PLACES) as u64,
            }),
            5 => Some(Subject::Outside(Token::of(above)?)),
            _ => None,
        }
    }
}

impl Token {
    ghost use Rattle.loop_table.specs.Subjects.{token_number};

    fn number(self) -> usize
        ensures number { result ≡ token_number self }
        ensures small { result < 2 ^ 60 }
    {
        self.generation as usize * MOST_CELLS + self.index
    }

    fn of(number: usize) -> Option<Token>
        ensures some { IfSome result (λ token. token_number token ≡ number) }
        ensures none { IfNone result (2 ^ 60 ≤ number) }
    {
        let (index, generation) = (number % MOST_CELLS, (number / MOST_CELLS) as u64);
        if generation < 1 << 40 {
            Some(Token { index, generation })
        } else {
            None
        }
    }
}

/// Different subjects have different numbers.
pub fn numbers_differ()
    ensures { (a b : Subject) → subject_number a ≡ subject_number b → AreSame a b }
{}
