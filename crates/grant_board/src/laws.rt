//! The words of the board's places, and their encodings.
ghost use Rattle.std.specs.Prelude.{◌≡◌, ◌≢◌, ◌<◌, Some, IfSome, IfNone};
ghost use Rattle.grant_board.specs.declared.laws.Word.TheVariants.{Offered, Posted};
ghost use Rattle.grant_board.specs.BoardWords.{code_of, encode_of, IsWord, IsVerdict, IsUnposted, OffersNot};
ghost use Rattle.grant_board.specs.Places.{RuleByPlaces};

use base_verdict::{Cause, Ending, Verdict};

/// The word of a place.
#[derive(Clone, Copy, Debug, PartialEq, Eq)]
pub enum Word {
    /// Nothing is out at the place.
    Empty,
    /// This ticket's verdict waits for the thread that takes it.
    Offered(u64, Verdict),
    /// A seat has the pass.
    Taken(u64, Verdict),
    /// The pass was posted, and its ending waits for the keeper.
    Posted(u64, Verdict, Ending),
}

// The first bits of the verdict, of a failed ending and of the ticket. Bits 0 and 1 are the kind.
const VERDICT: u64 = 1 << 2;

const FAILED: u64 = 1 << 9;

const TICKET: u64 = 1 << 10;

const OFFERED: u64 = 1;

const TAKEN: u64 = 2;

const POSTED: u64 = 3;

// The codes of the causes, after those of the 64 servers.
const ABORTED: u64 = 64;

const TIMEOUT: u64 = 65;

const RETRIES: u64 = 66;

const NO_SERVER: u64 = 67;

fn code(verdict: Verdict) -> u64
    requires { IsVerdict verdict }
    ensures value { result ≡ code_of verdict }
    ensures range { result < 68 }
{
    match verdict {
        Verdict::Serve(server) => server as u64,
        Verdict::Told(Cause::Aborted) => ABORTED,
        Verdict::Told(Cause::Timeout) => TIMEOUT,
        Verdict::Told(Cause::Retries) => RETRIES,
        Verdict::Told(Cause::NoServer) => NO_SERVER,
    }
}

fn verdict_of(code: u64) -> Option<Verdict>
    ensures some { IfSome result (λ verdict. IsVerdict verdict × (code_of verdict ≡ code)) }
    ensures none { IfNone result ((verdict : _) → IsVerdict verdict → code_of verdict ≢ code) }
{
    match code {
        ABORTED => Some(Verdict::Told(Cause::Aborted)),
        TIMEOUT => Some(Verdict::Told(Cause::Timeout)),
        RETRIES => Some(Verdict::Told(Cause::Retries)),
        NO_SERVER => Some(Verdict::Told(Cause::NoServer)),
        server if server < 64 => Some(Verdict::Serve(server as usize)),
        _ => None,
    }
}

/// Returns the encoding of a word.
pub fn encode(word: Word) -> u64
    requires { IsWord word }
    ensures { result ≡ encode_of word }
{
    match word {
        Word::Empty => 0,
        Word::Offered(ticket, verdict) => ticket * TICKET + code(verdict) * VERDICT + OFFERED,
        Word::Taken(ticket, verdict) => ticket * TICKET + code(verdict) * VERDICT + TAKEN,
        Word::Posted(ticket, verdict, Ending::Done) => {
            ticket * TICKET + code(verdict) * VERDICT + POSTED
        }
        Word::Posted(ticket, verdict, Ending::Failed) => {
            ticket * TICKET + FAILED + code(verdict) * VERDICT + POSTED
        }
    }
}

/// Returns the word of an encoding; `None` exactly where no word has it.
pub fn decode(number: u64) -> Option<Word>
    ensures some { IfSome result (λ word. IsWord word × (encode_of word ≡ number)) }
    ensures none { IfNone result ((word : _) → IsWord word → encode_of word ≢ number) }
{
    if number == 0 {
        return Some(Word::Empty);
    }
    let ticket = number / TICKET;
    if ticket >= 1 << 40 {
        return None;
    }
    let failed = number % TICKET >= FAILED;
    let verdict = verdict_of(number % FAILED / VERDICT)?;
    match (number % VERDICT, failed, verdict) {
        (OFFERED, false, _) => Some(Word::Offered(ticket, verdict)),
        (TAKEN, false, _) => Some(Word::Taken(ticket, verdict)),
        (POSTED, false, _) => Some(Word::Posted(ticket, verdict, Ending::Done)),
        (POSTED, true, Verdict::Serve(_)) => Some(Word::Posted(ticket, verdict, Ending::Failed)),
        _ => None,
    }
}

// Returns what is posted in the word with this encoding.
pub(crate) fn posted_in(number: u64) -> Option<(u64, Verdict, Ending)>
    ensures some { IfSome result (λ p. IsWord (Posted p.0 p.1 p.2) × (number ≡ encode_of (Posted p.0 p.1 p.2))) }
    ensures none { IfNone result (IsUnposted number) }
{
    // Most looks for returns find a word of another kind.
    if number % VERDICT != POSTED {
        return None;
    }
    match decode(number)? {
        Word::Posted(ticket, verdict, ending) => Some((ticket, verdict, ending)),
        _ => None,
    }
}

// Returns the verdict with which the word of this encoding offers the ticket.
pub(crate) fn offered_in(number: u64, wanted: u64) -> Option<Verdict>
    ensures some { IfSome result (λ verdict. IsWord (Offered wanted verdict) × (number ≡ encode_of (Offered wanted verdict))) }
    ensures none { IfNone result (OffersNot wanted number) }
{
    match decode(number)? {
        Word::Offered(ticket, verdict) if ticket == wanted => Some(verdict),
        _ => None,
    }
}

/// The law of encodings: decoding the encoding of a word gives the word.
pub fn decode_encode(word: Word) -> Option<Word>
    requires { IsWord word }
    ensures { result ≡ Some word }
{
    decode(encode(word))
}

/// The law of the rule: what it implies of each of its states, place by place.
pub fn rule_by_places()
    ensures { RuleByPlaces }
{}
