ghost use Rattle.std.specs.Prelude.{◌≡◌};
ghost use Rattle.std.specs.Option.{option_copied};
ghost use Rattle.proxy_words.specs.Numerals.{numeral};
ghost use Rattle.log_texts.specs.Steps.{only, ticketed, arrival_line, arrival_of, return_of, failure_of, abort_of, tick_of, check_of, result_of, intake_of, limit_step, roll_of, step_of as step_of_line};

use crate::name::Name;
use due_key::{Class, Moment, Offset};
use log_entries::Intake;
use proxy_words::{Words, long_number, number, signed_long_number};

/// A step of a script, for a dispatcher.
#[derive(Debug, Drop)]
pub enum Step<'a> {
    /// `M arrive C O` or `M arrive C O NAME`: a request arrives at this moment, of this class, due
    /// by this offset from its arrival, and pinned to the server with this name.
    Arrive {
        moment: Moment,
        class: Class,
        offset: Offset,
        pin: Option<Name<'a>>,
    },
    /// `M done T`: the request with this ticket is over.
    Done {
        moment: Moment,
        ticket: u64,
    },
    /// `M fail T`: a connection of the request with this ticket failed.
    Fail {
        moment: Moment,
        ticket: u64,
    },
    /// `M abort T`: the client of the request with this ticket gave up.
    Abort {
        moment: Moment,
        ticket: u64,
    },
    /// `M tick`: time has passed up to this moment.
    Tick {
        moment: Moment,
    },
    /// `M check NAME up` or `M check NAME down`: a check of the server with this name ended, with a
    /// success or a failure.
    Check {
        moment: Moment,
        server: Name<'a>,
        answered: bool,
    },
    /// `M limit NAME N` or `M limit NAME closed`: from this moment the server with this name serves
    /// at most this number of requests at a time, where 0 is no limit, or takes none.
    Limit {
        moment: Moment,
        server: Name<'a>,
        limit: Intake,
    },
    /// `roll`: the next window of the log begins. It isn't an event, and has no moment.
    Roll,
}

/// Returns the step of a line, if it has one.
pub(crate) fn step_of(line: &[u8]) -> Option<Step>
    ensures { result ≡ step_of_line line.now }
{
    let mut words = Words::new(line);
    let moment = words.next()?;
    let Some(name) = words.next() else {
        return roll_of(moment);
    };
    if name == b"arrive".as_slice() {
        arrival_line(moment, words)
    } else if name == b"done".as_slice() {
        return_of(moment, words)
    } else if name == b"fail".as_slice() {
        failure_of(moment, words)
    } else if name == b"abort".as_slice() {
        abort_of(moment, words)
    } else if name == b"tick".as_slice() {
        tick_of(moment, words)
    } else if name == b"check".as_slice() {
        check_of(moment, words)
    } else if name == b"limit".as_slice() {
        limit_step(moment, words)
    } else {
        None
    }
}

// Reads `C O` or `C O NAME`, after `M arrive`.
fn arrival_line<'a>(moment: &[u8], mut words: Words<'a>) -> Option<Step<'a>>
    ensures { result ≡ arrival_line moment.now words.entry }
{
    let class = words.next()?;
    let offset = words.next()?;
    let Some(pin) = words.next() else {
        return arrival_of(moment, class, offset, None);
    };
    if words.next().is_some() {
        return None;
    }
    let pin = Name::new(pin)?;
    arrival_of(moment, class, offset, Some(pin))
}

fn arrival_of<'a>(
    moment: &[u8],
    class: &[u8],
    offset: &[u8],
    pin: Option<Name<'a>>,
) -> Option<Step<'a>>
    ensures { result ≡ arrival_of moment.now class.now offset.now pin.entry }
{
    let moment = moment_of(moment)?;
    let class = Class::clamp(signed_long_number(class)?);
    let offset = Offset::clamp(signed_long_number(offset)?);
    Some(Step::Arrive {
        moment,
        class,
        offset,
        pin,
    })
}

// Reads `T`, after `M done`.
fn return_of<'a>(moment: &[u8], words: Words) -> Option<Step<'a>>
    ensures { result ≡ return_of moment.now words.entry }
{
    let (moment, ticket) = ticketed(moment, words)?;
    Some(Step::Done { moment, ticket })
}

// Reads `T`, after `M fail`.
fn failure_of<'a>(moment: &[u8], words: Words) -> Option<Step<'a>>
    ensures { result ≡ failure_of moment.now words.entry }
{
    let (moment, ticket) = ticketed(moment, words)?;
    Some(Step::Fail { moment, ticket })
}

// Reads `T`, after `M abort`.
fn abort_of<'a>(moment: &[u8], words: Words) -> Option<Step<'a>>
    ensures { result ≡ abort_of moment.now words.entry }
{
    let (moment, ticket) = ticketed(moment, words)?;
    Some(Step::Abort { moment, ticket })
}

// Reads `M tick`.
fn tick_of<'a>(moment: &[u8], mut words: Words) -> Option<Step<'a>>
    ensures { result ≡ tick_of moment.now words.entry }
{
    if words.next().is_some() {
        return None;
    }
    let moment = moment_of(moment)?;
    Some(Step::Tick { moment })
}

// Reads `NAME up` or `NAME down`, after `M check`.
fn check_of<'a>(moment: &[u8], mut words: Words<'a>) -> Option<Step<'a>>
    ensures { result ≡ check_of moment.now words.entry }
{
    let server = words.next()?;
    let result = words.next()?;
    if words.next().is_some() {
        return None;
    }
    let moment = moment_of(moment)?;
    let server = Name::new(server)?;
    let answered = result_of(result)?;
    Some(Step::Check {
        moment,
        server,
        answered,
    })
}

// Reads `NAME N` or `NAME closed`, after `M limit`.
fn limit_step<'a>(moment: &[u8], mut words: Words<'a>) -> Option<Step<'a>>
    ensures { result ≡ limit_step moment.now words.entry }
{
    let server = words.next()?;
    let limit = words.next()?;
    if words.next().is_some() {
        return None;
    }
    let moment = moment_of(moment)?;
    let server = Name::new(server)?;
    let limit = intake_of(limit)?;
    Some(Step::Limit {
        moment,
        server,
        limit,
    })
}

/// Reads the number of requests that a server takes: `closed`, or a number of at most nine digits.
pub fn intake_of(word: &[u8]) -> Option<Intake>
    ensures { result ≡ intake_of word.now }
{
    if word == b"closed".as_slice() {
        Some(Intake::Closed)
    } else {
        let limit = number(word)?;
        Some(Intake::Open(limit))
    }
}

// Reads `roll`, the only word.
fn roll_of<'a>(word: &[u8]) -> Option<Step<'a>>
    ensures { result ≡ roll_of word.now }
{
    if word == b"roll".as_slice() {
        Some(Step::Roll)
    } else {
        None
    }
}

fn result_of(word: &[u8]) -> Option<bool>
    ensures { result ≡ result_of word.now }
{
    match word {
        b"up" => Some(true),
        b"down" => Some(false),
        _ => None,
    }
}

fn ticketed(moment: &[u8], words: Words) -> Option<(Moment, u64)>
    ensures { result ≡ ticketed moment.now words.entry }
{
    let moment = moment_of(moment)?;
    let ticket = long_number(only(words)?)?;
    Some((moment, ticket))
}

// Returns the only word.
pub(crate) fn only<'a>(mut words: Words<'a>) -> Option<&'a [u8]>
    ensures { option_copied result ≡ only words.entry }
{
    let word = words.next()?;
    match words.next() {
        None => Some(word),
        Some(_) => None,
    }
}

// A long number is always a moment.
fn moment_of(word: &[u8]) -> Option<Moment>
    ensures { result ≡ numeral 18 word.now }
{
    Moment::new(long_number(word)?)
}
