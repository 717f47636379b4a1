ghost use Rattle.std.specs.Prelude.{◌≡◌, Some, IfOk};
ghost use Rattle.log_reading.specs.Grants.{moment_in};

use crate::fault::{LineError, TraceCause};
use crate::fields::{end, next, one, two};
use crate::servers::Servers;
use due_key::{Class, Due, Moment, Offset};
use log_entries::{Arrival, Entry, Intake};
use log_texts::intake_of;
use proxy_words::{Words, long_number, number, signed_long_number};

/// Reads the event of a line, by its moment and the words after it.
pub(crate) fn event_of(
    servers: &mut Servers,
    at: Moment,
    mut words: Words,
) -> Result<Entry, LineError>
    ensures { IfOk result (λ entry. moment_in entry ≡ Some at) }
{
    let name = next(&mut words)?;
    if name == b"arrive".as_slice() {
        arrival(servers, at, words)
    } else if name == b"tick".as_slice() {
        tick(at, words)
    } else if name == b"check".as_slice() {
        check(servers, at, words)
    } else if name == b"limit".as_slice() {
        limit(servers, at, words)
    } else {
        event_of_ticket(at, name, words)
    }
}

// Reads `T`, after `M done`, `M fail` or `M abort`.
fn event_of_ticket(moment: Moment, name: &[u8], words: Words) -> Result<Entry, LineError>
    ensures { IfOk result (λ entry. moment_in entry ≡ Some moment) }
{
    let ticket = ticket(one(words)?)?;
    if name == b"done".as_slice() {
        Ok(Entry::Done(moment, ticket))
    } else if name == b"fail".as_slice() {
        Ok(Entry::Fail(moment, ticket))
    } else if name == b"abort".as_slice() {
        Ok(Entry::Abort(moment, ticket))
    } else {
        Err(LineError::Faulty(TraceCause::Form))
    }
}

// Reads `T C D` or `T C D NAME`, after `M arrive`.
fn arrival(servers: &mut Servers, moment: Moment, mut words: Words) -> Result<Entry, LineError>
    ensures { IfOk result (λ entry. moment_in entry ≡ Some moment) }
{
    let (Some(ticket_word), Some(class), Some(due)) = (words.next(), words.next(), words.next())
    else {
        return Err(LineError::Faulty(TraceCause::Form));
    };
    let (ticket, class, due) = (ticket(ticket_word)?, class_of(class)?, due_of(due)?);
    let pin = pin_of(servers, words)?;
    let arrival = Arrival {
        ticket,
        class,
        due,
        pin,
        place: 0,
    };
    Ok(Entry::Arrive(moment, arrival))
}

// Reads `NAME`, or nothing.
fn pin_of(servers: &mut Servers, mut words: Words) -> Result<Option<u8>, LineError> {
    match (words.next(), words.next()) {
        (None, _) => Ok(None),
        (Some(name), None) => match u8::try_from(servers.number(name)?) {
            Ok(server) => Ok(Some(server)),
            Err(_) => Err(LineError::Faulty(TraceCause::Servers)),
        },
        _ => Err(LineError::Faulty(TraceCause::Form)),
    }
}

// Reads nothing, after `M tick`.
fn tick(moment: Moment, words: Words) -> Result<Entry, LineError>
    ensures { IfOk result (λ entry. moment_in entry ≡ Some moment) }
{
    end(words)?;
    Ok(Entry::Tick(moment))
}

// Reads `S up` or `S down`, after `M check`.
fn check(servers: &mut Servers, moment: Moment, words: Words) -> Result<Entry, LineError>
    ensures { IfOk result (λ entry. moment_in entry ≡ Some moment) }
{
    let (name, answer) = two(words)?;
    let (server, answered) = (servers.number(name)?, health(answer)?);
    Ok(Entry::Check(moment, server, answered))
}

// Reads `S N` or `S closed`, after `M limit`.
fn limit(servers: &mut Servers, moment: Moment, words: Words) -> Result<Entry, LineError>
    ensures { IfOk result (λ entry. moment_in entry ≡ Some moment) }
{
    let (name, most) = two(words)?;
    let (server, limit) = (servers.number(name)?, intake(most)?);
    Ok(Entry::Limit(moment, server, limit))
}

pub(crate) fn ticket(word: &[u8]) -> Result<u64, LineError> {
    long_number(word).ok_or(LineError::Faulty(TraceCause::Form))
}

fn intake(word: &[u8]) -> Result<Intake, LineError> {
    intake_of(word).ok_or(LineError::Faulty(TraceCause::Form))
}

/// Reads a number of at most nine digits.
pub(crate) fn small_number(word: &[u8]) -> Result<u32, LineError> {
    number(word).ok_or(LineError::Faulty(TraceCause::Form))
}

pub(crate) fn moment_of(word: &[u8]) -> Result<Moment, LineError> {
    Moment::new(ticket(word)?).ok_or(LineError::Faulty(TraceCause::Form))
}

/// Reads a class within the range of classes.
pub(crate) fn class_of(word: &[u8]) -> Result<Class, LineError> {
    let number = signed_number(word)?;
    let class = Class::clamp(number);
    if class.get() == number {
        Ok(class)
    } else {
        Err(LineError::Faulty(TraceCause::Form))
    }
}

/// Reads a due date, which is no earlier than the least offset.
pub(crate) fn due_of(word: &[u8]) -> Result<Due, LineError> {
    let number = signed_number(word)?;
    let offset = Offset::clamp(number.min(0));
    let Some(moment) = Moment::new(number.max(0) as u64) else {
        return Err(LineError::Faulty(TraceCause::Form));
    };
    let due = Due::of(moment, offset);
    if due.get() == number {
        Ok(due)
    } else {
        Err(LineError::Faulty(TraceCause::Form))
    }
}

pub(crate) fn signed_number(word: &[u8]) -> Result<i64, LineError> {
    signed_long_number(word).ok_or(LineError::Faulty(TraceCause::Form))
}

/// Reads `up` or `down`.
pub(crate) fn health(word: &[u8]) -> Result<bool, LineError> {
    match word {
        b"up" => Ok(true),
        b"down" => Ok(false),
        _ => Err(LineError::Faulty(TraceCause::Form)),
    }
}
