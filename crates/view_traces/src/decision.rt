ghost use Rattle.std.specs.Prelude.{◌≡◌, None, IfOk};
ghost use Rattle.log_reading.specs.Grants.{moment_in};

use crate::event::{health, small_number, ticket};
use crate::fault::{LineError, TraceCause};
use crate::fields::{one, three, two};
use crate::servers::Servers;
use base_verdict::Cause;
use log_entries::Entry;
use proxy_words::Words;

/// Reads the decision of a line, by its first word and the words after it.
pub(crate) fn decision_of(
    servers: &mut Servers,
    name: &[u8],
    words: Words,
) -> Result<Entry, LineError>
    ensures { IfOk result (λ entry. moment_in entry ≡ None) }
{
    if name == b"join".as_slice() {
        joining(servers, words)
    } else if name == b"grant".as_slice() {
        grant(servers, words)
    } else if name == b"retry".as_slice() {
        retry(servers, words)
    } else if name == b"left".as_slice() {
        told(words)
    } else if name == b"health".as_slice() {
        health_of(servers, words)
    } else if name == b"end".as_slice() {
        ended(words)
    } else {
        slot_decision(servers, name, words)
    }
}

// Reads `T`, after `end`.
fn ended(words: Words) -> Result<Entry, LineError>
    ensures { IfOk result (λ entry. moment_in entry ≡ None) }
{
    let ticket = ticket(one(words)?)?;
    Ok(Entry::Ended(ticket))
}

// Reads `T S`, after `direct`, `move` or `free`.
fn slot_decision(servers: &mut Servers, name: &[u8], words: Words) -> Result<Entry, LineError>
    ensures { IfOk result (λ entry. moment_in entry ≡ None) }
{
    let (number, server) = two(words)?;
    let (ticket, server) = (ticket(number)?, servers.number(server)?);
    if name == b"direct".as_slice() {
        Ok(Entry::Direct(ticket, server))
    } else if name == b"move".as_slice() {
        Ok(Entry::Moved(ticket, server))
    } else if name == b"free".as_slice() {
        Ok(Entry::Freed(ticket, server))
    } else {
        Err(LineError::Faulty(TraceCause::Form))
    }
}

// Reads `T Q`, after `join`.
fn joining(servers: &mut Servers, words: Words) -> Result<Entry, LineError>
    ensures { IfOk result (λ entry. moment_in entry ≡ None) }
{
    let (number, queue) = two(words)?;
    let (ticket, queue) = (ticket(number)?, servers.queue(queue)?);
    Ok(Entry::Joined(ticket, queue))
}

// Reads `T Q S`, after `grant`.
fn grant(servers: &mut Servers, words: Words) -> Result<Entry, LineError>
    ensures { IfOk result (λ entry. moment_in entry ≡ None) }
{
    let (number, queue, server) = three(words)?;
    let (ticket, queue) = (ticket(number)?, servers.queue(queue)?);
    let server = servers.number(server)?;
    Ok(Entry::Granted(ticket, queue, server))
}

// Reads `T S K`, after `retry`.
fn retry(servers: &mut Servers, words: Words) -> Result<Entry, LineError>
    ensures { IfOk result (λ entry. moment_in entry ≡ None) }
{
    let (number, server, failures) = three(words)?;
    let (ticket, server) = (ticket(number)?, servers.number(server)?);
    let failures = small_number(failures)?;
    Ok(Entry::Retried(ticket, server, failures))
}

// Reads `T CAUSE`, after `left`.
fn told(words: Words) -> Result<Entry, LineError>
    ensures { IfOk result (λ entry. moment_in entry ≡ None) }
{
    let (number, cause) = two(words)?;
    let (ticket, cause) = (ticket(number)?, cause_of(cause)?);
    Ok(Entry::Left(ticket, cause))
}

fn cause_of(word: &[u8]) -> Result<Cause, LineError> {
    if word == b"aborted".as_slice() {
        Ok(Cause::Aborted)
    } else if word == b"timeout".as_slice() {
        Ok(Cause::Timeout)
    } else if word == b"retries".as_slice() {
        Ok(Cause::Retries)
    } else if word == b"noserver".as_slice() {
        Ok(Cause::NoServer)
    } else {
        Err(LineError::Faulty(TraceCause::Form))
    }
}

// Reads `S up` or `S down`, after `health`.
fn health_of(servers: &mut Servers, words: Words) -> Result<Entry, LineError>
    ensures { IfOk result (λ entry. moment_in entry ≡ None) }
{
    let (name, state) = two(words)?;
    let (server, up) = (servers.number(name)?, health(state)?);
    Ok(Entry::Health(server, up))
}
