ghost use Rattle.std.specs.Prelude.{◌≡◌, ◌++◌, OnOk, OnErr, string_bytes, codes, decimal};
ghost use Rattle.std.specs.Fmt.{signed_decimal};
ghost use Rattle.base_verdict.specs.Cause.{word_of};
ghost use Rattle.log_texts.specs.Growth.{GrowsByFront};
ghost use Rattle.log_texts.specs.Traces.{arrival_text, intake_text, health_word as health_word_is, pin_text, entry_text, entries_text, refusal_text, queue_name};

use crate::names::Names;
use crate::writing::{push_line, push_word, push_words};
use base_verdict::Cause;
use due_key::{Class, Due, Moment};
use itoa::Buffer;
use log_entries::{Arrival, Entry, Intake, Queue, Refusal};
use std::alloc::AllocError;

/// Appends the lines of entries. After an `Err` a front of them stands there.
pub fn push_entries(text: &mut String, names: &Names, entries: &[Entry]) -> Result<(), AllocError>
    ensures ok { OnOk result (string_bytes text.new ≡ string_bytes text.old ++ entries_text names.now entries.now) }
    ensures err { OnErr result (GrowsByFront (string_bytes text.old) (string_bytes text.new) (entries_text names.now entries.now)) }
{
    for entry in entries {
        push_entry(text, names, entry)?;
    }
    Ok(())
}

/// Appends the line of an event that was refused. After an `Err` a front of it stands there.
pub fn push_refusal(text: &mut String, refusal: Refusal) -> Result<(), AllocError>
    ensures ok { OnOk result (string_bytes text.new ≡ string_bytes text.old ++ refusal_text refusal) }
    ensures err { OnErr result (GrowsByFront (string_bytes text.old) (string_bytes text.new) (refusal_text refusal)) }
{
    push_line(text, "refused ", u64::from(refusal.number()))
}

fn push_entry(text: &mut String, names: &Names, entry: &Entry) -> Result<(), AllocError>
    ensures ok { OnOk result (string_bytes text.new ≡ string_bytes text.old ++ entry_text names.now entry.now) }
    ensures err { OnErr result (GrowsByFront (string_bytes text.old) (string_bytes text.new) (entry_text names.now entry.now)) }
{
    match *entry {
        Entry::Arrive(moment, arrival) => push_arrival(text, names, moment, arrival),
        Entry::Done(moment, ticket) => push_told(text, moment, " done ", ticket),
        Entry::Fail(moment, ticket) => push_told(text, moment, " fail ", ticket),
        Entry::Abort(moment, ticket) => push_told(text, moment, " abort ", ticket),
        Entry::Tick(moment) => push_tick(text, moment),
        Entry::Check(moment, server, answered) => {
            let word = health_word(answered);
            push_said(text, moment, " check ", names.of(server), word)
        }
        Entry::Limit(moment, server, limit) => push_limit(text, moment, names.of(server), limit),
        Entry::Direct(ticket, server) => push_put(text, "  direct ", ticket, names.of(server)),
        Entry::Joined(ticket, queue) => push_put(text, "  join ", ticket, name_of(names, queue)),
        Entry::Granted(ticket, queue, server) => {
            let from = name_of(names, queue);
            push_moved(text, "  grant ", ticket, from, names.of(server))
        }
        Entry::Moved(ticket, server) => push_put(text, "  move ", ticket, names.of(server)),
        Entry::Freed(ticket, server) => push_put(text, "  free ", ticket, names.of(server)),
        Entry::Retried(ticket, server, failures) => {
            let mut digits = Buffer::new();
            let count = digits.format(failures);
            push_moved(text, "  retry ", ticket, names.of(server), count)
        }
        Entry::Left(ticket, cause) => push_put(text, "  left ", ticket, cause_word(cause)),
        Entry::Health(server, up) => push_health(text, names.of(server), health_word(up)),
        Entry::Ended(ticket) => push_line(text, "  end ", ticket),
    }
}

// Appends the line `M tick`.
fn push_tick(text: &mut String, moment: Moment) -> Result<(), AllocError>
    ensures ok { OnOk result (string_bytes text.new ≡ string_bytes text.old ++ (decimal moment ++ codes " tick\n")) }
    ensures err { OnErr result (GrowsByFront (string_bytes text.old) (string_bytes text.new) (decimal moment ++ codes " tick\n")) }
{
    let mut digits = Buffer::new();
    push_words(text, &[digits.format(moment.get()), " tick\n"])
}

// Appends the line `M WORD T`.
fn push_told(text: &mut String, moment: Moment, word: &str, ticket: u64) -> Result<(), AllocError>
    ensures ok { OnOk result (string_bytes text.new ≡ string_bytes text.old ++ (decimal moment ++ word.now ++ decimal ticket ++ codes "\n")) }
    ensures err { OnErr result (GrowsByFront (string_bytes text.old) (string_bytes text.new) (decimal moment ++ word.now ++ decimal ticket ++ codes "\n")) }
{
    let mut digits = Buffer::new();
    let mut number = Buffer::new();
    push_words(
        text,
        &[
            digits.format(moment.get()),
            word,
            number.format(ticket),
            "\n",
        ],
    )
}

// Appends the line `M WORD NAME LAST`.
fn push_said<'a>(
    text: &mut String,
    moment: Moment,
    word: &'a str,
    name: &'a str,
    last: &'a str,
) -> Result<(), AllocError>
    ensures ok { OnOk result (string_bytes text.new ≡ string_bytes text.old ++ (decimal moment ++ word.now ++ name.now ++ codes " " ++ last.now ++ codes "\n")) }
    ensures err { OnErr result (GrowsByFront (string_bytes text.old) (string_bytes text.new) (decimal moment ++ word.now ++ name.now ++ codes " " ++ last.now ++ codes "\n")) }
{
    let mut digits = Buffer::new();
    push_words(
        text,
        &[digits.format(moment.get()), word, name, " ", last, "\n"],
    )
}

// Appends the line `M limit NAME N` or `M limit NAME closed`.
fn push_limit(
    text: &mut String,
    moment: Moment,
    name: &str,
    limit: Intake,
) -> Result<(), AllocError>
    ensures ok { OnOk result (string_bytes text.new ≡ string_bytes text.old ++ (decimal moment ++ codes " limit " ++ name.now ++ codes " " ++ intake_text limit ++ codes "\n")) }
    ensures err { OnErr result (GrowsByFront (string_bytes text.old) (string_bytes text.new) (decimal moment ++ codes " limit " ++ name.now ++ codes " " ++ intake_text limit ++ codes "\n")) }
{
    match limit {
        Intake::Open(limit) => {
            let mut digits = Buffer::new();
            push_said(text, moment, " limit ", name, digits.format(limit))
        }
        Intake::Closed => push_said(text, moment, " limit ", name, "closed"),
    }
}

// Appends the line `WORD T NAME`.
fn push_put(text: &mut String, word: &str, ticket: u64, name: &str) -> Result<(), AllocError>
    ensures ok { OnOk result (string_bytes text.new ≡ string_bytes text.old ++ (word.now ++ decimal ticket ++ codes " " ++ name.now ++ codes "\n")) }
    ensures err { OnErr result (GrowsByFront (string_bytes text.old) (string_bytes text.new) (word.now ++ decimal ticket ++ codes " " ++ name.now ++ codes "\n")) }
{
    let mut digits = Buffer::new();
    push_words(text, &[word, digits.format(ticket), " ", name, "\n"])
}

// Appends the line `WORD T NAME LAST`.
fn push_moved<'a>(
    text: &mut String,
    word: &'a str,
    ticket: u64,
    name: &'a str,
    last: &'a str,
) -> Result<(), AllocError>
    ensures ok { OnOk result (string_bytes text.new ≡ string_bytes text.old ++ (word.now ++ decimal ticket ++ codes " " ++ name.now ++ codes " " ++ last.now ++ codes "\n")) }
    ensures err { OnErr result (GrowsByFront (string_bytes text.old) (string_bytes text.new) (word.now ++ decimal ticket ++ codes " " ++ name.now ++ codes " " ++ last.now ++ codes "\n")) }
{
    let mut digits = Buffer::new();
    push_words(
        text,
        &[word, digits.format(ticket), " ", name, " ", last, "\n"],
    )
}

// Appends the line `  health NAME WORD`.
fn push_health<'a>(text: &mut String, name: &'a str, word: &'a str) -> Result<(), AllocError>
    ensures ok { OnOk result (string_bytes text.new ≡ string_bytes text.old ++ (codes "  health " ++ name.now ++ codes " " ++ word.now ++ codes "\n")) }
    ensures err { OnErr result (GrowsByFront (string_bytes text.old) (string_bytes text.new) (codes "  health " ++ name.now ++ codes " " ++ word.now ++ codes "\n")) }
{
    push_words(text, &["  health ", name, " ", word, "\n"])
}

fn push_arrival(
    text: &mut String,
    names: &Names,
    moment: Moment,
    arrival: Arrival,
) -> Result<(), AllocError>
    ensures ok { OnOk result (string_bytes text.new ≡ string_bytes text.old ++ (entry_text names.now (Entry.Arrive moment arrival))) }
    ensures err { OnErr result (GrowsByFront (string_bytes text.old) (string_bytes text.new) (entry_text names.now (Entry.Arrive moment arrival))) }
{
    let pin = arrival.pin();
    push_arrived(text, moment, arrival)?;
    push_pin(text, names, pin)
}

fn push_arrived(text: &mut String, moment: Moment, arrival: Arrival) -> Result<(), AllocError>
    ensures ok { OnOk result (string_bytes text.new ≡ string_bytes text.old ++ (arrival_text moment arrival)) }
    ensures err { OnErr result (GrowsByFront (string_bytes text.old) (string_bytes text.new) (arrival_text moment arrival)) }
{
    push_began(text, moment, arrival.ticket)?;
    push_key(text, arrival.class, arrival.due)
}

// Appends `M arrive T`.
fn push_began(text: &mut String, moment: Moment, ticket: u64) -> Result<(), AllocError>
    ensures ok { OnOk result (string_bytes text.new ≡ string_bytes text.old ++ (decimal moment ++ codes " arrive " ++ decimal ticket)) }
    ensures err { OnErr result (GrowsByFront (string_bytes text.old) (string_bytes text.new) (decimal moment ++ codes " arrive " ++ decimal ticket)) }
{
    let mut digits = Buffer::new();
    let mut number = Buffer::new();
    push_words(
        text,
        &[
            digits.format(moment.get()),
            " arrive ",
            number.format(ticket),
        ],
    )
}

// Appends ` C D`.
fn push_key(text: &mut String, class: Class, due: Due) -> Result<(), AllocError>
    ensures ok { OnOk result (string_bytes text.new ≡ string_bytes text.old ++ (codes " " ++ signed_decimal class ++ codes " " ++ signed_decimal due)) }
    ensures err { OnErr result (GrowsByFront (string_bytes text.old) (string_bytes text.new) (codes " " ++ signed_decimal class ++ codes " " ++ signed_decimal due)) }
{
    let mut first = Buffer::new();
    let mut last = Buffer::new();
    push_words(
        text,
        &[" ", first.format(class.get()), " ", last.format(due.get())],
    )
}

// Appends the pin's name, if there is one, and the line's end.
fn push_pin(text: &mut String, names: &Names, pin: Option<usize>) -> Result<(), AllocError>
    ensures ok { OnOk result (string_bytes text.new ≡ string_bytes text.old ++ (pin_text names.now pin ++ codes "\n")) }
    ensures err { OnErr result (GrowsByFront (string_bytes text.old) (string_bytes text.new) (pin_text names.now pin ++ codes "\n")) }
{
    match pin {
        None => push_word(text, "\n"),
        Some(server) => end_by_name(text, names.of(server)),
    }
}

// Appends ` NAME`, and the line's end.
fn end_by_name(text: &mut String, name: &str) -> Result<(), AllocError>
    ensures ok { OnOk result (string_bytes text.new ≡ string_bytes text.old ++ (codes " " ++ name.now ++ codes "\n")) }
    ensures err { OnErr result (GrowsByFront (string_bytes text.old) (string_bytes text.new) (codes " " ++ name.now ++ codes "\n")) }
{
    push_words(text, &[" ", name, "\n"])
}

pub(crate) fn name_of(names: &Names, queue: Queue) -> &str
    ensures { result.now ≡ queue_name names.now queue }
{
    match queue {
        Queue::Backend => "*",
        Queue::Server(server) => names.of(server),
    }
}

fn health_word(up: bool) -> &'static str
    ensures { result.now ≡ health_word_is up }
{
    if up { "up" } else { "down" }
}

// The word of a `left` line.
fn cause_word(cause: Cause) -> &'static str
    ensures { result.now ≡ word_of cause }
{
    match cause {
        Cause::Aborted => "aborted",
        Cause::Timeout => "timeout",
        Cause::Retries => "retries",
        Cause::NoServer => "noserver",
    }
}
