//! A line in the form of HAProxy's `option httplog`, with the dispatcher's own fields after the quoted request.

ghost use Rattle.std.specs.Prelude.{◌≡◌, ◌++◌, false, OnOk, codes, string_bytes};
ghost use Rattle.std.specs.Option.{option_map, option_map_or, option_and_then};
ghost use Rattle.log_lines.specs.Fields as fields;
ghost use Rattle.log_lines.specs.LineTexts as texts;
ghost use Rattle.log_texts.specs.Traces as traces;

use crate::dates::{Dates, signed};
use crate::fields::{Line, Load, push_escaped};
use crate::json::{push_json, push_lost_json};
use crate::letters::cause_told;
use crate::numbers::{Numbers, SlotNumbers};
use log_entries::Queue;
use log_texts::Names;
use std::alloc::{AllocError, Global};

/// The form of the lines.
#[derive(Clone, Copy, Debug, PartialEq, Eq)]
pub enum Format {
    Text,
    Json,
}

/// Writes a line, with its line feed. After an `Err` a part of it may stand there.
pub fn push_line(
    alloc: Global,
    text: &mut String,
    dates: &mut Dates,
    format: Format,
    line: &Line,
) -> Result<(), AllocError> {
    match format {
        Format::Text => push_text(text, dates, line),
        Format::Json => push_json(alloc, text, dates, line),
    }
}

/// Writes a line that reports this number of lines as left out.
pub fn push_lost(
    text: &mut String,
    dates: &mut Dates,
    format: Format,
    now: u64,
    count: u64,
) -> Result<(), AllocError> {
    match format {
        Format::Json => push_lost_json(text, count),
        Format::Text => {
            dates.push_now(text, signed(now))?;
            writeln!(text, " - dueproxy - lost {count}")
        }
    }
}

/// Writes a line of text.
pub fn push_text(text: &mut String, dates: &mut Dates, line: &Line) -> Result<(), AllocError> {
    push_head(text, dates, line)?;
    push_times(text, line)?;
    push_outcome(text, line)?;
    push_load(text, line)?;
    push_request(text, line)?;
    push_wish(text, dates, line)?;
    push_wait(text, line)?;
    text.push('\n')
}

// Writes five words as in a line of syslog, the client, the time when it came, and its server.
fn push_head(text: &mut String, dates: &mut Dates, line: &Line) -> Result<(), AllocError> {
    let account = line.account;
    dates.push_now(text, account.moments.ended.get() as i64)?;
    text.push_str(" - dueproxy - request ")?;
    match account.client {
        Some(client) => write!(text, "{client}")?,
        None => text.push('-')?,
    }
    text.push_str(" [")?;
    dates.push_began(text, account.moments.began.get() as i64)?;
    write!(text, "] in out/{} ", line.server())
}

fn push_times(text: &mut String, line: &Line) -> Result<(), AllocError>
    ensures { OnOk result (string_bytes text.new ≡ string_bytes text.old ++ texts.times_text (fields.spans_of line.now.account.now.moments)) }
{
    let spans = line.spans();
    push_span(text, spans.request)?;
    push_span(text, spans.wait)?;
    push_span(text, spans.connect)?;
    push_span(text, spans.answer)?;
    write!(text, "{} ", spans.all)
}

fn push_span(text: &mut String, span: Option<u64>) -> Result<(), AllocError>
    ensures { OnOk result (string_bytes text.new ≡ string_bytes text.old ++ (texts.number_text span ++ codes "/")) }
{
    match span {
        Some(span) => write!(text, "{span}/"),
        None => text.push_str("-1/"),
    }
}

fn push_outcome(text: &mut String, line: &Line) -> Result<(), AllocError>
    ensures { OnOk result (string_bytes text.new ≡ string_bytes text.old ++ texts.outcome_text line.now.account.now.status line.now.account.now.sent line.now.account.now.ended) }
{
    let account = line.account;
    let (by, during) = account.ended.letters();
    push_status(text, account.status)?;
    write!(text, "{} - - {by}{during}-- ", account.sent)
}

fn push_status(text: &mut String, status: Option<u16>) -> Result<(), AllocError>
    ensures { OnOk result (string_bytes text.new ≡ string_bytes text.old ++ (texts.number_text status ++ codes " ")) }
{
    match status {
        Some(status) => write!(text, "{status} "),
        None => text.push_str("-1 "),
    }
}

fn push_load(text: &mut String, line: &Line) -> Result<(), AllocError>
    ensures { let redispatched = option_map_or (λ it. fields.is_redispatched it.now) line.now.numbers false in
        let retries = option_map_or (λ it. fields.retries it.now) line.now.numbers 0 in
        let ahead = option_map_or fields.ahead_of (option_and_then (λ it. it.now.slot) line.now.numbers) (0, 0) in
        OnOk result (string_bytes text.new ≡ string_bytes text.old ++ (texts.counts_text line.now.account.now.clients line.now.load ++ texts.tries_text redispatched retries ahead)) }
{
    push_counts(text, line.account.clients, line.load)?;
    let ahead = ahead(line.numbers);
    push_tries(text, line.is_redispatched(), line.retries(), ahead)
}

// Writes how many clients and requests there are.
fn push_counts(text: &mut String, clients: u64, load: Load) -> Result<(), AllocError>
    ensures { OnOk result (string_bytes text.new ≡ string_bytes text.old ++ texts.counts_text clients load) }
{
    let Load { all, own } = load;
    write!(text, "{clients}/{clients}/{all}/{own}/")
}

// Writes how many further tries were made, and how many requests went before it.
fn push_tries(
    text: &mut String,
    redispatched: bool,
    retries: u32,
    ahead: (usize, usize),
) -> Result<(), AllocError>
    ensures { OnOk result (string_bytes text.new ≡ string_bytes text.old ++ texts.tries_text redispatched retries ahead) }
{
    let (own, backend) = ahead;
    let sign = sign_of(redispatched);
    write!(text, "{sign}{retries} {own}/{backend} ")
}

fn sign_of(redispatched: bool) -> &'static str
    ensures { result.now ≡ texts.sign_text redispatched }
{
    if redispatched { "+" } else { "" }
}

// Returns how many requests went before it from its server's queue, and from the backend's.
fn ahead(numbers: Option<&Numbers>) -> (usize, usize)
    ensures { result ≡ option_map_or fields.ahead_of (option_and_then (λ it. it.now.slot) numbers.entry) (0, 0) }
{
    let Some(slot) = slot_of(numbers) else {
        return (0, 0);
    };
    match slot.stay {
        None => (0, 0),
        Some(stay) => match stay.queue {
            Queue::Server(_) => (slot.ahead, 0),
            Queue::Backend => (0, slot.ahead),
        },
    }
}

pub(crate) fn slot_of(numbers: Option<&Numbers>) -> Option<SlotNumbers>
    ensures { result ≡ option_and_then (λ it. it.now.slot) numbers.entry }
{
    numbers?.slot
}

fn push_request(text: &mut String, line: &Line) -> Result<(), AllocError> {
    let Some(asked) = &line.account.asked else {
        return text.push_str("\"<BADREQ>\"");
    };
    text.push('"')?;
    push_escaped(text, asked.method.as_slice())?;
    text.push(' ')?;
    push_escaped(text, asked.target.as_slice())?;
    write!(text, " HTTP/1.{}\"", asked.minor)
}

// Writes the rules' decision, and the due date.
fn push_wish(text: &mut String, dates: &mut Dates, line: &Line) -> Result<(), AllocError> {
    if let Some((class, offset)) = line.account.wish {
        write!(text, " class={} offset={}", class.get(), offset.get())?;
    }
    if let Some(ticket) = line.account.ticket {
        write!(text, " ticket={ticket}")?;
    }
    if let Some(numbers) = line.numbers {
        text.push_str(" due=")?;
        dates.push_due(text, numbers.came.arrival.due.get())?;
    }
    write!(text, " read={}", line.account.received)
}

// Writes where it waited and how long, and how many requests went before it.
fn push_wait(text: &mut String, line: &Line) -> Result<(), AllocError> {
    let Some(numbers) = line.numbers else {
        return Ok(());
    };
    if let Some(cause) = numbers.cause {
        let cause = cause_told(cause, line.account.ended);
        write!(text, " left={cause}")?;
    }
    let Some(slot) = numbers.slot else {
        return Ok(());
    };
    text.push_str(" queue=")?;
    match queue_name(line.names, &slot) {
        Some(name) => text.push_str(name)?,
        None => text.push_str("direct")?,
    }
    let waited = numbers.waited().unwrap_or(0);
    let late = numbers.lateness().unwrap_or(0);
    write!(
        text,
        " waited={waited} late={late} overtakers={} window={}",
        slot.overtakers, slot.window
    )?;
    match slot.stay {
        Some(stay) if slot.is_over_an_end() => write!(text, " since_window={}", stay.window),
        _ => Ok(()),
    }
}

/// Returns the queue of a stay: `*` is the backend's. `None` where there was no stay.
pub(crate) fn queue_name<'a>(names: &'a Names, slot: &SlotNumbers) -> Option<&'a str>
    ensures { option_map (λ name. name.now) result ≡ option_map (λ stay. traces.queue_name names.now stay.queue) slot.now.stay }
{
    match slot.stay?.queue {
        Queue::Backend => Some("*"),
        Queue::Server(server) => Some(names.of(server)),
    }
}
