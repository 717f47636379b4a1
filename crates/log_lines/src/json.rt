//! A line as one JSON value.

ghost use Rattle.std.specs.Prelude.{◌≡◌, ◌==◌, ◌&&◌, not, false, codes, is_some, string_bytes, if◌then◌else◌};
ghost use Rattle.std.specs.Option.{option_map, option_map_or, option_and_then};
ghost use Rattle.log_lines.specs.Fields.{spans_of, retries, is_redispatched};
ghost use Rattle.log_lines.specs.Following as following;
ghost use Rattle.log_texts.specs.Traces as traces;

use crate::dates::Dates;
use crate::fields::{Line, push_escaped};
use crate::letters::cause_told;
use crate::text::{queue_name, slot_of};
use serde::Serialize;
use std::alloc::{AllocError, Global};

#[derive(Drop)]
struct Texts {
    time: String,
    began: String,
    client: Option<String>,
    method: Option<String>,
    target: Option<String>,
    termination: String,
    due: Option<String>,
    left: Option<String>,
}

#[derive(Drop, Serialize)]
struct Request<'a> {
    time: &'a str,
    began: &'a str,
    client: Option<&'a str>,
    method: Option<&'a str>,
    target: Option<&'a str>,
    version: Option<&'a str>,
    server: Option<&'a str>,
    status: Option<u16>,
    termination: &'a str,
    received: u64,
    sent: u64,
    request_ms: Option<u64>,
    wait_ms: Option<u64>,
    connect_ms: Option<u64>,
    answer_ms: Option<u64>,
    total_ms: u64,
    class: Option<i64>,
    offset: Option<i64>,
    ticket: Option<u64>,
    due: Option<&'a str>,
    queue: Option<&'a str>,
    direct: bool,
    waited: Option<u64>,
    late: Option<i64>,
    ahead: Option<usize>,
    overtakers: Option<usize>,
    window: Option<u64>,
    since_window: Option<u64>,
    retries: u32,
    redispatched: bool,
    left: Option<&'a str>,
    clients: u64,
    served: usize,
    served_by_server: usize,
}

/// Writes a line as one JSON value.
pub fn push_json(
    alloc: Global,
    text: &mut String,
    dates: &mut Dates,
    line: &Line,
) -> Result<(), AllocError> {
    let texts = texts_of(alloc, dates, line)?;
    let request = request_of(&texts, line);
    match serde_json::to_string(alloc, &request) {
        Ok(json) => {
            text.push_str(json.as_str())?;
            text.push('\n')
        }
        Err(_) => Err(AllocError),
    }
}

/// Writes that this number of lines were left out.
pub(crate) fn push_lost_json(text: &mut String, lost: u64) -> Result<(), AllocError> {
    writeln!(text, "{{\"lost\":{lost}}}")
}

fn texts_of(alloc: Global, dates: &mut Dates, line: &Line) -> Result<Texts, AllocError> {
    let account = line.account;
    let mut time = String::new(alloc);
    dates.push_now(&mut time, account.moments.ended.get() as i64)?;
    let mut began = String::new(alloc);
    dates.push_now(&mut began, account.moments.began.get() as i64)?;
    let (method, target) = match &account.asked {
        None => (None, None),
        Some(asked) => (
            Some(escaped(alloc, asked.method.as_slice())?),
            Some(escaped(alloc, asked.target.as_slice())?),
        ),
    };
    let client = match account.client {
        None => None,
        Some(client) => Some(format!(in alloc; "{client}")?),
    };
    let due = match line.numbers {
        None => None,
        Some(numbers) => {
            let mut due = String::new(alloc);
            dates.push_due(&mut due, numbers.came.arrival.due.get())?;
            Some(due)
        }
    };
    let left = match line.numbers.and_then(|numbers| numbers.cause) {
        None => None,
        Some(cause) => {
            let cause = cause_told(cause, account.ended);
            Some(format!(in alloc; "{cause}")?)
        }
    };
    let (by, during) = account.ended.letters();
    Ok(Texts {
        time,
        began,
        client,
        method,
        target,
        termination: format!(in alloc; "{by}{during}")?,
        due,
        left,
    })
}

fn escaped(alloc: Global, bytes: &[u8]) -> Result<String, AllocError> {
    let mut text = String::new(alloc);
    push_escaped(&mut text, bytes)?;
    Ok(text)
}

fn request_of<'a>(texts: &'a Texts, line: &'a Line) -> Request<'a>
    ensures times { (result.time.now ≡ string_bytes texts.now.time) × (result.began.now ≡ string_bytes texts.now.began) }
    ensures client { option_map (λ it. it.now) result.client ≡ option_map string_bytes texts.now.client }
    ensures method { option_map (λ it. it.now) result.method ≡ option_map string_bytes texts.now.method }
    ensures target { option_map (λ it. it.now) result.target ≡ option_map string_bytes texts.now.target }
    ensures version { option_map (λ it. it.now) result.version ≡ option_map (λ it. if it.minor == 0 then codes "HTTP/1.0" else codes "HTTP/1.1") line.now.account.now.asked }
    ensures server { option_map (λ it. it.now) result.server ≡ option_map (traces.name_of line.now.names.now) line.now.account.now.server }
    ensures end { (result.status ≡ line.now.account.now.status) × (result.termination.now ≡ string_bytes texts.now.termination) }
    ensures bytes { (result.received ≡ line.now.account.now.received) × (result.sent ≡ line.now.account.now.sent) }
    ensures spans { let spans = spans_of line.now.account.now.moments in
        (result.request_ms ≡ spans.request) × (result.wait_ms ≡ spans.wait) × (result.connect_ms ≡ spans.connect) × (result.answer_ms ≡ spans.answer) × (result.total_ms ≡ spans.all) }
    ensures wish { (result.class ≡ option_map (λ wish. wish.0) line.now.account.now.wish) × (result.offset ≡ option_map (λ wish. wish.1) line.now.account.now.wish) }
    ensures ticket { result.ticket ≡ line.now.account.now.ticket }
    ensures due { option_map (λ it. it.now) result.due ≡ option_map string_bytes texts.now.due }
    ensures queue { option_map (λ it. it.now) result.queue ≡ option_map (λ stay. traces.queue_name line.now.names.now stay.queue)
        (option_and_then (λ slot. slot.stay) (option_and_then (λ it. it.now.slot) line.now.numbers)) }
    ensures waits { (result.waited ≡ option_and_then (λ it. following.waited it.now) line.now.numbers) × (result.late ≡ option_and_then (λ it. following.slot_lateness it.now) line.now.numbers) }
    ensures slot { let slot = option_and_then (λ it. it.now.slot) line.now.numbers in
        (result.ahead ≡ option_map (λ it. it.ahead) slot) × (result.overtakers ≡ option_map (λ it. it.overtakers) slot) × (result.window ≡ option_map (λ it. it.window) slot) }
    ensures stay { let slot = option_and_then (λ it. it.now.slot) line.now.numbers in
        let stay = option_and_then (λ it. it.stay) slot in
        (result.direct ≡ (is_some slot && not (is_some stay))) × (result.since_window ≡ option_map (λ it. it.window) stay) }
    ensures tries { (result.retries ≡ option_map_or (λ it. retries it.now) line.now.numbers 0) × (result.redispatched ≡ option_map_or (λ it. is_redispatched it.now) line.now.numbers false) }
    ensures left { option_map (λ it. it.now) result.left ≡ option_map string_bytes texts.now.left }
    ensures load { (result.clients ≡ line.now.account.now.clients) × (result.served ≡ line.now.load.all) × (result.served_by_server ≡ line.now.load.own) }
{
    let account = line.account;
    let spans = line.spans();
    let slot = slot_of(line.numbers);
    let stay = slot.and_then(|slot| slot.stay);
    Request {
        time: texts.time.as_str(),
        began: texts.began.as_str(),
        client: word(&texts.client),
        method: word(&texts.method),
        target: word(&texts.target),
        version: match &account.asked {
            None => None,
            Some(asked) if asked.minor == 0 => Some("HTTP/1.0"),
            Some(_) => Some("HTTP/1.1"),
        },
        server: match account.server {
            None => None,
            Some(server) => Some(line.names.of(server)),
        },
        status: account.status,
        termination: texts.termination.as_str(),
        received: account.received,
        sent: account.sent,
        request_ms: spans.request,
        wait_ms: spans.wait,
        connect_ms: spans.connect,
        answer_ms: spans.answer,
        total_ms: spans.all,
        class: account.wish.map(|wish| wish.0.get()),
        offset: account.wish.map(|wish| wish.1.get()),
        ticket: account.ticket,
        due: word(&texts.due),
        queue: match &slot {
            None => None,
            Some(slot) => queue_name(line.names, slot),
        },
        direct: slot.is_some() && stay.is_none(),
        waited: line.numbers.and_then(|numbers| numbers.waited()),
        late: line.numbers.and_then(|numbers| numbers.lateness()),
        ahead: slot.map(|slot| slot.ahead),
        overtakers: slot.map(|slot| slot.overtakers),
        window: slot.map(|slot| slot.window),
        since_window: stay.map(|stay| stay.window),
        retries: line.retries(),
        redispatched: line.is_redispatched(),
        left: word(&texts.left),
        clients: account.clients,
        served: line.load.all,
        served_by_server: line.load.own,
    }
}

fn word(text: &Option<String>) -> Option<&str>
    ensures { option_map (λ it. it.now) result ≡ option_map string_bytes text.now }
{
    match text {
        None => None,
        Some(text) => Some(text.as_str()),
    }
}
