ghost use Rattle.std.specs.Prelude.{◌≡◌, ◌+◌, ◌^◌, ◌<◌, ◌++◌, OnOk, IfErr};
ghost use Rattle.http_texts.specs.Emissions.{Puts, Halts};
ghost use Rattle.http_texts.specs.Texts as texts;

use crate::fields::Way;
use crate::lines::{put, put_end, put_fields, put_host, put_three};
use crate::persistence::Persistence;
use crate::plans::Plan;
use base_streams::Sink;
use http_bodies::{Fault, Framing, Page};
use req_view::{AnswerHead, View};

/// The additions to a request's head, as text.
#[derive(Clone, Copy)]
pub struct Added<'a> {
    /// What the server is told of its connection.
    pub asks: Persistence,
    /// The X-Forwarded-For line, or nothing.
    pub client: &'a [u8],
}

/// The form in which an answer is written to its client.
#[derive(Clone, Copy, Debug, PartialEq, Eq)]
pub struct Wording {
    pub plan: Plan,
    /// False for a client of version 1.0.
    pub framed: bool,
    /// What the client is told of its connection.
    pub says: Persistence,
}

/// Writes the head of a request that is handed on to a server.
pub fn put_request<P: Page, K: Sink>(
    page: &mut P,
    sink: &mut K,
    view: &View,
    framing: Framing,
    added: Added<'_>,
) -> Result<(), Fault>
    requires { (K.stream sink.old).calls + (P.pipe page.old).turns < 2 ^ 64 }
    ensures ok { OnOk result (Puts (P.pipe page.old) (P.pipe page.new) (K.stream sink.old) (K.stream sink.new)
        (texts.request_text_with added.entry.client.now added.entry.asks view.now framing)) }
    ensures err { IfErr result (Halts (P.pipe page.old) (P.pipe page.new) (K.stream sink.old) (K.stream sink.new)
        (texts.request_text_with added.entry.client.now added.entry.asks view.now framing)) }
{
    put_request_line(page, sink, view)?;
    put_fields(page, sink, view.section(), Way::ToServer)?;
    put_host(page, sink, view.section())?;
    put(page, sink, added.client)?;
    put_end(page, sink, framing, added.asks)?;
    Ok(())
}

fn put_request_line<P: Page, K: Sink>(page: &mut P, sink: &mut K, view: &View) -> Result<(), Fault>
    requires { (K.stream sink.old).calls + (P.pipe page.old).turns < 2 ^ 64 }
    ensures ok { OnOk result (Puts (P.pipe page.old) (P.pipe page.new) (K.stream sink.old) (K.stream sink.new) (texts.request_line view.now)) }
    ensures err { IfErr result (Halts (P.pipe page.old) (P.pipe page.new) (K.stream sink.old) (K.stream sink.new) (texts.request_line view.now)) }
{
    put(page, sink, view.method())?;
    put_three(page, sink, b" ", view.target(), b" HTTP/1.1\r\n")?;
    Ok(())
}

/// Writes the head of an answer that is handed on to a client.
pub fn put_answer<P: Page, K: Sink>(
    page: &mut P,
    sink: &mut K,
    head: &AnswerHead,
    wording: Wording,
) -> Result<(), Fault>
    requires { (K.stream sink.old).calls + (P.pipe page.old).turns < 2 ^ 64 }
    ensures ok { OnOk result (Puts (P.pipe page.old) (P.pipe page.new) (K.stream sink.old) (K.stream sink.new) (texts.answer_text wording.says wording.framed head.now wording.plan)) }
    ensures err { IfErr result (Halts (P.pipe page.old) (P.pipe page.new) (K.stream sink.old) (K.stream sink.new) (texts.answer_text wording.says wording.framed head.now wording.plan)) }
{
    put_answer_lines(page, sink, head)?;
    let framing = stated(wording.framed, wording.plan.stated);
    put_end(page, sink, framing, wording.says)?;
    Ok(())
}

// Returns the framing that is written: for an HTTP/1.0 client chunks are no framing.
fn stated(framed: bool, framing: Framing) -> Framing
    ensures { result ≡ texts.stated framed framing }
{
    match framing {
        Framing::Chunked if !framed => Framing::Empty,
        _ => framing,
    }
}

/// Writes an interim head, where the client is to have it.
pub fn put_interim<P: Page, K: Sink>(
    page: &mut P,
    sink: &mut K,
    head: &AnswerHead,
    framed: bool,
) -> Result<(), Fault>
    requires { (K.stream sink.old).calls + (P.pipe page.old).turns < 2 ^ 64 }
    ensures ok { OnOk result (Puts (P.pipe page.old) (P.pipe page.new) (K.stream sink.old) (K.stream sink.new) (texts.interim_text framed head.now)) }
    ensures err { IfErr result (Halts (P.pipe page.old) (P.pipe page.new) (K.stream sink.old) (K.stream sink.new) (texts.interim_text framed head.now)) }
{
    if !framed {
        return Ok(());
    }
    if head.status() == 100 {
        return Ok(());
    }
    put_answer_lines(page, sink, head)?;
    put(page, sink, b"\r\n")?;
    Ok(())
}

fn put_answer_lines<P: Page, K: Sink>(
    page: &mut P,
    sink: &mut K,
    head: &AnswerHead,
) -> Result<(), Fault>
    requires { (K.stream sink.old).calls + (P.pipe page.old).turns < 2 ^ 64 }
    ensures ok { OnOk result (Puts (P.pipe page.old) (P.pipe page.new) (K.stream sink.old) (K.stream sink.new) (texts.answer_lines head.now)) }
    ensures err { IfErr result (Halts (P.pipe page.old) (P.pipe page.new) (K.stream sink.old) (K.stream sink.new) (texts.answer_lines head.now)) }
{
    put_status_line(page, sink, head)?;
    put_fields(page, sink, head.section(), Way::ToClient)?;
    Ok(())
}

fn put_status_line<P: Page, K: Sink>(
    page: &mut P,
    sink: &mut K,
    head: &AnswerHead,
) -> Result<(), Fault>
    requires { (K.stream sink.old).calls + (P.pipe page.old).turns < 2 ^ 64 }
    ensures ok { OnOk result (Puts (P.pipe page.old) (P.pipe page.new) (K.stream sink.old) (K.stream sink.new) (texts.status_line head.now)) }
    ensures err { IfErr result (Halts (P.pipe page.old) (P.pipe page.new) (K.stream sink.old) (K.stream sink.new) (texts.status_line head.now)) }
{
    let digits = status_digits(head.status());
    put_three(page, sink, b"HTTP/1.1 ", &digits, b" ")?;
    put(page, sink, head.reason())?;
    put(page, sink, b"\r\n")?;
    Ok(())
}

// Returns a status in three digits.
fn status_digits(status: u16) -> [u8; 3]
    requires { status < 1000 }
    ensures { result ≡ texts.status_text status }
{
    let hundreds = (status / 100) as u8;
    let tens = (status / 10 % 10) as u8;
    let ones = (status % 10) as u8;
    [b'0' + hundreds, b'0' + tens, b'0' + ones]
}
