ghost use Rattle.std.specs.Prelude.{◌≡◌, ◌++◌, [], IfOk, Some};
ghost use Rattle.http_texts.specs.Emissions.{Puts};
ghost use Rattle.http_texts.specs.Replies as replies;
ghost use Rattle.http_texts.specs.Texts as texts;

use crate::additions::Additions;
use crate::heads::{Added, Wording, put_answer, put_interim, put_request};
use crate::leave::waits_for_leave;
use base_streams::{Counted, Sink};
use http_bodies::{Fault, Framing, Page};
use req_view::{AnswerHead, View};
use std::alloc::{AllocError, Global};
use std::io;
use std::net::IpAddr;

/// A text in memory. Its only fault is want of memory.
#[derive(Drop)]
struct Text {
    bytes: Vec<u8>,
}

impl Page for Text {
    // It has no turns, so none of it is ever written to a sink.
    ghost pipe = { λ t. record { inbox = []; outbox = t.bytes.items; turns = 0 } };

    fn put<K: Sink>(&mut self, _sink: &mut K, bytes: &[u8]) -> Result<(), Fault> {
        match self.bytes.extend_from_slice(bytes) {
            Ok(()) => Ok(()),
            Err(_) => Err(Fault::Turns),
        }
    }
}

/// Returns the head of a request as it is handed on to a server.
pub fn request_head(
    alloc: Global,
    view: &View,
    framing: Framing,
    adds: Additions,
) -> Result<Vec<u8>, AllocError>
    ensures { IfOk result (λ text. text.items ≡ texts.request_text adds view.now framing) }
{
    let client = client_line(alloc, adds.client)?;
    let added = Added {
        asks: adds.asks,
        client: client.as_slice(),
    };
    let mut text = Text {
        bytes: Vec::new(alloc),
    };
    let mut nowhere = io::sink();
    let mut sink = Counted::new(&mut nowhere);
    match put_request(&mut text, &mut sink, view, framing, added) {
        Ok(()) => Ok(text.bytes),
        Err(_) => Err(AllocError),
    }
}

/// Returns the `100` answer, where a client waits for it before it sends a body.
pub fn given_leave(view: &View) -> &'static [u8]
    ensures { result.now ≡ replies.leave_text view.now }
{
    if waits_for_leave(view) {
        b"HTTP/1.1 100 Continue\r\n\r\n"
    } else {
        b""
    }
}

/// Returns the head of an answer as it is handed on to a client.
pub fn answer_head_text(
    alloc: Global,
    head: &AnswerHead,
    wording: Wording,
) -> Result<Vec<u8>, AllocError>
    ensures { IfOk result (λ text. text.items ≡ texts.answer_text wording.says wording.framed head.now wording.plan) }
{
    let mut text = Text {
        bytes: Vec::new(alloc),
    };
    let mut nowhere = io::sink();
    let mut sink = Counted::new(&mut nowhere);
    match put_answer(&mut text, &mut sink, head, wording) {
        Ok(()) => Ok(text.bytes),
        Err(_) => Err(AllocError),
    }
}

/// Returns an interim head as it is handed on, where the client is to have it.
pub fn interim_head(alloc: Global, head: &AnswerHead, framed: bool) -> Result<Vec<u8>, AllocError>
    ensures { IfOk result (λ text. text.items ≡ texts.interim_text framed head.now) }
{
    let mut text = Text {
        bytes: Vec::new(alloc),
    };
    let mut nowhere = io::sink();
    let mut sink = Counted::new(&mut nowhere);
    match put_interim(&mut text, &mut sink, head, framed) {
        Ok(()) => Ok(text.bytes),
        Err(_) => Err(AllocError),
    }
}

// Returns the X-Forwarded-For line, where the server is told the client's address.
fn client_line(alloc: Global, client: Option<IpAddr>) -> Result<Vec<u8>, AllocError>
    ensures { IfOk result (λ line. line.items ≡ texts.client_text client) }
{
    match client {
        None => Ok(Vec::new(alloc)),
        Some(address) => address_line(alloc, address),
    }
}

fn address_line(alloc: Global, address: IpAddr) -> Result<Vec<u8>, AllocError>
    ensures { IfOk result (λ line. line.items ≡ texts.client_text (Some address)) }
{
    let written = format!(in alloc; "{address}")?;
    let mut line = Vec::from_slice(alloc, b"X-Forwarded-For: ")?;
    line.extend_from_slice(written.as_bytes())?;
    line.extend_from_slice(b"\r\n")?;
    Ok(line)
}
