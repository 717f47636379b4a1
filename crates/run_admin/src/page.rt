ghost use Rattle.std.specs.Prelude.{◌≡◌, ◌++◌, OnOk, length, string_bytes};
ghost use Rattle.run_admin.specs.Answers.{allow_text, answer_text, body_text, fields_text, head_text, status_number, reason_of};

use crate::question::Question;
use std::alloc::AllocError;

/// The status of an answer.
#[derive(Clone, Copy, Debug, PartialEq, Eq)]
pub enum Status {
    Good,
    BadRequest,
    NotFound,
    NotAllowed,
    TooSlow,
    TooLong,
    Unavailable,
}

/// The content of an answer.
#[derive(Debug, Drop)]
pub struct AdminPage {
    pub status: Status,
    /// The media type of its body.
    pub kind: &'static str,
    pub body: String,
}

/// The source of the answers.
pub trait Answers {
    /// Answers a question. The listener's thread does nothing else until this returns.
    fn answer(&mut self, question: &Question) -> Result<AdminPage, AllocError>;
}

impl Status {
    /// Returns the HTTP status code.
    pub fn number(self) -> u16
        ensures { result ≡ status_number self }
    {
        match self {
            Status::Good => 200,
            Status::BadRequest => 400,
            Status::NotFound => 404,
            Status::NotAllowed => 405,
            Status::TooSlow => 408,
            Status::TooLong => 431,
            Status::Unavailable => 503,
        }
    }

    fn reason(self) -> &'static str
        ensures { result.now ≡ reason_of self }
    {
        match self {
            Status::Good => "OK",
            Status::BadRequest => "Bad Request",
            Status::NotFound => "Not Found",
            Status::NotAllowed => "Method Not Allowed",
            Status::TooSlow => "Request Timeout",
            Status::TooLong => "Request Header Fields Too Large",
            Status::Unavailable => "Service Unavailable",
        }
    }
}

/// Writes a page as an HTTP answer, with its body or, for `HEAD`, without it.
pub fn push_answer(text: &mut String, page: &AdminPage, has_body: bool) -> Result<(), AllocError>
    ensures { OnOk result (string_bytes text.new ≡ string_bytes text.old ++ answer_text page.now.status page.now.kind.now (string_bytes page.now.body) has_body) }
{
    push_head(text, page.status, page.kind, page.body.len())?;
    text.push_str(allowed(page.status))?;
    text.push_str(fields())?;
    text.push_str(body_of(page, has_body))
}

// The fields that stand in every answer, and the end of the head. They forbid a page to load
// anything from elsewhere, and a client to store it.
#[tactic(auto, unfolding(crate::specs::Answers::fields_text))]
fn fields() -> &'static str
    ensures { result.now ≡ fields_text }
{
    "Connection: close\r\nCache-Control: no-store\r\nX-Content-Type-Options: nosniff\r\nContent-Security-Policy: default-src 'none'; style-src 'unsafe-inline'; script-src 'unsafe-inline'; connect-src 'self'; frame-ancestors 'none'\r\n\r\n"
}

#[tactic(auto, unfolding(crate::specs::Answers::body_text))]
fn body_of(page: &AdminPage, has_body: bool) -> &str
    ensures { result.now ≡ body_text (string_bytes page.now.body) has_body }
{
    if has_body { page.body.as_str() } else { "" }
}

#[tactic(auto, unfolding(crate::specs::Answers::head_text))]
fn push_head(text: &mut String, status: Status, kind: &str, size: usize) -> Result<(), AllocError>
    ensures { OnOk result (string_bytes text.new ≡ string_bytes text.old ++ head_text status kind.now size) }
{
    let number = status.number();
    let reason = status.reason();
    write!(
        text,
        "HTTP/1.1 {number} {reason}\r\nContent-Type: {kind}\r\nContent-Length: {size}\r\n"
    )
}

// The `Allow` field where the method was refused, else nothing.
#[tactic(auto, unfolding(crate::specs::Answers::allow_text))]
fn allowed(status: Status) -> &'static str
    ensures { result.now ≡ allow_text status }
{
    match status {
        Status::NotAllowed => "Allow: GET, HEAD\r\n",
        _ => "",
    }
}
