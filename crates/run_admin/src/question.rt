ghost use Rattle.std.specs.Prelude.{◌≡◌, ◌≤◌, ℕ, List, length, position};
ghost use Rattle.httparse.specs.Grammar.{ReadsRequest, RequestHead};
ghost use Rattle.httparse.specs.Spans.{IsWithin, span_bytes};
ghost use Rattle.run_admin.specs.Questions.{QuestionIsWhole, Says, is_question_mark, method_of, path_of};

use httparse::Status;
use httparse::spans::{EMPTY_HEADER_SPAN, Span, parse_request};

/// The most bytes of a head.
pub const MOST_HEAD: usize = 8192;

/// The most fields of a head.
const MOST_FIELDS: usize = 64;

/// The method of a request.
#[derive(Clone, Copy, Debug, PartialEq, Eq)]
pub enum Method {
    Get,
    /// As `Get`, but for the body.
    Head,
    /// Any method that the listener refuses.
    Other,
}

/// The question of a client.
#[derive(Clone, Copy, Debug, PartialEq, Eq)]
pub struct Question<'a> {
    pub method: Method,
    /// The request target up to its first question mark.
    pub path: &'a [u8],
}

/// What was found at the front of a client's bytes.
#[derive(Clone, Copy, Debug, PartialEq, Eq)]
pub enum Asked<'a> {
    /// A whole head, whatever follows it.
    Whole(Question<'a>),
    /// The front of a head that isn't whole yet.
    Part,
    /// Bytes that can't become a head, or a head with too many fields.
    Nothing,
}

/// Reads the head at the front of a client's bytes. `O(n)`, no memory.
pub fn asked_of(bytes: &[u8]) -> Asked<'_>
    ensures says { Says bytes.now result }
    ensures found { (head : RequestHead) (rest : List ℕ) → ReadsRequest bytes.now head rest → length head.fields ≤ 64 → QuestionIsWhole result }
{
    let mut field_spans = [EMPTY_HEADER_SPAN; MOST_FIELDS];
    match parse_request(bytes, &mut field_spans) {
        Ok(Status::Complete(head)) => { Asked::Whole(question_of(bytes, head.method, head.path)) }
        Ok(Status::Partial) => Asked::Part,
        Err(_) => Asked::Nothing,
    }
}

fn question_of(bytes: &[u8], method: Span, path: Span) -> Question<'_>
    requires method { IsWithin (length bytes.now) method }
    requires path { IsWithin (length bytes.now) path }
    ensures method { result.method ≡ method_of (span_bytes bytes.now method) }
    ensures path { result.path.now ≡ path_of (span_bytes bytes.now path) }
{
    Question {
        method: method_of(method.of(bytes)),
        path: path_of(path.of(bytes)),
    }
}

fn method_of(word: &[u8]) -> Method
    ensures { result ≡ method_of word.now }
{
    if word == b"GET".as_slice() {
        Method::Get
    } else if word == b"HEAD".as_slice() {
        Method::Head
    } else {
        Method::Other
    }
}

// Returns the part of a request target before its first question mark.
fn path_of(target: &[u8]) -> &[u8]
    ensures { result.now ≡ path_of target.now }
{
    match mark_in(target) {
        None => target,
        Some(end) => &target[..end],
    }
}

fn mark_in(target: &[u8]) -> Option<usize>
    ensures { result ≡ position is_question_mark target.now }
{
    target.iter().position(|byte| *byte == b'?')
}
