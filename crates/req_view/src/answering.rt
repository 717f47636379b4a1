ghost use Rattle.req_view.specs.AnswerHeads.{TellsAnswer};

use crate::answer::AnswerHead;
use crate::refusal::HeadRefusal;
use crate::viewing::{HEAD_BYTES, HEAD_FIELDS, Viewed};
use httparse::Status;
use httparse::spans::{EMPTY_HEADER_SPAN, parse_response};
use std::alloc::Global;

/// Looks for an answer's head at the front of the bytes, of which it reads at most 16,384.
///
/// It accepts what `httparse` accepts in its default configuration, as `view` does (RFC 9112,
/// sections 2, 4 and 5). `O(n)`. It allocates once a whole head stands there: for its bytes, its
/// fields and their names.
pub fn answer_head(alloc: Global, bytes: &[u8]) -> Viewed<AnswerHead>
    ensures { TellsAnswer bytes.now result }
{
    let front = &bytes[..bytes.len().min(HEAD_BYTES)];
    let mut field_spans = [EMPTY_HEADER_SPAN; HEAD_FIELDS];
    match parse_response(front, &mut field_spans) {
        Ok(Status::Complete(spans)) => match AnswerHead::copied(alloc, front, &field_spans, spans) {
            Ok(head) => Viewed::Whole(head, spans.len),
            Err(_) => Viewed::Refused(HeadRefusal::NoMemory),
        },
        Ok(Status::Partial) => {
            if bytes.len() < HEAD_BYTES {
                Viewed::More
            } else {
                Viewed::Refused(HeadRefusal::HeadFault)
            }
        }
        Err(_) => Viewed::Refused(HeadRefusal::HeadFault),
    }
}
