ghost use Rattle.req_view.specs.Heads.{Tells};

use crate::refusal::HeadRefusal;
use crate::request::View;
use httparse::Status;
use httparse::spans::{EMPTY_HEADER_SPAN, parse_request};
use std::alloc::Global;

/// The most bytes of a head, with its line ends and the empty line.
pub const HEAD_BYTES: usize = 16_384;

/// The most fields of a head.
pub const HEAD_FIELDS: usize = 64;

/// What stands at the front of the bytes so far.
#[derive(Drop)]
pub enum Viewed<H> {
    /// They begin with a head of this number of bytes.
    Whole(H, usize),
    /// They aren't a whole head yet, may become one, and are fewer than a head may have.
    More,
    /// They can't become a head that the proxy accepts, or memory is short.
    Refused(HeadRefusal),
}

/// Looks for a request's head at the front of the bytes, of which it reads at most 16,384.
///
/// It accepts what `httparse` accepts in its default configuration: empty lines before the head
/// belong to it, a bare line feed ends a line, no line is folded, and the target is UTF-8 (RFC
/// 9112, sections 2 to 5). `O(n)`. It allocates once a whole head stands there: for its bytes, its
/// fields and their names.
pub fn view(alloc: Global, bytes: &[u8]) -> Viewed<View>
    ensures { Tells bytes.now result }
{
    let front = &bytes[..bytes.len().min(HEAD_BYTES)];
    let mut field_spans = [EMPTY_HEADER_SPAN; HEAD_FIELDS];
    match parse_request(front, &mut field_spans) {
        Ok(Status::Complete(spans)) => match View::copied(alloc, front, &field_spans, spans) {
            Ok(view) if view.is_welcome() => Viewed::Whole(view, spans.len),
            Ok(_) => Viewed::Refused(HeadRefusal::HeadFault),
            Err(_) => Viewed::Refused(HeadRefusal::NoMemory),
        },
        Ok(Status::Partial) => {
            if bytes.len() < HEAD_BYTES {
                Viewed::More
            } else {
                Viewed::Refused(HeadRefusal::HeadFault)
            }
        }
        Err(_) => Viewed::Refused(HeadRefusal::HeadFault),
    }
}
