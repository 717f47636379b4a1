ghost use Rattle.std.specs.Prelude.{◌≡◌};
ghost use Rattle.http_texts.specs.Replies as replies;

use crate::framings::request_framing;
use crate::roles::is_framed;
use http_bodies::Framing;
use req_view::{Values, View};

/// Says whether the client waits for a `100` before it sends a body (RFC 9110, section 10.1.1).
pub(crate) fn waits_for_leave(view: &View) -> bool
    ensures { result ≡ replies.waits_for_leave view.now }
{
    is_framed(view.version()) && has_body(request_framing(view)) && expects(view.values(b"Expect"))
}

fn has_body(framing: Option<Framing>) -> bool
    ensures { result ≡ replies.has_body framing }
{
    match framing {
        Some(Framing::Length(count)) => 0 < count,
        Some(Framing::Chunked) => true,
        _ => false,
    }
}

fn expects(mut values: Values<'_>) -> bool
    ensures { result ≡ replies.expects values.entry }
{
    values.any(|value| value.eq_ignore_ascii_case(b"100-continue"))
}
