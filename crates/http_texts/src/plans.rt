ghost use Rattle.std.specs.Prelude.{◌≡◌, option_map};
ghost use Rattle.http_texts.specs.Framings as framings;
ghost use Rattle.http_texts.specs.Summaries as summaries;

use crate::framings::{Stated, StatedCoding, framing_of, stated_coding, stated_of};
use http_bodies::Framing;
use req_view::{AnswerHead, Version};

/// The plan for an answer: how its body is read, and the framing that its head states.
#[derive(Clone, Copy, Debug, PartialEq, Eq)]
pub struct Plan {
    pub body: Framing,
    pub stated: Framing,
}

/// Returns the plan for the answer to a request with this method; `None` where the framing is
/// unsound, or the head changes the protocol. `O(n)` in the framing fields' values.
pub fn answer_plan(method: &[u8], head: &AnswerHead) -> Option<Plan>
    ensures { result ≡ framings.answer_plan method.now head.now }
{
    let coding = stated_coding(head.values(b"Transfer-Encoding"));
    let stated = stated_of(head.values(b"Content-Length"));
    let to_head = *method == *b"HEAD".as_slice();
    if is_refused(head.status(), head.version(), coding) {
        return None;
    }
    plan_of(head.status(), to_head, head.version(), coding, stated)
}

fn is_refused(status: u16, version: Version, coding: StatedCoding) -> bool
    ensures { result ≡ summaries.is_refused status version coding }
{
    match (version, coding) {
        (Version::Http10, StatedCoding::Chunked | StatedCoding::Other) => true,
        _ => status == 101,
    }
}

fn plan_of(
    status: u16,
    to_head: bool,
    version: Version,
    coding: StatedCoding,
    stated: Stated,
) -> Option<Plan>
    ensures { result ≡ summaries.plan_of status to_head version coding stated }
{
    if is_interim(status) || status == 204 {
        return Some(bare());
    }
    if to_head || status == 304 {
        return stating(stated);
    }
    same_plan(framing_of(version, Framing::ToEnd, coding, stated))
}

pub(crate) fn is_interim(status: u16) -> bool
    ensures { result ≡ framings.is_interim status }
{
    99 < status && status < 200
}

fn stating(stated: Stated) -> Option<Plan>
    ensures { result ≡ summaries.stating stated }
{
    match stated {
        Stated::Absent => Some(bare()),
        Stated::Count(count) => Some(Plan {
            body: Framing::Empty,
            stated: Framing::Length(count),
        }),
        Stated::Faulty => None,
    }
}

fn bare() -> Plan
    ensures { result ≡ framings.bare }
{
    Plan {
        body: Framing::Empty,
        stated: Framing::Empty,
    }
}

fn same_plan(framing: Option<Framing>) -> Option<Plan>
    ensures { result ≡ option_map summaries.same_plan framing }
{
    match framing {
        None => None,
        Some(framing) => Some(Plan {
            body: framing,
            stated: framing,
        }),
    }
}
