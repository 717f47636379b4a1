ghost use Rattle.std.specs.Prelude.{◌≡◌};
ghost use Rattle.http_texts.specs.Messages as messages;
ghost use Rattle.http_texts.specs.Texts.{framed_for};

use crate::plans::{Plan, answer_plan, is_interim};
use req_view::{AnswerHead, Version};

/// The most interim heads before an answer (RFC 9110, section 15.2, sets no bound).
pub const MOST_INTERIMS: usize = 8;

/// The role of a head for the answer that is awaited.
#[derive(Clone, Copy)]
pub enum Role {
    /// The answer's own head, with this plan.
    Final(Plan),
    /// An interim head before it.
    Interim,
    /// A head with an unsound framing, or one too many.
    Refused,
}

/// Returns the role of a head after this number of interim heads.
pub fn role_of(method: &[u8], head: &AnswerHead, count: u64) -> Role
    ensures { messages.HasRole method.now head.now count result }
{
    let Some(plan) = answer_plan(method, head) else {
        return Role::Refused;
    };
    if !is_interim(head.status()) {
        return Role::Final(plan);
    }
    if MOST_INTERIMS as u64 <= count {
        return Role::Refused;
    }
    Role::Interim
}

/// Says whether a client of this version is told the framing of a chunked body.
pub fn is_framed(version: Version) -> bool
    ensures { result ≡ framed_for version }
{
    match version {
        Version::Http10 => false,
        Version::Http11 => true,
    }
}
