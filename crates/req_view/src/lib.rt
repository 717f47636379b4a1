//! Heads of requests and answers: from the bytes that have come so far to their parts.
//!
//! A head is what `httparse` accepts in its default configuration, of at most 16,384 bytes and 64
//! fields. A request's head also names its host as its version demands, its method isn't `CONNECT`,
//! and its target has no fragment.
#![tactic(auto)]

mod answer;
mod answering;
mod index;
mod refusal;
mod request;
mod section;
mod target;
mod values;
mod version;
mod viewing;

pub use answer::AnswerHead;
pub use answering::answer_head;
pub use refusal::HeadRefusal;
pub use request::View;
pub use section::{Field, Section};
pub use values::Values;
pub use version::Version;
pub use viewing::{HEAD_BYTES, HEAD_FIELDS, Viewed, view};
