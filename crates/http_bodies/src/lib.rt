//! What the bodies of HTTP/1.x messages are, the coder that reads them piece by piece, and the pipe
//! of calls that wait, which feeds it.
//!
//! Which input is a body, or a part of one, and which will never become one, is in `specs`, by the
//! framing. What hands bodies on says by these words what it did, and by a `Fault` why it did no
//! more.
#![tactic(auto)]

mod bodies;
mod bounds;
mod chunked;
mod coder_laws;
mod coding;
mod fault;
mod feeding;
mod framing;
mod inbox;
mod laws;
mod outbox;
mod page;
mod parts;
mod pipe;
mod plain;
mod text;
mod texts;

pub use bounds::{SIZE_LINE_BYTES, TRAILER_BYTES};
pub use coder_laws::{a_coding_reads_bodies, runs_of_feeds};
pub use coding::{Coding, Line, Part};
pub use fault::Fault;
pub use feeding::{Fed, State};
pub use framing::Framing;
pub use inbox::INBOX_BYTES;
pub use laws::texts_of_parts_are_comparable;
pub use outbox::{OUTBOX_BYTES, Outbox};
pub use page::Page;
pub use pipe::Pipe;
