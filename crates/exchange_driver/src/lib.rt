//! An exchange that is driven over two non-blocking streams: the bytes that come go into the state
//! machine, and the bytes that it has to send go out.
//!
//! A driver rests only where the last read found nothing, or the last write was full: so no edge of
//! an edge-triggered poll is lost.
#![tactic(auto)]

mod calls;
mod driving;
mod line;
mod meter;
mod moved;
mod moves;
mod socket;
mod streams;

pub use driving::{Driven, Rest, Settings, drive};
pub use line::Line;
pub use meter::Meter;
pub use moved::Moved;
pub use socket::{ReadResult, Socket, WriteResult};
pub use streams::{Duplex, Live};
