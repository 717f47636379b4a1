//! One request and its answer as a value. It holds no socket: the bytes that come go in, and the
//! bytes to send come out, in both directions at once.
#![tactic(auto)]

mod asking;
mod dialing;
mod ending;
mod forwarding;
mod heading;
mod held;
mod laws;
mod leaving;
mod repeating;
mod settling;
mod sides;
mod signs;
mod telling;
mod texts;
mod waiting;
mod wanting;
mod way;

pub use asking::{Asking, Turn};
pub use dialing::{Dialing, Terms};
pub use ending::{Ended, Rest, Settled};
pub use forwarding::Forwarding;
pub use heading::{Headed, Seen, see_head};
pub use held::forget;
pub use laws::{what_a_way_sends, what_holds, what_sides_send};
pub use leaving::Leaving;
pub use settling::Settling;
pub use sides::Down;
pub use signs::Sign;
pub use telling::Telling;
pub use waiting::{Asked, Waiting};
pub use way::Way;
