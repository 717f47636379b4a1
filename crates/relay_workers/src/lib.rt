//! What the threads of a proxy do: with a client, from its request to the end of its answer, and
//! with its servers, which they check; and the simple way to serve, a thread for each client, which
//! `run` doesn't take.
//!
//! A client is served in three parts: `admit`, from a client to a place and a ticket; `wait`, from
//! there to a pass; `finish`, from a pass to the answer, after which the pass is posted. A `Gate`
//! gives clients, connections and moments; a `Pause` says how long a wait may be.
#![tactic(auto)]

mod admitting;
mod checking;
mod crew;
mod finished;
mod finishing;
mod flag;
mod gate;
mod lending;
mod member_seat;
mod outcome;
mod proxy;
mod slot;
mod stopping;
mod tally;
mod telling;
mod waiting;
mod working;

pub use admitting::{Admitted, admit, arrive, arrive_as, arrive_late};
pub use checking::checker;
pub use crew::serve;
pub use finished::Finished;
pub use finishing::finish;
pub use flag::{Stop, StopFlag, StopView};
pub use gate::{EndedCheck, Gate, Pause};
pub use lending::{join_all, split_off};
pub use outcome::Outcome;
pub use proxy::{Proxy, ProxyKeys, Runner, Worker};
pub use slot::Slot;
pub use stopping::{Stopped, TURNS};
pub use tally::Tally;
pub use waiting::{Granted, wait};
pub use working::worker;
