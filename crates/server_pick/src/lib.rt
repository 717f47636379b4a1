//! Which server is next: balancing by least load (`balance leastconn`), the placement of a request,
//! and the server that takes from the queues. The crate allocates nothing and uses no handle; each
//! call is `O(n)` in the servers.
#![tactic(auto)]

mod balance;
mod cursor;
mod heads;
mod placement;
mod server_set;
mod servers;
mod takers;

pub use balance::{candidates, pick};
pub use cursor::Cursor;
pub use heads::Heads;
pub use placement::{Placement, place};
pub use server_set::Set64;
pub use takers::{next_queue, next_taker};
