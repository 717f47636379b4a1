//! What a proxy tells of its requests: the numbers of each by the dispatcher's log, the lines of
//! the access log, as text or JSON, and the totals that `/metrics` and `/state.json` show. It holds
//! no thread and no clock.
#![tactic(auto)]

mod account;
mod dates;
mod delays;
mod events;
mod exposition;
mod families;
mod fields;
mod follower;
mod histogram;
mod json;
mod letters;
mod minute;
mod noting;
mod numbers;
mod queued;
mod server;
mod sizes;
mod tally;
mod text;
mod totals;
mod totals_json;

pub use account::{Account, Asked, Moments};
pub use dates::Dates;
pub use events::{CheckFailure, ProxyEvent, push_event};
pub use families::push_metrics;
pub use fields::{Line, Load};
pub use follower::Follower;
pub use json::push_json;
pub use letters::{During, EndedBy, ExchangeEnd, cause_told};
pub use numbers::{GrantNumbers, Numbers, SlotNumbers, StayNumbers};
pub use text::{Format, push_line, push_lost, push_text};
pub use totals::{Lost, Proportions, ProxyNumbers};
pub use totals_json::state_of;
