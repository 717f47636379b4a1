use thiserror::Error;

/// The most reads and writes of one exchange, before a refusal.
pub const TURNS: u64 = 1_000_000_000;

/// Why a worker ended while clients still came.
#[derive(Clone, Copy, Debug, PartialEq, Eq, Error)]
pub enum Stopped {
    /// Memory for its exchange or for a thread was refused.
    #[error("no memory")]
    NoMemory,
    /// All pauses of a wait were spent, and no pass came.
    #[error("turns spent")]
    PausesSpent,
}
