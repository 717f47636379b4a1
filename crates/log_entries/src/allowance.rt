/// The number of requests that a server takes.
#[derive(Clone, Copy, Debug, PartialEq, Eq)]
pub enum Intake {
    /// At most this number at once; 0 is without limit.
    Open(u32),
    /// None: the requests that it serves go on, and no others come to it.
    Closed,
}

/// The present limit of a server, and what it served when that limit was set.
#[derive(Clone, Copy, Debug, PartialEq, Eq)]
pub struct Allowance {
    /// How many requests it takes.
    pub limit: Intake,
    /// The number of requests that it served when the limit was last set. They are never stopped.
    pub served: usize,
}
