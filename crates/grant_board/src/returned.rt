use base_verdict::Ending;

/// A return from a place: the ticket whose pass was posted, and how its exchange ended.
#[derive(Clone, Copy, Debug, PartialEq, Eq)]
pub struct Return {
    pub place: usize,
    pub ticket: u64,
    pub ending: Ending,
}
