use thiserror::Error;

/// Why bytes aren't read as a head.
#[derive(Clone, Copy, Debug, PartialEq, Eq, Error)]
pub enum HeadRefusal {
    /// No head that the proxy accepts stands there, and none can.
    #[error("not a head")]
    HeadFault,
    /// The system refused memory.
    #[error("no memory")]
    NoMemory,
}
