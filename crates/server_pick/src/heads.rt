use due_key::Key;

/// The least keys of the queues that a server's slot may go to, if there are any: of its own queue
/// and of the backend's.
#[derive(Clone, Copy, Debug, PartialEq, Eq)]
pub struct Heads {
    pub own: Option<Key>,
    pub backend: Option<Key>,
}
