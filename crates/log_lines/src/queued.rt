use crate::tally::Tally;
use due_key::Key;
use std::alloc::{AllocError, Global};
use std::collections::BTreeSet;

/// The waiting requests of a queue in its order, and how many of each class.
#[derive(Drop)]
pub(crate) struct QueueKeys {
    keys: BTreeSet<Key>,
    classes: Tally,
}

impl QueueKeys {
    /// Makes an empty queue.
    pub fn new(alloc: Global) -> QueueKeys {
        QueueKeys {
            keys: BTreeSet::new(alloc),
            classes: Tally::new(alloc),
        }
    }

    /// Adds a request that waits. Where memory is refused, the count of its class may stay one too high.
    pub fn join(&mut self, key: Key) -> Result<(), AllocError> {
        self.classes.add(key.class.get())?;
        put(&mut self.keys, key)
    }

    /// Removes a request.
    pub fn leave(&mut self, key: Key) -> Result<(), AllocError> {
        if self.keys.remove(&key) {
            self.classes.take(key.class.get())
        } else {
            Ok(())
        }
    }

    /// Forgets all waiting requests.
    pub fn forget(&mut self, alloc: Global) {
        self.keys.clear();
        self.classes = Tally::new(alloc);
    }

    /// Returns the keys of the waiting requests, in the order in which they would be served.
    pub fn keys(&self) -> &BTreeSet<Key> {
        &self.keys
    }

    /// Returns how many of each class wait, for all classes that ever did.
    pub fn classes(&self) -> &Tally {
        &self.classes
    }
}

fn put(keys: &mut BTreeSet<Key>, key: Key) -> Result<(), AllocError> {
    match keys.insert(key) {
        Ok(_) => Ok(()),
        Err(_) => Err(AllocError),
    }
}
