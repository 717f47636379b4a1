use crate::fault::{LineError, TraceCause};
use log_entries::Queue;
use log_texts::Names;
use proxy_words::is_name;
use std::alloc::Global;
use std::str;

/// The most servers.
const MOST_SERVERS: usize = 64;

/// The names of the servers, which get their numbers in the order in which they come.
#[derive(Drop)]
pub(crate) struct Servers {
    alloc: Global,
    list: Vec<String>,
}

impl Servers {
    pub(crate) fn new(alloc: Global, list: Vec<String>) -> Servers {
        Servers { alloc, list }
    }

    pub(crate) fn into_names(self) -> Names {
        let Servers { alloc: _, list } = self;
        Names::new(list)
    }

    /// Returns the number of the server that a word names. One pass over the names.
    pub(crate) fn number(&mut self, word: &[u8]) -> Result<usize, LineError> {
        if let Some(server) = self.list.iter().position(|name| name.as_bytes() == word) {
            return Ok(server);
        }
        if !is_name(word) {
            return Err(LineError::Faulty(TraceCause::Form));
        }
        if MOST_SERVERS <= self.list.len() {
            return Err(LineError::Faulty(TraceCause::Servers));
        }
        self.add(word)
    }

    /// Returns the queue that a word names: `*` is the backend's.
    pub(crate) fn queue(&mut self, word: &[u8]) -> Result<Queue, LineError> {
        if word == b"*".as_slice() {
            return Ok(Queue::Backend);
        }
        Ok(Queue::Server(self.number(word)?))
    }

    fn add(&mut self, word: &[u8]) -> Result<usize, LineError> {
        let Ok(text) = str::from_utf8(word) else {
            return Err(LineError::Faulty(TraceCause::Form));
        };
        let server = self.list.len();
        let Ok(name) = String::from_str(self.alloc, text) else {
            return Err(LineError::NoMemory);
        };
        match self.list.push(name) {
            Ok(()) => Ok(server),
            Err(_) => Err(LineError::NoMemory),
        }
    }
}
